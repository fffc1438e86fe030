//! Least routes: for one destination, the least walk from each node of a directed graph.
//! It depends on mn_base.
//! Its contracts speak in walks (specs/Walk.antt) and in the order of their keys (specs/LeastWalk.antt).
#![tactic(auto)]

mod graph;
mod incoming;
mod label;
pub mod laws;
mod node_queue;
mod routes;
mod search;

pub use graph::{Arc, Graph};
pub use incoming::Incoming;
pub use routes::Routes;

#[cfg(test)]
mod tests;
