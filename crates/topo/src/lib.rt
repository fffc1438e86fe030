//! Valid topologies: nodes, links, and the first fault of what is none.
//! It depends on mn_base.
//! Its contracts speak in the first fault (specs/Faults.antt), the links of edges (specs/Links.antt), valid topologies
//! (specs/Topologies.antt) and the spelling of keys (specs/Keys.antt).
#![tactic(auto)]

mod counts;
mod edges;
mod faults;
mod identity;
mod keys;
pub mod laws;
mod linking;
mod parts;
mod topologies;

pub use faults::{Many, TopoFault};
pub use keys::Key;
pub use parts::{EdgeSpec, Link, Node};
pub use topologies::Topology;

#[cfg(test)]
mod tests;
