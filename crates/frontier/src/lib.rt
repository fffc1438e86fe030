//! Frontiers: the edge nodes of a topology, and step by step the nodes beside them.
//!
//! It depends on topo and mn_base. Its contracts speak in `frontiers_of` (specs/Frontiers.antt) and in sets of nodes
//! (specs/NodeSets.antt).
#![tactic(auto)]

mod node_sets;
mod steps;

pub use node_sets::{NodeSet, push_if};
pub use steps::{edge_nodes, frontiers};

#[cfg(test)]
mod tests;
