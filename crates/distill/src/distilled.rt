ghost use Rattle.std.specs.Prelude.{◌≡◌};
ghost use Rattle.distill.specs.Distilled.{KeepsPipeLimits};

use crate::pipes::DistilledPipe;
use std::marker::Model;

/// A distilled topology, which contracts see as its number of nodes, its edge nodes in number order and its pipes.
#[derive(Debug, Drop)]
pub struct Distilled {
    pub(crate) nodes: u32,
    pub(crate) edge_nodes: Vec<u32>,
    pub(crate) pipes: Vec<DistilledPipe>,
}

impl Model for Distilled {
    ghost use Rattle.distill.specs.Distilled.{DistilledView, KeepsPipeLimits};

    ghost Value = { DistilledView };

    ghost view = { λ d. record { nodes = d.nodes; edge_nodes = d.edge_nodes.items; pipes = d.pipes.items } };

    ghost invariant = { λ d. KeepsPipeLimits (record { nodes = d.nodes; edge_nodes = d.edge_nodes.items; pipes = d.pipes.items }) };
}

impl Distilled {
    /// The number of nodes of the topology.
    pub fn nodes(&self) -> u32
        ensures value { result ≡ self.now.nodes }
        ensures valid { KeepsPipeLimits self.now }
    {
        self.nodes
    }

    /// The edge nodes of the topology, in number order.
    pub fn edge_nodes(&self) -> &[u32]
        ensures lent { result.now ≡ self.now.edge_nodes }
        ensures valid { KeepsPipeLimits self.now }
    {
        &self.edge_nodes
    }

    /// The pipes, by their numbers.
    pub fn pipes(&self) -> &[DistilledPipe]
        ensures lent { result.now ≡ self.now.pipes }
        ensures valid { KeepsPipeLimits self.now }
    {
        &self.pipes
    }
}
