ghost use Rattle.std.specs.Prelude.{◌≡◌, ◌<◌, ◌≤◌, length};
ghost use Rattle.std.specs.List.{All};
ghost use Rattle.routes.specs.GraphView.{IsArcAmong, IsWithinLimits};
ghost use Rattle.routes.specs.Walk.{arc_at};

use mn_base::limits::{ARCS_MAX, NODES_MAX};
use std::marker::Model;

/// An arc of a directed graph, from one node to another.
#[derive(Clone, Copy, Debug, PartialEq, Eq)]
pub struct Arc {
    /// The node that it leaves.
    pub from: u32,
    /// The node that it leads to.
    pub to: u32,
    /// What it costs; for pipes the latency in microseconds.
    pub weight: u64,
}

/// A directed graph: nodes numbered from 0, and arcs numbered by their index in the list.
///
/// Arcs may be parallel, and an arc may lead from a node to itself.
#[derive(Debug, Drop)]
pub struct Graph {
    nodes: u32,
    arcs: Vec<Arc>,
}

impl Model for Graph {
    ghost use Rattle.std.specs.Prelude.{List};
    ghost use Rattle.routes.specs.GraphView.{GraphView, IsWithinLimits};

    ghost Value = { GraphView };

    ghost view = { λ g. record { nodes = g.nodes; arcs = g.arcs.items } };

    ghost invariant = { λ g. IsWithinLimits (record { nodes = g.nodes; arcs = g.arcs.items }) };
}

impl Graph {
    /// The graph of so many nodes, at most 4,096, and of these arcs, at most 262,144, each of a weight of at most
    /// 40,950,000,000.
    pub fn new(nodes: u32, arcs: Vec<Arc>) -> Graph
        requires nodes { nodes ≤ NODES_MAX }
        requires count { length arcs.items ≤ ARCS_MAX }
        requires arcs { All (IsArcAmong nodes) arcs.items }
        ensures nodes { result.nodes ≡ nodes }
        ensures arcs { result.arcs ≡ arcs.items }
    {
        Graph { nodes, arcs }
    }

    pub(crate) fn nodes(&self) -> u32
        ensures nodes { result ≡ self.now.nodes }
        ensures limits { IsWithinLimits self.now }
    {
        self.nodes
    }

    /// The arc of a number.
    pub(crate) fn arc(&self, number: u32) -> Arc
        requires { number < length self.now.arcs }
        ensures { result ≡ arc_at self.now.arcs number }
    {
        self.arcs[number as usize]
    }

    pub(crate) fn arcs(&self) -> &[Arc]
        ensures arcs { result.now ≡ self.now.arcs }
        ensures limits { IsWithinLimits self.now }
    {
        self.arcs.as_slice()
    }
}
