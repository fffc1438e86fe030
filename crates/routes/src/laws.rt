//! Facts that follow from the definitions of walks alone. These functions compute nothing.
ghost use Rattle.routes.specs.SameLatency.{DistillingKeepsLatency};
ghost use Rattle.routes.specs.Laws.{LeastWalksMeetNoNodeTwice, LeastWalksHaveNoArcTwice, LeastWalksAreShort, LeastWalksAreUnique};

/// A least walk meets no node twice, has no arc twice, and has fewer arcs than its graph has nodes.
pub fn least_walks_meet_no_node_twice()
    ensures nodes { LeastWalksMeetNoNodeTwice }
    ensures arcs { LeastWalksHaveNoArcTwice }
    ensures short { LeastWalksAreShort }
{}

/// Between two nodes there is at most one least walk.
pub fn least_walks_are_unique()
    ensures { LeastWalksAreUnique }
{}

/// Pipes that distill a graph keep the least latency between any two nodes that are outer or on the border: arcs with an outer
/// end are kept as pipes, and between nodes of the border a pipe is no longer than each walk of the arcs that aren't kept.
pub fn distilling_keeps_latency()
    ensures { DistillingKeepsLatency }
{}
