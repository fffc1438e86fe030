//! What holds of the definitions. These functions compute nothing: their clauses are the facts.

ghost use Rattle.topo.specs.Laws.{EdgeNodesInOrder, FaultlessMakeTopology};

/// There is no first fault if and only if the limits hold, ids and addresses differ, and each edge joins nodes with values
/// in their ranges.
pub fn faultless_make_topology()
    ensures { FaultlessMakeTopology }
{}

/// The numbers of a topology's edge nodes rise, are numbers of its nodes, and are at most 512.
pub fn edge_nodes_in_order()
    ensures { EdgeNodesInOrder }
{}
