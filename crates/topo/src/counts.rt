ghost use Rattle.std.specs.Prelude.{◌≡◌};
ghost use Rattle.topo.specs.Faults.{node_count_fault};

use crate::faults::{Many, TopoFault};
use crate::parts::Node;
use mn_base::limits::{EDGE_NODES_MAX, NODES_MAX};

pub(crate) fn node_count_fault(nodes: &[Node]) -> Option<TopoFault>
    ensures { result ≡ node_count_fault nodes.now }
{
    if nodes.len() > NODES_MAX {
        return Some(TopoFault::TooMany(Many::Nodes));
    }
    let edge_nodes = nodes.iter().filter(|node| node.address.is_some()).count();
    (edge_nodes > EDGE_NODES_MAX).then_some(TopoFault::TooMany(Many::EdgeNodes))
}
