ghost use Rattle.std.specs.Prelude.{◌≡◌, ◌<◌, ◌^◌, length};
ghost use Rattle.std.specs.Ordering.{nat_cmp};
ghost use Rattle.std.specs.BTreeMap.{get};
ghost use Rattle.topo.specs.Faults.{first_fault, edge_fault};

use crate::faults::TopoFault;
use crate::keys::Key;
use crate::parts::EdgeSpec;
use mn_base::{is_bandwidth, is_latency, is_loss, is_queue_limit};
use std::collections::BTreeMap;

/// The first fault of the edges, whose ends are ids of the numbered nodes.
pub(crate) fn first_edge_fault(
    numbers: &BTreeMap<u64, u32>,
    edges: &[EdgeSpec],
) -> Option<TopoFault>
    requires { length edges.now < 2 ^ 32 }
    ensures { result ≡ first_fault (edge_fault (get nat_cmp numbers.now)) 0 edges.now }
{
    for (e, edge) in edges.iter().enumerate() {
        if let Some(fault) = edge_fault(numbers, e as u32, edge) {
            return Some(fault);
        }
    }
    None
}

fn edge_fault(numbers: &BTreeMap<u64, u32>, e: u32, edge: &EdgeSpec) -> Option<TopoFault>
    ensures { result ≡ edge_fault (get nat_cmp numbers.now) e edge.now }
{
    if !(numbers.contains_key(&edge.source) && numbers.contains_key(&edge.target)) {
        return Some(TopoFault::UnknownNode(e));
    }
    if !is_bandwidth(edge.bps) {
        return Some(TopoFault::Range(e, Key::Bandwidth));
    }
    if !is_latency(edge.latency_us) {
        return Some(TopoFault::Range(e, Key::Latency));
    }
    if !is_queue_limit(edge.queue) {
        return Some(TopoFault::Range(e, Key::Queue));
    }
    if !is_loss(edge.ppm) {
        return Some(TopoFault::Range(e, Key::Loss));
    }
    None
}
