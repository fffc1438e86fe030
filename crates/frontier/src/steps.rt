ghost use Rattle.std.specs.Prelude.{◌≡◌, ℕ, ◌+◌, ◌<◌, ◌≤◌, ◌&&◌, [], length, map, filter, not, All, IfOk, slice_index_or};
ghost use Rattle.std.specs.List.{range_with_len};
ghost use Rattle.mn_base.specs.declared.limits.TheConstants.{FRONTIERS_MAX};
ghost use Rattle.frontier.specs.NodeSets.{has, is_in, is_beside};
ghost use Rattle.topo.specs.Nodes.{edge_nodes_of};
ghost use Rattle.frontier.specs.Frontiers.{frontiers_of};

use crate::node_sets::{NodeSet, push_if};
use mn_base::NoMemory;
use std::alloc::Global;
use topo::{Node, Topology};

/// The frontiers `F_1` to `F_(w+1)` of a topology, each in number order.
///
/// `F_1` has the edge nodes. `F_(k+1)` has the nodes in none of `F_1` to `F_k` that a link in either direction joins to a node of
/// `F_k`. Nodes that no links join to an edge node are in no frontier.
pub fn frontiers(alloc: Global, topology: &Topology, w: u32) -> Result<Vec<Vec<u32>>, NoMemory>
    requires { w ≤ FRONTIERS_MAX }
    ensures { IfOk result (λ fs. map (λ f. f.items) fs.items ≡ frontiers_of topology.now w) }
{
    let first = edge_nodes(alloc, topology)?;
    let mut reached = NodeSet::new(alloc, topology.nodes().len())?;
    reached.add(&first);
    let mut frontiers = Vec::new(alloc);
    frontiers.push(first)?;
    for k in 0..w {
        let next = frontier_after(alloc, topology, &reached, &frontiers[k as usize])?;
        reached.add(&next);
        frontiers.push(next)?;
    }
    Ok(frontiers)
}

/// The edge nodes of a topology, which are those with an address, in number order.
#[tactic(auto, using(crate::proofs::Numbers::filter_range_more))]
pub fn edge_nodes(alloc: Global, topology: &Topology) -> Result<Vec<u32>, NoMemory>
    ensures nodes { IfOk result (λ v. v.items ≡ edge_nodes_of topology.now.nodes) }
    ensures below { IfOk result (λ v. All (λ n. n < length topology.now.nodes) v.items) }
{
    let nodes = topology.nodes();
    let mut edge_nodes = Vec::new(alloc);
    for node in 0..nodes.len() as u32 {
        let is_edge_node = nodes[node as usize].address.is_some();
        push_if(&mut edge_nodes, node, is_edge_node)?;
    }
    Ok(edge_nodes)
}

/// The nodes that aren't reached and that a link in either direction joins to a node of `last`, in number order.
fn frontier_after(
    alloc: Global,
    topology: &Topology,
    reached: &NodeSet,
    last: &[u32],
) -> Result<Vec<u32>, NoMemory>
    requires size { length reached.now ≡ length topology.now.nodes }
    requires last { All (λ v. v < length topology.now.nodes) last.now }
    ensures below { IfOk result (λ next. All (λ v. v < length topology.now.nodes) next.items) }
    ensures next { IfOk result (λ next. next.items ≡ filter
        (λ v. not (has reached.now v) && is_beside topology.now.links (λ u. is_in u last.now) v)
        (range_with_len 0 (length topology.now.nodes))) }
{
    if last.is_empty() {
        return Ok(Vec::new(alloc));
    }
    let mut from = NodeSet::new(alloc, topology.nodes().len())?;
    from.add(last);
    let beside = from.beside(alloc, topology.links())?;
    beside.members_outside(alloc, reached)
}
