ghost use Rattle.std.specs.Prelude.{◌≡◌, ◌≤◌, ◌<◌, ◌^◌, ◌||◌, ◌&&◌, ℕ, ◌+◌, ◌-◌, max, not, filter, length, map, take, drop, IfOk};
ghost use Rattle.std.specs.List.{range_with_len};
ghost use Rattle.mn_base.specs.declared.limits.TheConstants.{FRONTIERS_MAX};
ghost use Rattle.frontier.specs.NodeSets.{has};
ghost use Rattle.frontier.specs.Frontiers.{frontiers_of};
ghost use Rattle.walk_out.specs.WalkOut.{walk_parts, walk_out_parts, nonempty_count};

use crate::parts::{Parts, parts_around};
use frontier::{NodeSet, push_if};
use mn_base::NoMemory;
use std::alloc::Global;
use topo::Topology;

/// The parts of walk-in: the links with an end in `F_1` to `F_w` stay, and the border is `F_(w+1)`.
///
/// `frontiers` is what `frontier::frontiers` gives for `w`.
pub fn walk_in(
    alloc: Global,
    topology: &Topology,
    frontiers: &[Vec<u32>],
    w: u32,
) -> Result<Parts, NoMemory>
    requires frontiers { map (λ f. f.items) frontiers.now ≡ frontiers_of topology.now w }
    ensures { IfOk result (λ parts. parts ≡ walk_parts topology.now w) }
{
    let walked = w as usize;
    let mut outer = NodeSet::new(alloc, topology.nodes().len())?;
    outer.add_all(&frontiers[..walked]);
    let border = Vec::from_slice(alloc, &frontiers[walked])?;
    parts_around(alloc, topology, &outer, border)
}

/// The parts of walk-out: beside the links of walk-in by `w`, those with an end in the core stay.
///
/// The core has the innermost `o` of the frontiers that have a node, but none of `F_1` to `F_(w+1)`. The border is `F_(w+1)` and the
/// nodes of the middle that a link in either direction joins to the core. `frontiers` is what `frontier::frontiers` gives for
/// `FRONTIERS_MAX`.
pub fn walk_out(
    alloc: Global,
    topology: &Topology,
    frontiers: &[Vec<u32>],
    w: u32,
    o: u32,
) -> Result<Parts, NoMemory>
    requires w { w ≤ FRONTIERS_MAX }
    requires frontiers { map (λ f. f.items) frontiers.now ≡ frontiers_of topology.now FRONTIERS_MAX }
    ensures { IfOk result (λ parts. parts ≡ walk_out_parts topology.now w o) }
{
    let walked = w as usize;
    let nodes = topology.nodes().len();
    let core = core_of(frontiers, walked, o as usize);
    let mut outer = NodeSet::new(alloc, nodes)?;
    outer.add_all(&frontiers[..walked]);
    outer.add_all(core);
    let mut inmost = NodeSet::new(alloc, nodes)?;
    inmost.add_all(core);
    let near = inmost.beside(alloc, topology.links())?;
    let mut first = NodeSet::new(alloc, nodes)?;
    first.add(&frontiers[walked]);
    let border = border_of(alloc, &first, &outer, &near)?;
    parts_around(alloc, topology, &outer, border)
}

/// How many frontiers have a node.
fn nonempty_count(frontiers: &[Vec<u32>]) -> usize
    ensures value { result ≡ nonempty_count (map (λ f. f.items) frontiers.now) }
    ensures bound { result ≤ length frontiers.now }
{
    let mut count = 0;
    for frontier in frontiers {
        if !frontier.is_empty() {
            count += 1;
        }
    }
    count
}

/// The frontiers of the core.
fn core_of(frontiers: &[Vec<u32>], w: usize, o: usize) -> &[Vec<u32>]
    requires { w < 2 ^ 32 }
    ensures { result.now ≡ drop (max (nonempty_count (map (λ f. f.items) frontiers.now) - o) (w + 1))
        (take (nonempty_count (map (λ f. f.items) frontiers.now)) frontiers.now) }
{
    let count = nonempty_count(frontiers);
    let nonempty = &frontiers[..count];
    let start = count.saturating_sub(o).max(w + 1).min(count);
    &nonempty[start..]
}

/// The nodes of the first set, and those that are near and not outer, in number order.
#[tactic(auto, using(frontier::proofs::Numbers::filter_range_more))]
fn border_of(
    alloc: Global,
    first: &NodeSet,
    outer: &NodeSet,
    near: &NodeSet,
) -> Result<Vec<u32>, NoMemory>
    requires outer { length outer.now ≡ length first.now }
    requires near { length near.now ≡ length first.now }
    requires few { length first.now < 2 ^ 32 }
    ensures { IfOk result (λ v. v.items ≡ filter
        (λ v. has first.now v || (not (has outer.now v) && has near.now v)) (range_with_len 0 (length first.now))) }
{
    let mut border = Vec::new(alloc);
    for node in 0..first.size() as u32 {
        let is_border = first.contains(node) || !outer.contains(node) && near.contains(node);
        push_if(&mut border, node, is_border)?;
    }
    Ok(border)
}
