ghost use Rattle.std.specs.Prelude.{◌≡◌, ◌<◌, length, IfOk};
ghost use Rattle.frontier.specs.NodeSets.{has};
ghost use Rattle.walk_out.specs.Parts.{is_outer_link, parts_around};
ghost use Rattle.walk_out.specs.WalkOut.{hop_parts};

use frontier::{NodeSet, push_if};
use mn_base::NoMemory;
use std::alloc::Global;
use std::marker::Model;
use topo::{Link, Topology};

/// What a mode keeps of a topology, each list in number order.
#[derive(Debug, Drop)]
pub struct Parts {
    /// The numbers of the links that stay.
    pub kept: Vec<u32>,
    /// The nodes between which pipes stand for walks of the middle.
    pub border: Vec<u32>,
    /// The numbers of all other links.
    pub middle: Vec<u32>,
}

impl Model for Parts {
    ghost use Rattle.walk_out.specs.Parts.{PartsView};

    ghost Value = { PartsView };

    ghost view = { λ p. record { kept = p.kept.items; border = p.border.items; middle = p.middle.items } };
}

/// The parts of a topology of which every link stays.
#[tactic(auto, using(frontier::proofs::Numbers::range_more))]
pub fn hop(alloc: Global, topology: &Topology) -> Result<Parts, NoMemory>
    ensures { IfOk result (λ parts. parts ≡ hop_parts topology.now) }
{
    let mut kept = Vec::new(alloc);
    for number in 0..topology.links().len() as u32 {
        kept.push(number)?;
    }
    Ok(Parts {
        kept,
        border: Vec::new(alloc),
        middle: Vec::new(alloc),
    })
}

/// The parts of a topology with these outer nodes: links with an end among them stay.
#[tactic(auto, using(frontier::proofs::Numbers::filter_range_more))]
pub(crate) fn parts_around(
    alloc: Global,
    topology: &Topology,
    outer: &NodeSet,
    border: Vec<u32>,
) -> Result<Parts, NoMemory>
    requires { length outer.now ≡ length topology.now.nodes }
    ensures { IfOk result (λ parts. parts ≡ parts_around topology.now.links (has outer.now) border.items) }
{
    let links = topology.links();
    let mut kept = Vec::new(alloc);
    let mut middle = Vec::new(alloc);
    for number in 0..links.len() as u32 {
        let stays = is_outer_link(outer, &links[number as usize]);
        push_if(&mut kept, number, stays)?;
        push_if(&mut middle, number, !stays)?;
    }
    Ok(Parts {
        kept,
        border,
        middle,
    })
}

/// Whether an end of the link is in the set.
fn is_outer_link(outer: &NodeSet, link: &Link) -> bool
    requires from { link.now.from < length outer.now }
    requires to { link.now.to < length outer.now }
    ensures { result ≡ is_outer_link (has outer.now) link.now }
{
    outer.contains(link.from) || outer.contains(link.to)
}
