ghost use Rattle.std.specs.Prelude.{◌≡◌, ◌<◌, ◌≤◌, IfOk, IfErr, length, All};
ghost use Rattle.mn_base.specs.declared.limits.TheConstants.{PIPES_MAX, FRONTIERS_MAX};
ghost use Rattle.mn_base.specs.Ranges.{IsTickLength};
ghost use Rattle.mn_base.specs.Refused.{IfFault};
ghost use Rattle.distill.specs.Distilled.{ArePipesOfParts, IsDistilled, IsPipeAmong};
ghost use Rattle.distill.specs.Modes.{IsMode, parts_of};
ghost use Rattle.distill.specs.PipeCount.{HasPartsCount, HasPipeCount};
ghost use Rattle.distill.specs.Sound.{AreChosen, AreSound};

use crate::distilled::Distilled;
use crate::links::{graph_of, kept_pipes, links_at};
use crate::meshing::{count_pairs, mesh_of};
use crate::modes::Mode;
use crate::pipes::{DistilledPipe, TooManyPipes};
use frontier::{edge_nodes, frontiers};
use mn_base::limits::{FRONTIERS_MAX, PIPES_MAX};
use mn_base::{NoMemory, Refusal};
use routes::Incoming;
use std::alloc::Global;
use topo::{Link, Topology};
use walk_out::{Parts, hop, walk_in, walk_out};

/// The distilled topology of a topology in a mode, with ticks of `tick_ns` ns.
///
/// Kept links come first, in the order of links: each is a pipe with its link's values. Mesh pipes follow, by from and then by to:
/// there is one for each ordered pair of different border nodes that a walk of the middle joins, and it stands for the least walk
/// (by latency, then by number of links, then by link numbers). It has the least bandwidth along the walk and the queue limit of the
/// first link that has it, the sum of the latencies, rounded up to ticks after the sum, and the keeps combined.
///
/// `TooManyPipes` comes if and only if there are more than `PIPES_MAX` of them; pairs are counted before memory for pipes is taken.
pub fn distill(
    alloc: Global,
    topology: &Topology,
    mode: Mode,
    tick_ns: u64,
) -> Result<Distilled, Refusal<TooManyPipes>>
    requires mode { IsMode mode }
    requires tick { IsTickLength tick_ns }
    ensures distilled { IfOk result (IsDistilled topology.now mode tick_ns) }
    ensures few { IfOk result (λ d. HasPipeCount topology.now mode (length d.pipes)) }
    ensures too_many { IfErr result (λ e. IfFault e
        (λ f. HasPipeCount topology.now mode f.count × (PIPES_MAX < f.count))) }
{
    let nodes = topology.nodes().len() as u32;
    let parts = parts_of(alloc, topology, mode)?;
    let pipes = pipes_of(alloc, topology, &parts, tick_ns)?;
    let edge_nodes = edge_nodes(alloc, topology)?;
    Ok(Distilled {
        nodes,
        edge_nodes,
        pipes,
    })
}

/// The pipes of parts, or how many there would be where they are too many.
fn pipes_of(
    alloc: Global,
    topology: &Topology,
    parts: &Parts,
    tick_ns: u64,
) -> Result<Vec<DistilledPipe>, Refusal<TooManyPipes>>
    requires parts { AreSound topology.now parts.now }
    requires tick { IsTickLength tick_ns }
    ensures pipes { IfOk result (λ pipes. ArePipesOfParts tick_ns topology.now.links parts.now pipes.items) }
    ensures count { IfOk result (λ pipes. HasPartsCount topology.now.links parts.now (length pipes.items)) }
    ensures few { IfOk result (λ pipes. length pipes.items ≤ PIPES_MAX) }
    ensures below { IfOk result (λ pipes. All (IsPipeAmong (length topology.now.nodes)) pipes.items) }
    ensures too_many { IfErr result (λ e. IfFault e
        (λ f. HasPartsCount topology.now.links parts.now f.count × (PIPES_MAX < f.count))) }
{
    let kept = chosen_links(alloc, topology, &parts.kept)?;
    let middle = chosen_links(alloc, topology, &parts.middle)?;
    pipes_over(alloc, topology, parts, &kept, &middle, tick_ns)
}

/// The topology's links of these numbers.
fn chosen_links(alloc: Global, topology: &Topology, numbers: &[u32]) -> Result<Vec<Link>, NoMemory>
    requires numbers { All (λ e. e < length topology.now.links) numbers.now }
    requires few { length numbers.now ≤ length topology.now.links }
    ensures { IfOk result (λ v. AreChosen topology.now numbers.now v.items) }
{
    links_at(alloc, topology.links(), numbers)
}

/// The pipes of parts whose links are at hand. Pairs are counted before memory for pipes is taken.
fn pipes_over(
    alloc: Global,
    topology: &Topology,
    parts: &Parts,
    kept: &[Link],
    middle: &[Link],
    tick_ns: u64,
) -> Result<Vec<DistilledPipe>, Refusal<TooManyPipes>>
    requires parts { AreSound topology.now parts.now }
    requires kept { AreChosen topology.now parts.now.kept kept.now }
    requires middle { AreChosen topology.now parts.now.middle middle.now }
    requires tick { IsTickLength tick_ns }
    ensures pipes { IfOk result (λ pipes. ArePipesOfParts tick_ns topology.now.links parts.now pipes.items) }
    ensures count { IfOk result (λ pipes. HasPartsCount topology.now.links parts.now (length pipes.items)) }
    ensures few { IfOk result (λ pipes. length pipes.items ≤ PIPES_MAX) }
    ensures below { IfOk result (λ pipes. All (IsPipeAmong (length topology.now.nodes)) pipes.items) }
    ensures too_many { IfErr result (λ e. IfFault e
        (λ f. HasPartsCount topology.now.links parts.now f.count × (PIPES_MAX < f.count))) }
{
    let graph = graph_of(alloc, topology.nodes().len() as u32, middle)?;
    let incoming = Incoming::new(alloc, &graph)?;
    let count = kept.len() as u64 + count_pairs(alloc, &incoming, &parts.border)?;
    if count > PIPES_MAX as u64 {
        return Err(Refusal::Fault(TooManyPipes { count }));
    }
    let mut pipes = kept_pipes(alloc, kept, tick_ns)?;
    let mesh = mesh_of(alloc, &incoming, middle, &parts.border, tick_ns)?;
    pipes.extend_from_slice(&mesh)?;
    Ok(pipes)
}

/// What the mode keeps.
fn parts_of(alloc: Global, topology: &Topology, mode: Mode) -> Result<Parts, NoMemory>
    requires { IsMode mode }
    ensures { IfOk result (λ parts. parts ≡ parts_of topology.now mode) }
{
    match mode {
        Mode::Hop => hop(alloc, topology),
        Mode::Walk(w) => walk_in(alloc, topology, &frontiers(alloc, topology, w)?, w),
        Mode::End => walk_in(alloc, topology, &frontiers(alloc, topology, 0)?, 0),
        Mode::WalkOut(w, o) => {
            let frontiers = frontiers(alloc, topology, FRONTIERS_MAX)?;
            walk_out(alloc, topology, &frontiers, w, o)
        }
    }
}
