ghost use Rattle.std.specs.Prelude.{◌≡◌, ◌<◌, ◌≤◌, length, All, IfOk};
ghost use Rattle.std.specs.List.{AllZip};
ghost use Rattle.mn_base.specs.declared.limits.TheConstants.{NODES_MAX, ARCS_MAX, LINK_LATENCY_US_MAX};
ghost use Rattle.mn_base.specs.Ranges.{AreInRange, IsTickLength};
ghost use Rattle.topo.specs.Topologies.{IsLink};
ghost use Rattle.distill.specs.Distilled.{IsKept};
ghost use Rattle.distill.specs.Mesh.{arc_of, arcs_of, links_at};

use crate::combining::pipe_along;
use crate::pipes::DistilledPipe;
use mn_base::NoMemory;
use routes::{Arc, Graph};
use std::alloc::Global;
use topo::Link;

/// The links of these numbers.
pub(crate) fn links_at(
    alloc: Global,
    links: &[Link],
    numbers: &[u32],
) -> Result<Vec<Link>, NoMemory>
    requires { All (λ e. e < length links.now) numbers.now }
    ensures { IfOk result (λ v. v.items ≡ links_at links.now numbers.now) }
{
    let mut found = Vec::new(alloc);
    for number in numbers {
        found.push(links[*number as usize])?;
    }
    Ok(found)
}

/// The graph of so many nodes in which each link is an arc that weighs its latency.
pub(crate) fn graph_of(alloc: Global, nodes: u32, links: &[Link]) -> Result<Graph, NoMemory>
    requires nodes { nodes ≤ NODES_MAX }
    requires few { length links.now ≤ ARCS_MAX }
    requires links { All (IsLink nodes) links.now }
    ensures nodes { IfOk result (λ g. g.nodes ≡ nodes) }
    ensures arcs { IfOk result (λ g. g.arcs ≡ arcs_of links.now) }
{
    let mut arcs = Vec::new(alloc);
    for link in links {
        arcs.push(arc_of(link))?;
    }
    Ok(Graph::new(nodes, arcs))
}

fn arc_of(link: &Link) -> Arc
    ensures { result ≡ arc_of link.now }
{
    Arc {
        from: link.from,
        to: link.to,
        weight: u64::from(link.latency_us),
    }
}

/// A pipe for each of these links, in their order.
pub(crate) fn kept_pipes(
    alloc: Global,
    links: &[Link],
    tick_ns: u64,
) -> Result<Vec<DistilledPipe>, NoMemory>
    requires values { All (λ l. AreInRange l.bps l.latency_us l.queue l.ppm) links.now }
    requires tick { IsTickLength tick_ns }
    ensures { IfOk result (λ pipes. AllZip (IsKept tick_ns) links.now pipes.items) }
{
    let mut pipes = Vec::new(alloc);
    for link in links {
        pipes.push(pipe_along(&[*link], link.from, link.to, tick_ns))?;
    }
    Ok(pipes)
}
