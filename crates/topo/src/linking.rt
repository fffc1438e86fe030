ghost use Rattle.std.specs.Prelude.{◌≡◌, ◌++◌, Some, None, IfOk, OnOk, IfErr};
ghost use Rattle.std.specs.Ordering.{nat_cmp};
ghost use Rattle.std.specs.BTreeMap.{get};
ghost use Rattle.mn_base.specs.Ranges.{AreInRange};
ghost use Rattle.mn_base.specs.Refused.{IfFault};
ghost use Rattle.topo.specs.Faults.{first_fault, edge_fault, link_count_fault};
ghost use Rattle.topo.specs.Links.{link, links_of, links_of_edge};

use crate::faults::{Many, TopoFault};
use crate::parts::{EdgeSpec, Link};
use mn_base::limits::LINKS_MAX;
use mn_base::{NoMemory, Refusal};
use std::alloc::Global;
use std::collections::BTreeMap;

/// The links of edges without a fault, or that they are too many.
pub(crate) fn links_of(
    alloc: Global,
    numbers: &BTreeMap<u64, u32>,
    edges: &[EdgeSpec],
    directed: bool,
) -> Result<Vec<Link>, Refusal<TopoFault>>
    requires { first_fault (edge_fault (get nat_cmp numbers.now)) 0 edges.now ≡ None }
    ensures links { IfOk result
        (λ v. v.items ≡ links_of directed (get nat_cmp numbers.now) edges.now) }
    ensures few { OnOk result
        (link_count_fault directed (get nat_cmp numbers.now) edges.now ≡ None) }
    ensures fault { IfErr result (λ e. IfFault e
        (λ f. link_count_fault directed (get nat_cmp numbers.now) edges.now ≡ Some f)) }
{
    let mut links = Vec::new(alloc);
    for edge in edges {
        push_links(&mut links, numbers, edge, directed)?;
        if links.len() > LINKS_MAX {
            return Err(Refusal::Fault(TopoFault::TooMany(Many::Links)));
        }
    }
    Ok(links)
}

/// Adds the links of one edge.
fn push_links(
    links: &mut Vec<Link>,
    numbers: &BTreeMap<u64, u32>,
    edge: &EdgeSpec,
    directed: bool,
) -> Result<(), NoMemory>
    requires { AreInRange edge.now.bps edge.now.latency_us edge.now.queue edge.now.ppm }
    ensures { OnOk result (links.new.items
        ≡ links.old.items ++ links_of_edge directed (get nat_cmp numbers.now) edge.now) }
{
    if edge.source == edge.target {
        return Ok(());
    }
    let Some(from) = numbers.get(&edge.source).copied() else {
        return Ok(());
    };
    let Some(to) = numbers.get(&edge.target).copied() else {
        return Ok(());
    };
    links.push(link(edge, from, to))?;
    if !directed {
        links.push(link(edge, to, from))?;
    }
    Ok(())
}

fn link(edge: &EdgeSpec, from: u32, to: u32) -> Link
    requires { AreInRange edge.now.bps edge.now.latency_us edge.now.queue edge.now.ppm }
    ensures { result ≡ link edge.now from to }
{
    Link {
        from,
        to,
        bps: edge.bps,
        latency_us: edge.latency_us as u32,
        queue: edge.queue as u32,
        ppm: edge.ppm as u32,
    }
}
