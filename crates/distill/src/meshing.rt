ghost use Rattle.std.specs.Prelude.{◌≡◌, ◌<◌, ◌≤◌, ◌↔◌, ◌++◌, ◌*◌, length, All, IsTrue, IfOk, OnOk, if◌then◌else◌};
ghost use Rattle.std.specs.Option.{option_to_list};
ghost use Rattle.mn_base.specs.declared.limits.TheConstants.{NODES_MAX};
ghost use Rattle.mn_base.specs.Ranges.{AreInRange, IsTickLength};
ghost use Rattle.distill.specs.Mesh.{arcs_of, IsMesh};
ghost use Rattle.distill.specs.PipeCount.{AreDistinct, HasPairCount};
ghost use Rattle.distill.specs.Rows.{IsSource, HasSourceCount, IsRow, IsPipeFrom};

use crate::combining::pipe_along;
use crate::links::links_at;
use crate::pipes::DistilledPipe;
use mn_base::NoMemory;
use routes::{Incoming, Routes};
use std::alloc::Global;
use topo::Link;

/// How many ordered pairs of different border nodes a walk joins.
pub(crate) fn count_pairs(
    alloc: Global,
    incoming: &Incoming,
    border: &[u32],
) -> Result<u64, NoMemory>
    requires below { All (λ v. v < incoming.now.nodes) border.now }
    requires distinct { AreDistinct border.now }
    requires few { length border.now ≤ NODES_MAX }
    ensures counted { IfOk result (HasPairCount incoming.now.arcs border.now) }
    ensures few { IfOk result (λ count. count ≤ length border.now * NODES_MAX) }
{
    let mut count = 0;
    for target in border {
        let routes = Routes::by_incoming(alloc, incoming, *target)?;
        count += count_sources(&routes, border, *target);
    }
    Ok(count)
}

/// How many of the sources are joined to the routes' destination and differ from it.
fn count_sources(routes: &Routes, sources: &[u32], target: u32) -> u64
    requires target { routes.now.destination ≡ target }
    requires below { All (λ v. v < routes.now.graph.nodes) sources.now }
    requires distinct { AreDistinct sources.now }
    requires few { length sources.now ≤ NODES_MAX }
    ensures counted { HasSourceCount routes.now.graph.arcs sources.now target result }
    ensures few { result ≤ length sources.now }
{
    let mut count = 0;
    for source in sources {
        count += one_if(is_source(routes, *source, target));
    }
    count
}

fn one_if(is_counted: bool) -> u64
    ensures { result ≡ (if is_counted then 1 else 0) }
{
    u64::from(is_counted)
}

/// Whether a source is joined to the routes' destination and differs from it.
fn is_source(routes: &Routes, source: u32, target: u32) -> bool
    requires target { routes.now.destination ≡ target }
    requires source { source < routes.now.graph.nodes }
    ensures { IsTrue result ↔ IsSource routes.now.graph.arcs target source }
{
    source != target && routes.reaches(source)
}

/// The pipes for all ordered pairs of different border nodes that a walk of the middle joins.
pub(crate) fn mesh_of(
    alloc: Global,
    incoming: &Incoming,
    middle: &[Link],
    border: &[u32],
    tick_ns: u64,
) -> Result<Vec<DistilledPipe>, NoMemory>
    requires arcs { incoming.now.arcs ≡ arcs_of middle.now }
    requires nodes { incoming.now.nodes ≤ NODES_MAX }
    requires values { All (λ l. AreInRange l.bps l.latency_us l.queue l.ppm) middle.now }
    requires below { All (λ v. v < incoming.now.nodes) border.now }
    requires distinct { AreDistinct border.now }
    requires tick { IsTickLength tick_ns }
    ensures { IfOk result (λ mesh. IsMesh tick_ns middle.now border.now mesh.items) }
{
    let mut mesh = Vec::new(alloc);
    for target in border {
        let routes = Routes::by_incoming(alloc, incoming, *target)?;
        let row = row_of(alloc, &routes, middle, border, *target, tick_ns)?;
        mesh.extend_from_slice(&row)?;
    }
    mesh.sort_by_key(|pipe| (pipe.from, pipe.to))?;
    Ok(mesh)
}

/// The pipes from the sources to the routes' destination.
fn row_of(
    alloc: Global,
    routes: &Routes,
    middle: &[Link],
    sources: &[u32],
    target: u32,
    tick_ns: u64,
) -> Result<Vec<DistilledPipe>, NoMemory>
    requires target { routes.now.destination ≡ target }
    requires arcs { routes.now.graph.arcs ≡ arcs_of middle.now }
    requires nodes { routes.now.graph.nodes ≤ NODES_MAX }
    requires values { All (λ l. AreInRange l.bps l.latency_us l.queue l.ppm) middle.now }
    requires below { All (λ v. v < routes.now.graph.nodes) sources.now }
    requires distinct { AreDistinct sources.now }
    requires tick { IsTickLength tick_ns }
    ensures { IfOk result (λ row. IsRow tick_ns middle.now sources.now target row.items) }
{
    let mut row = Vec::new(alloc);
    for source in sources {
        let pipe = pipe_from(alloc, routes, middle, *source, target, tick_ns)?;
        push_some(&mut row, pipe)?;
    }
    Ok(row)
}

/// The pipe from a source to the routes' destination, or none where they aren't joined or are the same.
fn pipe_from(
    alloc: Global,
    routes: &Routes,
    middle: &[Link],
    source: u32,
    target: u32,
    tick_ns: u64,
) -> Result<Option<DistilledPipe>, NoMemory>
    requires target { routes.now.destination ≡ target }
    requires arcs { routes.now.graph.arcs ≡ arcs_of middle.now }
    requires nodes { routes.now.graph.nodes ≤ NODES_MAX }
    requires values { All (λ l. AreInRange l.bps l.latency_us l.queue l.ppm) middle.now }
    requires source { source < routes.now.graph.nodes }
    requires tick { IsTickLength tick_ns }
    ensures { IfOk result (IsPipeFrom tick_ns middle.now source target) }
{
    if source == target {
        return Ok(None);
    }
    let Some(walk) = routes.walk(alloc, source)? else {
        return Ok(None);
    };
    let links = links_at(alloc, middle, &walk)?;
    Ok(Some(pipe_along(&links, source, target, tick_ns)))
}

/// Adds a pipe at the end of a list if there is one.
fn push_some(row: &mut Vec<DistilledPipe>, pipe: Option<DistilledPipe>) -> Result<(), NoMemory>
    ensures { OnOk result (row.new.items ≡ row.old.items ++ option_to_list pipe) }
{
    if let Some(pipe) = pipe {
        row.push(pipe)?;
    }
    Ok(())
}
