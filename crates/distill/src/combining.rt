ghost use Rattle.std.specs.Prelude.{◌≡◌, ◌<◌, ◌≤◌, length, All};
ghost use Rattle.mn_base.specs.declared.limits.TheConstants.{KEEP_MAX, NODES_MAX};
ghost use Rattle.mn_base.specs.Ranges.{AreInRange, IsTickLength};
ghost use Rattle.distill.specs.Combination.{keep_along, narrower, StandsFor};

use crate::pipes::DistilledPipe;
use mn_base::limits::KEEP_MAX;
use mn_base::{PipeParams, keep_both, keep_of_ppm};
use topo::Link;

/// The pipe that stands for the links of a walk, first to last.
pub(crate) fn pipe_along(links: &[Link], from: u32, to: u32, tick_ns: u64) -> DistilledPipe
    requires some { 0 < length links.now }
    requires few { length links.now < NODES_MAX }
    requires values { All (λ l. AreInRange l.bps l.latency_us l.queue l.ppm) links.now }
    requires tick { IsTickLength tick_ns }
    ensures { StandsFor tick_ns from to links.now result }
{
    let mut narrow = links[0];
    let mut us = 0u64;
    for link in links {
        narrow = narrower(narrow, *link);
        us += u64::from(link.latency_us);
    }
    let keep = keep_along(links);
    DistilledPipe {
        from,
        to,
        params: PipeParams::new(narrow.bps, us, narrow.queue, keep, tick_ns),
        links: links.len() as u32,
    }
}

/// The keeps of links, combined from the first to the last.
fn keep_along(links: &[Link]) -> u64
    requires { All (λ l. AreInRange l.bps l.latency_us l.queue l.ppm) links.now }
    ensures value { result ≡ keep_along links.now }
    ensures most { result ≤ KEEP_MAX }
{
    let mut keep = KEEP_MAX;
    for index in 0..links.len() {
        keep = keep_both(keep, keep_of_ppm(links[index].ppm));
    }
    keep
}

/// Of two links the one of less bandwidth, or the first where they have the same.
fn narrower(first: Link, second: Link) -> Link
    ensures { result ≡ narrower first second }
{
    if second.bps < first.bps {
        second
    } else {
        first
    }
}
