ghost use Rattle.std.specs.Prelude.{◌≡◌, ◌≤◌, ℕ, length, map, All, IfOk};
ghost use Rattle.std.specs.List.{AllZip, range_with_len};
ghost use Rattle.mn_base.specs.Ranges.{IsTickLength};
ghost use Rattle.pcap_io.specs.Capture.{IsRecordTime, IsTrace};
ghost use Rattle.mn_words.specs.Order.{IsPipeSpec, IsChainOrder};
ghost use Rattle.modelnet.specs.Chain.{IsPipeOf, IsChainSetup, plans_of};

use journal::{PacketPlan, Setup, SetupParts};
use mn_base::limits::{CHAIN_PIPES_MAX, PACKETS_MAX};
use mn_base::{NoMemory, PipeParams, entry_tick, keep_of_ppm};
use mn_words::{ChainOrder, PipeSpec};
use pcap_io::{Packet, Trace};
use std::alloc::Global;

/// The setup of a chain: one route of all its pipes, one core, and each packet of the trace bound to that route. No pipe
/// changes.
pub fn chain_setup(alloc: Global, order: &ChainOrder, trace: &Trace) -> Result<Setup, NoMemory>
    requires order { IsChainOrder order.now }
    requires trace { IsTrace trace.now }
    requires times { All (λ p. IsRecordTime p.time_ns) trace.now.packets }
    ensures { IfOk result (IsChainSetup order.now trace.now) }
{
    let parts = chain_parts(alloc, order, trace)?;
    Ok(Setup::new(parts))
}

fn chain_parts(alloc: Global, order: &ChainOrder, trace: &Trace) -> Result<SetupParts, NoMemory>
    requires order { IsChainOrder order.now }
    ensures { IfOk result (IsChainSetup order.now trace.now) }
{
    let packets = trace.packets();
    let base_ns = trace.time_base();
    let route = chain_route(alloc, order.pipes.len())?;
    let mut routes = Vec::new(alloc);
    routes.push(route)?;
    Ok(SetupParts {
        tick_ns: order.tick_ns,
        seed: order.seed,
        base_ns,
        link_type: trace.link_type(),
        cores: 1,
        pipes: chain_pipes(alloc, order.pipes.as_slice(), order.tick_ns)?,
        owners: vec![in alloc; 0u32; order.pipes.len()]?,
        routes,
        packets: packet_plans(alloc, packets, base_ns, order.tick_ns)?,
        changes: Vec::new(alloc),
        loss: order.loss,
    })
}

fn chain_pipes(alloc: Global, pipes: &[PipeSpec], tick_ns: u64) -> Result<Vec<PipeParams>, NoMemory>
    requires tick { IsTickLength tick_ns }
    requires pipes { All IsPipeSpec pipes.now }
    ensures { IfOk result (λ params. AllZip (IsPipeOf tick_ns) pipes.now params.items) }
{
    let mut params = Vec::new(alloc);
    for pipe in pipes {
        let keep = keep_of_ppm(pipe.ppm);
        params.push(PipeParams::new(
            pipe.bps,
            u64::from(pipe.latency_us),
            pipe.queue,
            keep,
            tick_ns,
        ))?;
    }
    Ok(params)
}

/// The route through all of so many pipes, in order.
fn chain_route(alloc: Global, pipes: usize) -> Result<Vec<u32>, NoMemory>
    requires { pipes ≤ CHAIN_PIPES_MAX }
    ensures { IfOk result (λ route. route.items ≡ range_with_len 0 pipes) }
{
    let mut route = Vec::new(alloc);
    for pipe in 0..pipes as u32 {
        route.push(pipe)?;
    }
    Ok(route)
}

/// Each packet as it enters.
fn packet_plans(
    alloc: Global,
    packets: &[Packet],
    base_ns: u64,
    tick_ns: u64,
) -> Result<Vec<PacketPlan>, NoMemory>
    requires tick { 1 ≤ tick_ns }
    requires few { length packets.now ≤ PACKETS_MAX }
    requires base { All (λ p. base_ns ≤ p.time_ns) packets.now }
    ensures { IfOk result (λ plans. plans.items ≡ plans_of base_ns tick_ns packets.now) }
{
    let mut plans = Vec::with_capacity(alloc, packets.len())?;
    for (number, packet) in packets.iter().enumerate() {
        plans.push(PacketPlan {
            number: number as u32,
            entry_tick: entry_tick(base_ns, tick_ns, packet.time_ns),
            len: packet.original,
            route: 0,
            core: 0,
        })?;
    }
    Ok(plans)
}
