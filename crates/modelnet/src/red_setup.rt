ghost use Rattle.std.specs.Prelude.{◌≡◌, map, All, IfOk};
ghost use Rattle.std.specs.List.{AllZip};
ghost use Rattle.mn_base.specs.Ranges.{IsTickLength};
ghost use Rattle.pcap_io.specs.Capture.{IsRecordTime, IsTrace};
ghost use Rattle.mn_words.specs.Order.{IsPipeSpec, IsRedSpec, IsRedOrder};
ghost use Rattle.modelnet.specs.Chain.{IsPipeOf, IsChainSetup};
ghost use Rattle.modelnet.specs.RedRun.{base_order, IsRedPipeOf, IsRedSetupOf, red_packet_of};

use crate::chain_setup::chain_setup;
use journal::{LossBy, PacketPlan, Setup};
use mn_base::{NoMemory, PipeParams, keep_of_ppm};
use mn_words::{ChainOrder, FileName, PipeSpec, RedOrder, RedSpec};
use pcap_io::Trace;
use red_queue::{RedPacket, RedParams, RedSetup};
use std::alloc::Global;

/// The setup that `chain` would have with the base parameters of the pipes.
pub fn base_setup(alloc: Global, order: &RedOrder, trace: &Trace) -> Result<Setup, NoMemory>
    requires order { IsRedOrder order.now }
    requires trace { IsTrace trace.now }
    requires times { All (λ p. IsRecordTime p.time_ns) trace.now.packets }
    ensures { IfOk result (IsChainSetup (base_order order.now) trace.now) }
{
    let base = base_order(alloc, order)?;
    chain_setup(alloc, &base, trace)
}

/// What `chain` is asked for with these parameters.
fn base_order(alloc: Global, order: &RedOrder) -> Result<ChainOrder, NoMemory>
    ensures { IfOk result (λ base. base ≡ base_order order.now) }
{
    let pipes = base_pipes(alloc, order.pipes.as_slice())?;
    Ok(ChainOrder {
        trace: FileName::copy(alloc, order.trace.as_str())?,
        out: FileName::copy(alloc, order.out.as_str())?,
        report: FileName::copy(alloc, order.report.as_str())?,
        tick_ns: order.tick_ns,
        seed: order.seed,
        pipes,
        loss: LossBy::Packet,
    })
}

/// The base parameters of each pipe.
fn base_pipes(alloc: Global, pipes: &[RedSpec]) -> Result<Vec<PipeSpec>, NoMemory>
    ensures { IfOk result (λ bases. bases.items ≡ map (λ p. p.base) pipes.now) }
{
    let bases = pipes.iter().map(|pipe| pipe.base).collect(alloc)?;
    Ok(bases)
}

/// The pipes in a row, and the packets as they enter in that setup.
pub fn red_setup(alloc: Global, order: &RedOrder, setup: &Setup) -> Result<RedSetup, NoMemory>
    requires { IsRedOrder order.now }
    ensures { IfOk result (IsRedSetupOf order.now setup.now) }
{
    let parts = setup.parts();
    let pipes = red_pipes(alloc, order.pipes.as_slice(), order.tick_ns)?;
    let packets = red_packets(alloc, &parts.packets)?;
    Ok(RedSetup {
        tick_ns: order.tick_ns,
        seed: order.seed,
        pipes,
        packets,
    })
}

fn red_pipes(alloc: Global, pipes: &[RedSpec], tick_ns: u64) -> Result<Vec<RedParams>, NoMemory>
    requires tick { IsTickLength tick_ns }
    requires pipes { All IsRedSpec pipes.now }
    ensures { IfOk result (λ params. AllZip (IsRedPipeOf tick_ns) pipes.now params.items) }
{
    let mut params = Vec::new(alloc);
    for pipe in pipes {
        params.push(red_params(*pipe, tick_ns))?;
    }
    Ok(params)
}

/// The parameters of a pipe, with the latency in ticks of `tick_ns` ns.
fn red_params(pipe: RedSpec, tick_ns: u64) -> RedParams
    requires tick { IsTickLength tick_ns }
    requires pipe { IsRedSpec pipe }
    ensures { IsRedPipeOf tick_ns pipe result }
{
    RedParams {
        base: base_params(pipe.base, tick_ns),
        shift: pipe.shift,
        min: pipe.min,
        max: pipe.max,
        early: pipe.early,
    }
}

fn base_params(pipe: PipeSpec, tick_ns: u64) -> PipeParams
    requires tick { IsTickLength tick_ns }
    requires pipe { IsPipeSpec pipe }
    ensures { IsPipeOf tick_ns pipe result }
{
    let keep = keep_of_ppm(pipe.ppm);
    let latency_us = u64::from(pipe.latency_us);
    PipeParams::new(pipe.bps, latency_us, pipe.queue, keep, tick_ns)
}

/// Each packet as it enters.
fn red_packets(alloc: Global, plans: &[PacketPlan]) -> Result<Vec<RedPacket>, NoMemory>
    ensures { IfOk result (λ packets. packets.items ≡ map red_packet_of plans.now) }
{
    let packets = plans
        .iter()
        .map(|plan| RedPacket {
            entry_tick: plan.entry_tick,
            len: plan.len,
        })
        .collect(alloc)?;
    Ok(packets)
}
