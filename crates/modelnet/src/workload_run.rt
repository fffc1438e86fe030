ghost use Rattle.std.specs.Prelude.{◌≡◌, ◌⊎◌, ◌≤◌, length, IfOk, IfErr, OnOk, OnErr, None};
ghost use Rattle.mn_base.specs.declared.limits.TheConstants.{TOPOLOGY_BYTES_MAX, TRACE_BYTES_MAX};
ghost use Rattle.mn_words.specs.Order.{IsWorkloadOrder};
ghost use Rattle.plan.specs.Options.{AreOptions};
ghost use Rattle.modelnet.specs.declared.status.Status.TheVariants as answer;
ghost use Rattle.modelnet.specs.Generating.{generated_by, PlansWorkload, TextsRefused, WorkloadRefused, IsSummaryOf};
ghost use Rattle.modelnet.specs.Running.{IsRunnable, Plans, CountsRun};

use crate::running::run_world;
use crate::status::Status;
use core_loop::Tally;
use distill::Mode;
use gml_reader::read_gml;
use journal::LossBy;
use mn_base::limits::TICK_NS_DEFAULT;
use mn_base::{Bytes, NoMemory};
use mn_words::WorkloadOrder;
use pcapng_in::read_capture;
use plan::{Options, Planned, plan};
use report::{Generated, print_summary};
use settle::merge;
use std::alloc::Global;
use workload::workload;

/// The plan of a generated input.
#[derive(Drop)]
pub struct Prepared {
    /// What was generated.
    pub input: Generated,
    /// How it is run.
    pub planned: Planned,
}

/// Generates a topology and a trace, and plans a run of them.
pub fn prepare(alloc: Global, order: &WorkloadOrder) -> Result<Prepared, Status>
    requires order { IsWorkloadOrder order.now }
    ensures input { IfOk result (λ prepared. prepared.input ≡ generated_by order.now) }
    ensures plan { IfOk result (λ prepared. PlansWorkload order.now prepared.planned) }
    ensures runnable { IfOk result (λ prepared. IsRunnable prepared.planned) }
    ensures refusal { IfErr result (λ status. (status ≡ answer.NoMemory) ⊎ WorkloadRefused order.now status) }
{
    let Ok((gml, pcap)) = workload(alloc, order.number, order.packets) else {
        return Err(Status::NoMemory);
    };
    let (gml, pcap) = (gml.as_slice(), pcap.as_slice());
    let input = Generated {
        number: order.number,
        packets: order.packets,
        gml_len: gml.len(),
        trace_len: pcap.len(),
    };
    let options = Options {
        mode: Mode::Hop,
        cores: order.cores,
        seed: order.number,
        tick_ns: TICK_NS_DEFAULT,
        loss: LossBy::Packet,
    };
    let planned = plan_of_texts(alloc, &options, gml, pcap)?;
    Ok(Prepared { input, planned })
}

/// The plan of a topology and a trace by their texts, without a directory.
fn plan_of_texts(
    alloc: Global,
    options: &Options,
    gml: &[u8],
    pcap: &[u8],
) -> Result<Planned, Status>
    requires options { AreOptions options.now }
    requires gml { length gml.now ≤ TOPOLOGY_BYTES_MAX }
    requires pcap { length pcap.now ≤ TRACE_BYTES_MAX }
    ensures plan { IfOk result (Plans options.now gml.now pcap.now None) }
    ensures runnable { IfOk result IsRunnable }
    ensures refusal { IfErr result (λ status. (status ≡ answer.NoMemory) ⊎ TextsRefused options.now gml.now pcap.now status) }
{
    let topology = read_gml(alloc, gml)?;
    let trace = read_capture(alloc, pcap)?;
    // A read of the trace, so that the proof knows what its type keeps.
    let _kept = trace.link_type();
    Ok(plan(alloc, &topology, trace, options, None)?)
}

/// Emulates a generated input, all cores on one thread, and says what came of it.
pub fn summarised(alloc: Global, prepared: Prepared, tally: &mut Tally) -> Result<Bytes, NoMemory>
    requires runnable { IsRunnable prepared.planned }
    ensures summary { IfOk result (IsSummaryOf prepared.input prepared.planned) }
    ensures tally { OnOk result (CountsRun prepared.planned.setup tally.old tally.new) }
    ensures may_count { OnErr result ((tally.new ≡ tally.old) ⊎ CountsRun prepared.planned.setup tally.old tally.new) }
{
    let Prepared { input, planned } = prepared;
    let Planned {
        setup,
        bytes,
        unbounds,
    } = planned;
    let results = run_world(alloc, 0, 0, &setup, bytes, tally)?;
    let outcome = merge(alloc, &setup, results)?;
    print_summary(alloc, &input, &outcome, &unbounds)
}
