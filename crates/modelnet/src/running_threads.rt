ghost use Rattle.std.specs.Prelude.{◌≡◌, ◌⊎◌, length, map, IfOk, OnOk, OnErr};
ghost use Rattle.parcel.specs.Results.{AreResults};
ghost use Rattle.pcap_io.specs.Writing.{pcap_text};
ghost use Rattle.workers.specs.Ran.{results_of};
ghost use Rattle.modelnet.specs.Running.{IsRunnable, IsRunOf, cluster_reports, CountsRun};
ghost use Rattle.modelnet.specs.Writing.{shown};

use crate::run_outputs::Texts;
use crate::running::run_texts;
use core_loop::{Tally, stock};
use journal::Setup;
use mn_base::{Bytes, NoMemory};
use mn_words::RunOrder;
use parcel::CoreResult;
use plan::Planned;
use std::alloc::{AllocError, Global};
use std::sync::Wait;
use std::thread::Threads;
use workers::{Hook, Ran, run_threads};

/// Emulates a plan, each core on a thread of its own.
pub fn emulated<R: Threads + Wait + Sync + AllocGlobal, K: Hook>(
    rt: &R,
    order: &RunOrder,
    planned: Planned,
    hook: &K,
    tally: &mut Tally,
) -> Result<Texts, NoMemory>
    requires planned { IsRunnable planned }
    ensures run { IfOk result (λ texts. IsRunOf planned (pcap_text texts.out) texts.report) }
    ensures cluster { IfOk result (λ texts. shown texts.screen ≡ cluster_reports order.now.cluster_report planned.setup) }
    ensures tally { OnOk result (CountsRun planned.setup tally.old tally.new) }
    ensures may_count { OnErr result ((tally.new ≡ tally.old) ⊎ CountsRun planned.setup tally.old tally.new) }
{
    let alloc = rt.alloc();
    let Planned {
        setup,
        bytes,
        unbounds,
    } = planned;
    let results = run_cores(rt, &setup, bytes, hook, tally)?;
    run_texts(alloc, order.cluster_report, &setup, &unbounds, results)
}

/// The results of all cores of a setup whose packets have these bytes, in core order, each run on a thread of its own.
fn run_cores<R: Threads + Wait + Sync + AllocGlobal, K: Hook>(
    rt: &R,
    setup: &Setup,
    bytes: Vec<Bytes>,
    hook: &K,
    tally: &mut Tally,
) -> Result<Vec<CoreResult>, NoMemory>
    requires each_has_bytes { length bytes.items ≡ length setup.now.packets }
    ensures results { IfOk result (λ results. AreResults setup.now bytes.items results.items) }
    ensures tally { OnOk result (CountsRun setup.now tally.old tally.new) }
    ensures may_count { OnErr result ((tally.new ≡ tally.old) ⊎ CountsRun setup.now tally.old tally.new) }
{
    let alloc = rt.alloc();
    let stores = stock(alloc, setup, bytes)?;
    let ran = run_threads(rt, alloc, setup, stores, hook, tally)?;
    Ok(only_results(alloc, ran)?)
}

/// The results alone. The ports are given up.
fn only_results(alloc: Global, ran: Vec<Ran>) -> Result<Vec<CoreResult>, AllocError>
    ensures { IfOk result (λ results. results.items ≡ results_of ran.entry.items) }
{
    let mut results = Vec::with_capacity(alloc, ran.len())?;
    for core in ran {
        results.push(core.result)?;
    }
    Ok(results)
}
