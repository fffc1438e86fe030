ghost use Rattle.std.specs.Prelude.{◌≡◌, ◌⊎◌, ◌≤◌, ℕ, List, length, map, All, IfOk, OnOk, OnErr};
ghost use Rattle.std.specs.List.{range_with_len};
ghost use Rattle.mn_base.specs.declared.limits.TheConstants.{PACKET_BYTES_MAX};
ghost use Rattle.journal.specs.Journal.{journal_of};
ghost use Rattle.mn_words.specs.Order.{IsRunOrder};
ghost use Rattle.parcel.specs.Results.{counts_at, AreResults};
ghost use Rattle.pcap_io.specs.Writing.{pcap_text};
ghost use Rattle.settle.specs.IsOutcome.{IsOutcome};
ghost use Rattle.modelnet.specs.Running.{IsRunnable, IsRunOf, cluster_reports, CountsRun, HaveShortBytes, HasShortBytes};
ghost use Rattle.modelnet.specs.Writing.{shown};

use crate::run_outputs::Texts;
use core_loop::{Tally, stock};
use journal::Setup;
use journal::laws::outputs_fit;
use mn_base::{Bytes, NoMemory, Unbound};
use mn_words::RunOrder;
use parcel::CoreResult;
use plan::Planned;
use report::{out_trace, print_cluster, print_report};
use settle::{Outcome, merge};
use std::alloc::Global;
use world::{World, order_list};

/// Emulates a plan, all cores on one thread: by the order's drawn turns, and then by round robin.
pub fn rehearsed(
    alloc: Global,
    order: &RunOrder,
    planned: Planned,
    tally: &mut Tally,
) -> Result<Texts, NoMemory>
    requires order { IsRunOrder order.now }
    requires planned { IsRunnable planned }
    ensures run { IfOk result (λ texts. IsRunOf planned (pcap_text texts.out) texts.report) }
    ensures cluster { IfOk result (λ texts. shown texts.screen ≡ cluster_reports order.now.cluster_report planned.setup) }
    ensures tally { OnOk result (CountsRun planned.setup tally.old tally.new) }
    ensures may_count { OnErr result ((tally.new ≡ tally.old) ⊎ CountsRun planned.setup tally.old tally.new) }
{
    let Planned {
        setup,
        bytes,
        unbounds,
    } = planned;
    let results = run_world(alloc, order.order, order.turns, &setup, bytes, tally)?;
    run_texts(alloc, order.cluster_report, &setup, &unbounds, results)
}

/// The results of all cores of a setup whose packets have these bytes, in core order: so many turns are drawn from the stream of draws
/// that starts at `order`, and then they are turned by round robin.
pub fn run_world(
    alloc: Global,
    order: u64,
    turns: u32,
    setup: &Setup,
    bytes: Vec<Bytes>,
    tally: &mut Tally,
) -> Result<Vec<CoreResult>, NoMemory>
    requires each_has_bytes { length bytes.items ≡ length setup.now.packets }
    ensures results { IfOk result (λ results. AreResults setup.now bytes.items results.items) }
    ensures tally { OnOk result (CountsRun setup.now tally.old tally.new) }
    ensures untouched { OnErr result (tally.new ≡ tally.old) }
{
    let cores = setup.parts().cores;
    let stores = stock(alloc, setup, bytes)?;
    let mut world = World::start(alloc, setup, stores)?;
    let turns = order_list(alloc, order, turns, cores)?;
    world.run_order(alloc, &turns)?;
    world.run_round_robin(alloc)?;
    world.finish(alloc, tally)
}

/// What is written of a run with these results.
pub fn run_texts(
    alloc: Global,
    cluster_report: bool,
    setup: &Setup,
    unbounds: &[(u32, Unbound)],
    results: Vec<CoreResult>,
) -> Result<Texts, NoMemory>
    requires { HaveShortBytes setup.now results.items }
    ensures run { IfOk result (λ texts. (bytes : List (List ℕ)) → AreResults setup.now bytes results.items
        → IsRunOf (record { setup = setup.now; bytes = bytes; unbounds = unbounds.now }) (pcap_text texts.out) texts.report) }
    ensures cluster { IfOk result (λ texts. shown texts.screen ≡ cluster_reports cluster_report setup.now) }
{
    let outcome = merge(alloc, setup, results)?;
    let screen = cluster_report_of(alloc, cluster_report, setup, &outcome)?;
    let texts = outcome_texts(alloc, setup, unbounds, outcome, screen)?;
    Ok(texts)
}

/// What is written of an outcome, and shown on the screen.
pub fn outcome_texts(
    alloc: Global,
    setup: &Setup,
    unbounds: &[(u32, Unbound)],
    outcome: Outcome,
    screen: Option<Bytes>,
) -> Result<Texts, NoMemory>
    requires { HasShortBytes setup.now outcome }
    ensures run { IfOk result (λ texts. (bytes : List (List ℕ)) → IsOutcome setup.now (journal_of setup.now) bytes outcome
        → IsRunOf (record { setup = setup.now; bytes = bytes; unbounds = unbounds.now }) (pcap_text texts.out) texts.report) }
    ensures screen { IfOk result (λ texts. texts.screen ≡ screen) }
{
    // A read of the setup, so that the proof knows what its type keeps.
    let _parts = setup.parts();
    outputs_fit(setup);
    let report = print_report(alloc, &outcome, unbounds)?;
    let Outcome { leaving, .. } = outcome;
    let out = out_trace(alloc, setup, leaving)?;
    Ok(Texts {
        out,
        report,
        screen,
    })
}

/// The cluster report, where it is asked for.
fn cluster_report_of(
    alloc: Global,
    asked: bool,
    setup: &Setup,
    outcome: &Outcome,
) -> Result<Option<Bytes>, NoMemory>
    requires { outcome.now.cores ≡ map (counts_at setup.now) (range_with_len 0 setup.now.cores) }
    ensures { IfOk result (λ text. shown text ≡ cluster_reports asked setup.now) }
{
    if !asked {
        return Ok(None);
    }
    Ok(Some(print_cluster(alloc, setup, outcome)?))
}
