ghost use Rattle.std.specs.Prelude.{◌≡◌, ◌<◌, ◌≤◌, ◌∷◌, ◌++◌, ℕ, List, length, IfOk, [], map, All, slice_get, Some};
ghost use Rattle.std.specs.List.{range_with_len};
ghost use Rattle.mn_base.specs.declared.limits.TheConstants.{ROUTE_PIPES_MAX};
ghost use Rattle.pipe.specs.declared.step.Step.{Step};
ghost use Rattle.journal.specs.declared.setup.PacketPlan.{PacketPlan};
ghost use Rattle.journal.specs.SetupView.{route_of};
ghost use Rattle.journal.specs.Journal.{journal_of};
ghost use Rattle.journal.specs.Fates.{fate_of};
ghost use Rattle.parcel.specs.Counts.{counts_of};
ghost use Rattle.parcel.specs.Counts.{counted};
ghost use Rattle.settle.specs.Counted.{HasRoom};
ghost use Rattle.settle.specs.Ways.{step_of_cause, drop_step, way_of, counts_by, IsTally};

use journal::steps::route;
use journal::{Fate, Setup};
use mn_base::{Cause, NoMemory};
use parcel::PipeCounts;
use pipe::Step;
use std::alloc::{AllocError, Global};

/// What became of the visits to each pipe, in pipe order, by the fates of the packets: a packet passed each pipe of its route
/// before the one that dropped it.
pub fn count_visits(
    alloc: Global,
    setup: &Setup,
    fates: &[Fate],
) -> Result<Vec<PipeCounts>, NoMemory>
    requires fates { fates.now ≡ map (fate_of setup.now) setup.now.packets }
    ensures { IfOk result (λ all.
        all.items ≡ map (counts_of (journal_of setup.now)) (range_with_len 0 (length setup.now.pipes))) }
{
    let mut all = idle_counts(alloc, setup.parts().pipes.len() as u32)?;
    for (index, fate) in fates.iter().enumerate() {
        count_way(&mut all, route_at(setup, index), *fate);
    }
    Ok(all)
}

/// The route of the packet at this index.
fn route_at(setup: &Setup, index: usize) -> &[u32]
    requires { index < length setup.now.packets }
    ensures route { (p : PacketPlan) → slice_get setup.now.packets index ≡ Some p → result.now ≡ route_of setup.now p.number }
    ensures named { All (λ pipe. pipe < length setup.now.pipes) result.now }
    ensures short { length result.now ≤ ROUTE_PIPES_MAX }
{
    route(setup, setup.parts().packets[index])
}

/// Counts the visits of one packet.
fn count_way(all: &mut Vec<PipeCounts>, route: &[u32], fate: Fate)
    requires named { All (λ pipe. pipe < length all.old.items) route.now }
    requires tally { IsTally all.old.items (length route.now) }
    ensures { (ways : List (ℕ × Step)) (pipes : ℕ) → all.old.items ≡ map (counts_by ways) (range_with_len 0 pipes)
        → all.new.items ≡ map (counts_by (ways ++ way_of route.now fate)) (range_with_len 0 pipes) }
{
    for pipe in route {
        let index = *pipe as usize;
        if let Some(step) = dropped_at(fate, *pipe) {
            all[index] = with_visit(all[index], step);
            return;
        }
        all[index] = with_visit(all[index], Step::Pass { exit: 0 });
    }
}

/// The step that drops a packet of this fate at this pipe, if it is dropped there.
fn dropped_at(fate: Fate, pipe: u32) -> Option<Step>
    ensures { result ≡ drop_step fate pipe }
{
    match fate {
        Fate::Dropped {
            pipe: at,
            cause,
            ..
        } if at == pipe => Some(drop_by(cause)),
        _ => None,
    }
}

/// The step that drops a packet for this cause.
fn drop_by(cause: Cause) -> Step
    ensures { result ≡ step_of_cause cause }
{
    match cause {
        Cause::Loss => Step::Lost,
        Cause::Full => Step::Full,
    }
}

/// The counts with one more visit of this step.
fn with_visit(counts: PipeCounts, step: Step) -> PipeCounts
    requires { HasRoom counts }
    ensures { result ≡ counted counts step }
{
    let mut counts = counts;
    match step {
        Step::Lost => counts.lost += 1,
        Step::Full => counts.full += 1,
        Step::Pass { .. } => counts.passed += 1,
    }
    counts
}

/// The counts of so many pipes without a visit, in pipe order.
fn idle_counts(alloc: Global, pipes: u32) -> Result<Vec<PipeCounts>, AllocError>
    ensures { IfOk result (λ all. all.items ≡ map (counts_by []) (range_with_len 0 pipes)) }
{
    (0..pipes)
        .map(|pipe| PipeCounts {
            pipe,
            passed: 0,
            lost: 0,
            full: 0,
        })
        .collect(alloc)
}
