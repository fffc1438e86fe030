ghost use Rattle.std.specs.Prelude.{◌≡◌, ℕ, List, length, map, filter_map, IfOk};
ghost use Rattle.std.specs.List.{flat_map, range_with_len};
ghost use Rattle.journal.specs.Journal.{journal_of};
ghost use Rattle.parcel.specs.Counts.{counts_of};
ghost use Rattle.parcel.specs.Results.{counts_at, AreResults};
ghost use Rattle.settle.specs.IsOutcome.{IsOutcome};
ghost use Rattle.settle.specs.Settlements.{leaving_settled, drop_settled, AreAllSettled};

use crate::outcome::{DropLine, Leaving, Outcome};
use journal::{Fate, Setup};
use mn_base::NoMemory;
use parcel::{CoreCounts, CoreResult, PipeCounts, Settled};
use std::alloc::{AllocError, Global};

/// The outcome of a setup, by the results of all its cores, in core order. Each list is sorted once, and the bytes of the
/// packets that left are moved.
pub fn merge(alloc: Global, setup: &Setup, results: Vec<CoreResult>) -> Result<Outcome, NoMemory>
    requires results { (bytes : List (List ℕ)) × AreResults setup.now bytes results.items }
    ensures outcome { IfOk result (λ o. (bytes : List (List ℕ)) → AreResults setup.now bytes results.items
        → IsOutcome setup.now (journal_of setup.now) bytes o) }
    ensures cores { IfOk result (λ o. o.cores ≡ map (λ r. r.counts) results.items) }
    ensures counts { IfOk result (λ o. o.cores ≡ map (counts_at setup.now) (range_with_len 0 setup.now.cores)) }
{
    let cores = all_counts(alloc, &results)?;
    let mut pipe_counts = all_pipe_counts(alloc, setup.parts().pipes.len(), &results)?;
    pipe_counts.sort_by_key(|counts| counts.pipe)?;
    let settled = all_settled(alloc, results)?;
    let outcome = outcome_of(alloc, setup, settled, pipe_counts, cores)?;
    Ok(outcome)
}

/// The outcome of a setup, by its settled packets, in any order, the counts of all its pipes, in pipe order, and what its cores
/// did. Packets are sorted once, and the bytes of those that left are moved.
pub fn outcome_of(
    alloc: Global,
    setup: &Setup,
    settled: Vec<Settled>,
    pipe_counts: Vec<PipeCounts>,
    cores: Vec<CoreCounts>,
) -> Result<Outcome, NoMemory>
    requires settled { (bytes : List (List ℕ)) × AreAllSettled setup.now bytes settled.items }
    requires pipe_counts { pipe_counts.items ≡ map (counts_of (journal_of setup.now)) (range_with_len 0 (length setup.now.pipes)) }
    ensures outcome { IfOk result (λ o. (bytes : List (List ℕ)) → AreAllSettled setup.now bytes settled.items
        → IsOutcome setup.now (journal_of setup.now) bytes o) }
    ensures cores { IfOk result (λ o. o.cores ≡ cores.items) }
{
    let _parts = setup.parts();
    let mut dropped = all_dropped(alloc, &settled)?;
    dropped.sort_by_key(|line| line.packet)?;
    let mut leaving = all_leaving(alloc, settled)?;
    leaving.sort_by_key(|left| (left.tick, left.packet))?;
    Ok(Outcome {
        leaving,
        dropped,
        pipe_counts,
        cores,
    })
}

fn all_counts(alloc: Global, results: &[CoreResult]) -> Result<Vec<CoreCounts>, AllocError>
    ensures { IfOk result (λ v. v.items ≡ map (λ r. r.counts) results.now) }
{
    results.iter().map(|core| core.counts).collect(alloc)
}

/// The counts of all pipes, core by core, in room for so many.
fn all_pipe_counts(
    alloc: Global,
    pipes: usize,
    results: &[CoreResult],
) -> Result<Vec<PipeCounts>, AllocError>
    ensures { IfOk result (λ v. v.items ≡ flat_map (λ r. r.pipe_counts) results.now) }
{
    let mut all = Vec::with_capacity(alloc, pipes)?;
    for core in results {
        all.extend_from_slice(&core.pipe_counts)?;
    }
    Ok(all)
}

fn all_settled(alloc: Global, results: Vec<CoreResult>) -> Result<Vec<Settled>, AllocError>
    ensures { IfOk result (λ v. v.items ≡ flat_map (λ r. r.settled) results.items) }
{
    results
        .into_iter()
        .flat_map(|core| core.settled)
        .collect(alloc)
}

fn all_dropped(alloc: Global, settled: &[Settled]) -> Result<Vec<DropLine>, AllocError>
    ensures { IfOk result (λ v. v.items ≡ filter_map drop_settled settled.now) }
{
    settled.iter().filter_map(dropped).collect(alloc)
}

fn all_leaving(alloc: Global, settled: Vec<Settled>) -> Result<Vec<Leaving>, AllocError>
    ensures { IfOk result (λ v. v.items ≡ filter_map leaving_settled settled.items) }
{
    settled.into_iter().filter_map(leaving).collect(alloc)
}

/// The drop line of a settled packet, if it was dropped.
fn dropped(settled: &Settled) -> Option<DropLine>
    ensures { result ≡ drop_settled settled.now }
{
    match settled.fate {
        Fate::Left { .. } => None,
        Fate::Dropped { pipe, tick, cause } => Some(DropLine {
            packet: settled.packet,
            pipe,
            tick,
            cause,
        }),
    }
}

/// The leaving of a settled packet, if it left.
fn leaving(settled: Settled) -> Option<Leaving>
    ensures { result ≡ leaving_settled settled }
{
    let bytes = settled.bytes?;
    match settled.fate {
        Fate::Left { tick } => Some(Leaving {
            tick,
            packet: settled.packet,
            bytes,
        }),
        Fate::Dropped { .. } => None,
    }
}
