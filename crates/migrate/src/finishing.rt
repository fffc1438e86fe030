//! What cores have at the end of a run.

ghost use Rattle.std.specs.Prelude.{◌≡◌, ◌==◌, ◌<◌, ◌^◌, ℕ, length, filter, Some, slice_get, IfOk};
ghost use Rattle.std.specs.List.{flat_map};
ghost use Rattle.migrate.specs.ShelvesView.{ShelfView};
ghost use Rattle.migrate.specs.Finishing.{core_counts_of};

use crate::shelf::Shelf;
use journal::Setup;
use mn_base::NoMemory;
use parcel::{CoreCounts, Settled};
use std::alloc::{AllocError, Global};

/// What each core did, in core order.
pub(crate) fn core_counts(
    alloc: Global,
    setup: &Setup,
    owners: &[u32],
    shelves: &[Shelf],
    windows: u64,
) -> Result<Vec<CoreCounts>, NoMemory>
    requires { length shelves.now < 2 ^ 32 }
    ensures count { IfOk result (λ cores. length cores.items ≡ length shelves.now) }
    ensures each { IfOk result (λ cores. (core : ℕ) (s : ShelfView) → slice_get shelves.now core ≡ Some s
        → slice_get cores.items core ≡ Some (core_counts_of setup.now owners.now windows core s)) }
{
    let mut cores = Vec::with_capacity(alloc, shelves.len())?;
    for core in 0..shelves.len() as u32 {
        let shelf = &shelves[core as usize];
        cores.push(CoreCounts {
            pipes: count_owned(owners, core),
            entered: count_entrants(setup, core),
            visits: shelf.visits,
            arrivals: 0,
            settles: 0,
            windows,
        })?;
    }
    Ok(cores)
}

/// How many pipes a core owns.
fn count_owned(owners: &[u32], core: u32) -> u64
    ensures { result ≡ length (filter (λ owner. owner == core) owners.now) }
{
    owners.iter().filter(|owner| **owner == core).count() as u64
}

/// How many packets enter at a core.
fn count_entrants(setup: &Setup, core: u32) -> u64
    ensures { result ≡ length (filter (λ p. p.core == core) setup.now.packets) }
{
    setup
        .parts()
        .packets
        .iter()
        .filter(|plan| plan.core == core)
        .count() as u64
}

/// The settled packets of all cores.
pub(crate) fn all_settled(alloc: Global, shelves: Vec<Shelf>) -> Result<Vec<Settled>, AllocError>
    ensures { IfOk result (λ v. v.items ≡ flat_map (λ s. s.settled) shelves.items) }
{
    shelves
        .into_iter()
        .flat_map(|shelf| shelf.entrants.into_settled())
        .collect(alloc)
}
