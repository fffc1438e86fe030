//! The cores of a run before its first window.

ghost use Rattle.std.specs.Prelude.{◌≡◌, ◌<◌, ℕ, List, [], length, map, Some, slice_get, IsSome, IfOk, OnOk};
ghost use Rattle.std.specs.FinMap as fin;
ghost use Rattle.std.specs.List.{range_with_len};
ghost use Rattle.mn_base.specs.Among.{Among};
ghost use Rattle.journal.specs.SetupView.{packet_of};
ghost use Rattle.journal.specs.Hops.{entry};
ghost use Rattle.parcel.specs.Counts.{counts_of};
ghost use Rattle.deadline_heap.specs.Canonical.{HasNoneOf};
ghost use Rattle.core_loop.specs.WorldState.{AreSettled};
ghost use Rattle.migrate.specs.ShelvesView.{ShelfView};
ghost use Rattle.migrate.specs.Running.{ChangesAt, idle_shelf};
ghost use Rattle.migrate.specs.Starting.{PutsPipe, AreLaidOut, SameButPipes, HasEnteredBy, IsWayless, PacketsEntered};

use crate::shelf::Shelf;
use crate::window::{put_due, settle};
use journal::steps::{SetupPipe, first_due, idle_pipes};
use journal::{Fate, PacketPlan, Setup};
use mn_base::NoMemory;
use parcel::PipeCounts;
use payload_store::Store;
use std::alloc::{AllocError, Global};

/// The counts of all pipes before any visit, by their numbers.
pub(crate) fn idle_counts(alloc: Global, setup: &Setup) -> Result<Vec<PipeCounts>, AllocError>
    ensures { IfOk result (λ all. all.items ≡ map (counts_of []) (range_with_len 0 (length setup.now.pipes))) }
{
    let _parts = setup.parts();
    (0..setup.parts().pipes.len() as u32)
        .map(|pipe| PipeCounts {
            pipe,
            passed: 0,
            lost: 0,
            full: 0,
        })
        .collect(alloc)
}

/// Cores without pipes, at which nothing is due, each with its store.
pub(crate) fn idle_shelves(alloc: Global, stores: Vec<Store>) -> Result<Vec<Shelf>, NoMemory>
    ensures { IfOk result (λ shelves. shelves.items ≡ map idle_shelf stores.items) }
{
    let mut shelves = Vec::with_capacity(alloc, stores.len())?;
    for store in stores {
        shelves.push(Shelf::idle(alloc, store)?)?;
    }
    Ok(shelves)
}

/// Puts each pipe to its owner.
pub(crate) fn lay_out(
    alloc: Global,
    setup: &Setup,
    shelves: &mut Vec<Shelf>,
) -> Result<(), NoMemory>
    requires one_a_core { length shelves.old.items ≡ setup.now.cores }
    requires empty { (core : ℕ) (s : ShelfView) → slice_get shelves.old.items core ≡ Some s → s.pipes ≡ [] }
    ensures laid { OnOk result (AreLaidOut setup.now (length setup.now.pipes) shelves.new.items) }
    ensures same { OnOk result (SameButPipes shelves.old.items shelves.new.items) }
{
    let parts = setup.parts();
    let mut number = 0;
    for pipe in idle_pipes(alloc, setup)? {
        put_pipe(shelves, parts.owners[number as usize], number, pipe)?;
        number += 1;
    }
    Ok(())
}

/// Puts a pipe to a core.
fn put_pipe(
    shelves: &mut Vec<Shelf>,
    core: u32,
    number: u32,
    pipe: SetupPipe,
) -> Result<(), NoMemory>
    requires { core < length shelves.old.items }
    ensures { OnOk result (ChangesAt core (PutsPipe number pipe) shelves.old.items shelves.new.items) }
{
    shelves[core as usize].put_pipe(number, pipe)
}

/// All packets enter: their first visits are due at the owners of the pipes, and those that have no way to go are settled.
pub(crate) fn enter_all(setup: &Setup, shelves: &mut Vec<Shelf>) -> Result<(), NoMemory>
    requires one_a_core { length shelves.old.items ≡ setup.now.cores }
    requires empty { (core : ℕ) (s : ShelfView) → slice_get shelves.old.items core ≡ Some s → s.due ≡ [] }
    requires stored { (bytes : List (List ℕ)) × ((core : ℕ) (s : ShelfView) → slice_get shelves.old.items core ≡ Some s
        → AreSettled setup.now bytes core (λ p. ⊥) s.settled s.store) }
    ensures { OnOk result (PacketsEntered setup.now (length setup.now.packets) shelves.old.items shelves.new.items) }
{
    for plan in &setup.parts().packets {
        enter(setup, shelves, *plan)?;
    }
    Ok(())
}

/// A packet enters.
fn enter(setup: &Setup, shelves: &mut Vec<Shelf>, plan: PacketPlan) -> Result<(), NoMemory>
    requires among { Among plan setup.now.packets }
    requires known { packet_of setup.now plan.number ≡ Some plan }
    requires one_a_core { length shelves.old.items ≡ setup.now.cores }
    requires alone { (core : ℕ) (s : ShelfView) → slice_get shelves.old.items core ≡ Some s → HasNoneOf plan.number s.due }
    requires held { (s : ShelfView) → slice_get shelves.old.items plan.core ≡ Some s → IsSome (fin.get s.store.held plan.number) }
    ensures { OnOk result (HasEnteredBy setup.now plan (entry setup.now plan) shelves.old.items shelves.new.items) }
{
    let parts = setup.parts();
    match first_due(setup, plan) {
        Some(due) => put_due(setup, &parts.owners, shelves, plan, due)?,
        None => settle(
            shelves,
            plan,
            Fate::Left {
                tick: plan.entry_tick,
            },
        )?,
    }
    Ok(())
}
