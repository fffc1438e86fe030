//! A pipe goes from one core to another.

ghost use Rattle.std.specs.Prelude.{◌≡◌, ◌≢◌, ◌==◌, ◌<◌, ◌^◌, ◌-◌, ℕ, [], length, All, Some, slice_get, IfOk, OnOk};
ghost use Rattle.mn_base.specs.Among.{Among};
ghost use Rattle.mn_base.specs.declared.due.Due.{Due};
ghost use Rattle.journal.specs.Hops.{pipe_of};
ghost use Rattle.deadline_heap.specs.Canonical.{HasNoneOf};
ghost use Rattle.migrate.specs.ShelvesView.{ShelfView};
ghost use Rattle.migrate.specs.Moving.{IsOnRoute, GivesPipe, ReceivesPipe, CanReceive, PartsDue, CarriesPipe};

use crate::due_list::DueList;
use crate::shelf::Shelf;
use journal::Setup;
use journal::steps::{SetupPipe, pipe_at};
use mn_base::{Due, NoMemory};
use std::alloc::Global;
use std::marker::Model;
use std::mem;

/// What a pipe takes along: its state and its due visits.
#[derive(Drop)]
pub(crate) struct Load {
    state: Option<SetupPipe>,
    due: Vec<Due>,
}

impl Model for Load {
    ghost use Rattle.migrate.specs.Moving.{LoadView};

    ghost Value = { LoadView };

    ghost view = { λ l. record { state = l.state; due = l.due.items } };
}

/// Carries the state and the due visits of a pipe from its owner to another core.
pub(crate) fn carry(
    alloc: Global,
    setup: &Setup,
    shelves: &mut Vec<Shelf>,
    pipe: u32,
    giver: u32,
    taker: u32,
) -> Result<(), NoMemory>
    requires giver { giver < length shelves.old.items }
    requires taker { taker < length shelves.old.items }
    requires other { giver ≢ taker }
    requires routed { (s : ShelfView) (x : Due) → slice_get shelves.old.items giver ≡ Some s → Among x s.due → IsOnRoute setup.now x }
    requires alone { (s t : ShelfView) (x : Due) → slice_get shelves.old.items giver ≡ Some s → slice_get shelves.old.items taker ≡ Some t
        → Among x s.due → HasNoneOf x.packet t.due }
    ensures { OnOk result (CarriesPipe setup.now pipe giver taker shelves.old.items shelves.new.items) }
{
    let load = shelves[giver as usize].give(alloc, setup, pipe)?;
    shelves[taker as usize].receive(pipe, load)?;
    Ok(())
}

impl Shelf {
    /// Hands out a pipe: its state and its due visits.
    fn give(&mut self, alloc: Global, setup: &Setup, pipe: u32) -> Result<Load, NoMemory>
        requires { (x : Due) → Among x self.old.due → IsOnRoute setup.now x }
        ensures { IfOk result (λ load. GivesPipe setup.now pipe self.old load self.new) }
    {
        let state = self.pipes.take(pipe);
        let mut all = mem::replace(&mut self.due, DueList::new(alloc)?);
        let due = part(alloc, setup, &mut all, &mut self.due, pipe)?;
        Ok(Load { state, due })
    }

    /// Takes in a pipe: its state and its due visits.
    fn receive(&mut self, pipe: u32, load: Load) -> Result<(), NoMemory>
        requires { CanReceive load self.old }
        ensures { OnOk result (ReceivesPipe pipe load self.old self.new) }
    {
        let Load { state, due } = load;
        self.pipes.put_some(pipe, state)?;
        self.due.insert_all(due)?;
        Ok(())
    }
}

/// Parts due visits: hands out those to a pipe, and puts the others where they stay.
fn part(
    alloc: Global,
    setup: &Setup,
    all: &mut DueList,
    staying: &mut DueList,
    pipe: u32,
) -> Result<Vec<Due>, NoMemory>
    requires routed { (x : Due) → Among x all.old → IsOnRoute setup.now x }
    requires empty { staying.old ≡ [] }
    ensures { IfOk result (λ going. PartsDue setup.now pipe all.old going.items staying.new) }
{
    let mut going = Vec::new(alloc);
    while let Some(due) = all.pop() {
        if is_to(setup, due, pipe) {
            going.push(due)?;
        } else {
            staying.insert(due)?;
        }
    }
    Ok(going)
}

/// Whether a due visit is to this pipe.
fn is_to(setup: &Setup, due: Due, pipe: u32) -> bool
    requires { IsOnRoute setup.now due }
    ensures { result ≡ (pipe_of setup.now due == pipe) }
{
    match setup.find(due.packet) {
        Some(plan) => pipe_at(setup, plan, due.hop) == pipe,
        None => unreachable!(),
    }
}
