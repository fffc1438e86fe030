ghost use Rattle.std.specs.Prelude.{◌≡◌, ◌+◌, ◌*◌, ◌<◌, ◌≤◌, ◌∷◌, ◌++◌, ◌==◌, [], List, length, map, filter, replicate, Some, IfOk, OnOk, OnErr};
ghost use Rattle.pipe.specs.Finishes.{PastVisit};
ghost use Rattle.pipe.specs.PipeView.{StandsFor};
ghost use Rattle.journal.specs.SetupView.{packet_of, len_of, changes_of};
ghost use Rattle.journal.specs.Steps.{is_lost, step_of};
ghost use Rattle.journal.specs.IsPipe.{IsOfSetup, IsPipe, ArePipes};
ghost use Rattle.journal.specs.PipeChanges.{AreChangesOf};

use crate::lazy_words::LazyWords;
use crate::setup::{LossBy, PacketPlan, PipeChange, Setup};
use crate::steps::packet_len;
use mn_base::limits::{KEEP_MAX, PACKETS_MAX, TIME_NS_END};
use mn_base::{Due, NoMemory, PipeParams};
use pipe::{Pipe, Step};
use std::alloc::Global;
use std::marker::Model;
use std::mem;

/// A pipe of a setup at work: what it remembers of its visits, and its loss words.
#[derive(Drop)]
pub struct SetupPipe {
    pipe: Pipe,
    words: LazyWords,
}

impl Model for SetupPipe {
    ghost use Rattle.journal.specs.IsPipe.{SetupPipeView};

    ghost Value = { SetupPipeView };

    ghost view = { λ p. record { number = p.words.pipe; seed = p.words.seed; memory = p.pipe } };
}

/// The setup's pipe of a number, with its changes, before any visit. It goes through all changes: `idle_pipes` does so once for all
/// pipes.
pub fn idle_pipe(alloc: Global, setup: &Setup, number: u32) -> Result<SetupPipe, NoMemory>
    requires { number < length setup.now.pipes }
    ensures { IfOk result (IsPipe setup.now [] number) }
{
    let changes = own_changes(alloc, &setup.parts().changes, number)?;
    Ok(unvisited(alloc, setup, number, changes))
}

/// The pipes of a setup, each at its number, before any visit.
pub fn idle_pipes(alloc: Global, setup: &Setup) -> Result<Vec<SetupPipe>, NoMemory>
    ensures { IfOk result (λ pipes. ArePipes setup.now [] pipes.items) }
{
    let mut lists = changes_by_pipe(alloc, setup)?;
    let mut pipes = Vec::new(alloc);
    for number in 0..setup.parts().pipes.len() as u32 {
        let changes = mem::replace(&mut lists[number as usize], Vec::new(alloc));
        pipes.push(unvisited(alloc, setup, number, changes))?;
    }
    Ok(pipes)
}

/// A pipe of a setup before any visit, with its changes.
fn unvisited(
    alloc: Global,
    setup: &Setup,
    number: u32,
    changes: Vec<(u64, PipeParams)>,
) -> SetupPipe
    requires within { number < length setup.now.pipes }
    requires own { changes.items ≡ changes_of setup.now number }
    ensures { IsPipe setup.now [] number result }
{
    let parts = setup.parts();
    SetupPipe {
        pipe: Pipe::with_changes(alloc, parts.pipes[number as usize], changes, parts.tick_ns),
        words: LazyWords::new(parts.seed, number),
    }
}

/// The changes of each pipe, each with its tick, at the pipe's number.
fn changes_by_pipe(alloc: Global, setup: &Setup) -> Result<Vec<Vec<(u64, PipeParams)>>, NoMemory>
    ensures { IfOk result (λ lists. AreChangesOf setup.now (map (λ list. list.items) lists.items)) }
{
    let mut lists = empty_lists(alloc, setup)?;
    for change in &setup.parts().changes {
        lists[change.pipe as usize].push((change.tick, change.params))?;
    }
    Ok(lists)
}

/// A list without a change for each pipe.
fn empty_lists(alloc: Global, setup: &Setup) -> Result<Vec<Vec<(u64, PipeParams)>>, NoMemory>
    ensures { IfOk result (λ lists. map (λ list. list.items) lists.items ≡ replicate (length setup.now.pipes) []) }
{
    let count = setup.parts().pipes.len();
    let mut lists = Vec::new(alloc);
    while lists.len() < count {
        lists.push(Vec::new(alloc))?;
    }
    Ok(lists)
}

/// The changes of one pipe, each with its tick.
fn own_changes(
    alloc: Global,
    changes: &[PipeChange],
    number: u32,
) -> Result<Vec<(u64, PipeParams)>, NoMemory>
    ensures { IfOk result (λ list.
        list.items ≡ map (λ c. (c.tick, c.params)) (filter (λ c. c.pipe == number) changes.now)) }
{
    let list = changes
        .iter()
        .filter(|change| change.pipe == number)
        .map(|change| (change.tick, change.params))
        .collect(alloc)?;
    Ok(list)
}

impl SetupPipe {
    /// Makes a visit that is due at this pipe, of the packet with this plan: says what comes of it, for each list of earlier
    /// visits that the pipe stands for, and stands for that list with the visit added. `NoMemory` leaves the pipe as it was.
    pub fn decide(
        &mut self,
        alloc: Global,
        setup: &Setup,
        due: Due,
        plan: PacketPlan,
    ) -> Result<Step, NoMemory>
        requires of_setup { IsOfSetup setup.now self.old }
        requires packet { plan.number ≡ due.packet }
        requires known { packet_of setup.now plan.number ≡ Some plan }
        requires order { self.old.memory.last_tick ≤ due.tick }
        requires time { due.tick * setup.now.tick_ns < TIME_NS_END }
        requires few { self.old.memory.visits < PACKETS_MAX }
        ensures step { IfOk result (λ step. (h : List PastVisit) → StandsFor self.old.memory h
            → step ≡ step_of setup.now self.old.number due h) }
        ensures stands { OnOk result ((h : List PastVisit) → StandsFor self.old.memory h
            → StandsFor self.new.memory
            (h ++ record { tick = due.tick; len = len_of setup.now due.packet; step = step_of setup.now self.old.number due h } ∷ [])) }

        // It stays that pipe, and its last visit is this one.
        ensures of_setup { OnOk result (IsOfSetup setup.now self.new) }
        ensures number { OnOk result (self.new.number ≡ self.old.number) }
        ensures last_tick { OnOk result (self.new.memory.last_tick ≡ due.tick) }
        ensures visits { OnOk result (self.new.memory.visits ≡ self.old.memory.visits + 1) }
        ensures err { OnErr result (self.new ≡ self.old) }
    {
        let len = packet_len(setup, plan);
        let lost = self.loses(alloc, setup, due)?;
        let step = self.pipe.visit(due.tick, len, lost)?;
        Ok(step)
    }

    /// Whether the visit's loss word is at least the pipe's keep. A pipe that loses nothing is asked for no word.
    fn loses(&mut self, alloc: Global, setup: &Setup, due: Due) -> Result<bool, NoMemory>
        requires of_setup { IsOfSetup setup.now self.old }
        requires order { self.old.memory.last_tick ≤ due.tick }
        ensures lost { IfOk result (λ lost. (h : List PastVisit) → StandsFor self.old.memory h
            → lost ≡ is_lost setup.now self.old.number due h) }
        ensures same { self.new ≡ self.old }
    {
        let keep = self.pipe.keep_at(due.tick);
        if keep == KEEP_MAX {
            return Ok(false);
        }
        let place = match setup.parts().loss {
            LossBy::Packet => due.packet,
            LossBy::Arrival => self.pipe.visits(),
        };
        let word = self.words.word(alloc, place)?;
        Ok(keep <= u64::from(word))
    }
}
