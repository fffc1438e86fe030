//! The visits of a window.

ghost use Rattle.std.specs.Prelude.{◌≡◌, ◌≢◌, ◌<◌, ◌≤◌, ◌+◌, ◌++◌, ◌∷◌, ◌^◌, ◌-◌, ℕ, [], List, length, All, true, Some, slice_get, slice_index, IfOk, IfSome, IfNone, OnOk, MatchBool, IsSome};
ghost use Rattle.std.specs.FinMap as map;
ghost use Rattle.journal.specs.declared.visit.Visit.{Visit};
ghost use Rattle.journal.specs.IsSetup.{IsSetup};
ghost use Rattle.journal.specs.SetupView.{packet_of, route_of};
ghost use Rattle.journal.specs.Hops.{pipe_of};
ghost use Rattle.journal.specs.Fates.{fate_of_step};
ghost use Rattle.journal.specs.Journal.{journal_of};
ghost use Rattle.deadline_heap.specs.Canonical.{HasNoneOf};
ghost use Rattle.parcel.specs.Counts.{counted};
ghost use Rattle.settle.specs.Counted.{HasRoom};
ghost use Rattle.migrate.specs.ShelvesView.{ShelfView};
ghost use Rattle.migrate.specs.Running.{ChangesAt, PutsDue, SettlesPacket, IsHeadOf, HaveNone, HaveNoneBefore, LeadsOn, RunsOn, StaysAtRun, HasRunBefore};

use crate::due_list::comes_before;
use crate::shelf::Shelf;
use crate::shelves::Shelves;
use journal::steps::{next_due, pipe_at};
use journal::{Fate, PacketPlan, Setup};
use mn_base::{Cause, Due, NoMemory};
use parcel::PipeCounts;
use pipe::Step;
use std::alloc::Global;

/// A due visit that is the first of a core's.
#[derive(Clone, Copy)]
pub(crate) struct Head {
    pub core: u32,
    pub due: Due,
}

/// The first of all due visits, and its core; none where nothing is due.
pub(crate) fn first_of(shelves: &[Shelf]) -> Option<Head>
    requires few { length shelves.now < 2 ^ 32 }
    ensures first { IfSome result (IsHeadOf shelves.now) }
    ensures none { IfNone result (HaveNone shelves.now) }
{
    let mut head = None;
    for core in 0..shelves.len() as u32 {
        let shelf = &shelves[core as usize];
        head = earlier(head, core, shelf.due.first());
    }
    head
}

/// The earlier of the first visit so far and that of one more core.
fn earlier(head: Option<Head>, core: u32, first: Option<Due>) -> Option<Head>
    ensures { LeadsOn head core first result }
{
    let Some(due) = first else {
        return head;
    };
    match head {
        Some(head) if comes_before(head.due, due) => Some(head),
        _ => Some(Head { core, due }),
    }
}

impl<'s> Shelves<'s> {
    /// Makes all visits that are due before `end`, each by the owner of its pipe, in canonical order, with all that come to be due
    /// before it.
    pub(crate) fn run_before(&mut self, alloc: Global, end: u64) -> Result<(), NoMemory>
        requires runs { (bytes : List (List ℕ)) × (J : List Visit) × RunsOn bytes J self.old }
        requires running { self.old.failed ≡ true }
        ensures run { OnOk result (HasRunBefore end self.old self.new) }
        ensures all { OnOk result (HaveNoneBefore self.new.shelves end) }
        ensures stays { StaysAtRun self.old self.new }
    {
        while self.run_next(alloc, end)? {}
        Ok(())
    }

    /// Makes the first visit that is due before `end`, if there is one.
    fn run_next(&mut self, alloc: Global, end: u64) -> Result<bool, NoMemory>
        requires runs { (bytes : List (List ℕ)) × (J : List Visit) × RunsOn bytes J self.old }
        requires running { self.old.failed ≡ true }
        ensures run { OnOk result (HasRunBefore end self.old self.new) }
        ensures more { IfOk result (λ more. MatchBool more (self.new.made ≡ self.old.made + 1) (HaveNoneBefore self.new.shelves end)) }
        ensures few { OnOk result (self.new.made ≤ length (journal_of self.new.setup)) }
        ensures stays { StaysAtRun self.old self.new }
    {
        let Some(head) = first_of(&self.shelves) else {
            return Ok(false);
        };
        if head.due.tick >= end {
            return Ok(false);
        }
        self.make(alloc, head)?;
        Ok(true)
    }

    /// Takes out the first visit of a core and makes it there; then what follows it is due, or its packet is settled.
    fn make(&mut self, alloc: Global, head: Head) -> Result<(), NoMemory>
        requires runs { (bytes : List (List ℕ)) × (J : List Visit) × RunsOn bytes J self.old }
        requires running { self.old.failed ≡ true }
        requires first { IsHeadOf self.old.shelves head }
        ensures run { OnOk result (HasRunBefore (head.due.tick + 1) self.old self.new) }
        ensures made { OnOk result (self.new.made ≡ self.old.made + 1) }
        ensures stays { StaysAtRun self.old self.new }
    {
        let Head { core, due } = head;
        let plan = plan_of(self.setup, due);
        let pipe = pipe_at(self.setup, plan, due.hop);
        let step = self.shelves[core as usize].visit(alloc, self.setup, due, plan, pipe)?;
        count(&mut self.counts[pipe as usize], step);
        self.made += 1;
        match next_due(self.setup, plan, due.hop, step) {
            Some(next) => put_due(self.setup, &self.owners, &mut self.shelves, plan, next)?,
            None => settle(&mut self.shelves, plan, fate_by(pipe, due.tick, step))?,
        }
        Ok(())
    }
}

/// The plan of the packet of a visit that is to be made.
fn plan_of(setup: &Setup, due: Due) -> PacketPlan
    requires { IsSome (packet_of setup.now due.packet) }
    ensures known { packet_of setup.now due.packet ≡ Some result }
    ensures number { result.number ≡ due.packet }
{
    match setup.find(due.packet) {
        Some(plan) => plan,
        None => unreachable!(),
    }
}

/// A visit comes to be due at the owner of its pipe.
pub(crate) fn put_due(
    setup: &Setup,
    owners: &[u32],
    shelves: &mut Vec<Shelf>,
    plan: PacketPlan,
    due: Due,
) -> Result<(), NoMemory>
    requires known { packet_of setup.now plan.number ≡ Some plan }
    requires packet { plan.number ≡ due.packet }
    requires within { due.hop < length (route_of setup.now plan.number) }
    requires one_a_pipe { length owners.now ≡ length setup.now.pipes }
    requires owned { All (λ core. core < length shelves.old.items) owners.now }
    requires alone { (core : ℕ) (s : ShelfView) → slice_get shelves.old.items core ≡ Some s → HasNoneOf due.packet s.due }
    requires tick { due.tick < 2 ^ 64 - 1 }
    ensures { OnOk result (ChangesAt (slice_index owners.now (pipe_of setup.now due)) (PutsDue due)
        shelves.old.items shelves.new.items) }
{
    let owner = owners[pipe_at(setup, plan, due.hop) as usize];
    shelves[owner as usize].put_due(due)?;
    Ok(())
}

/// Settles a packet at the core at which it entered.
pub(crate) fn settle(shelves: &mut Vec<Shelf>, plan: PacketPlan, fate: Fate) -> Result<(), NoMemory>
    requires core { plan.core < length shelves.old.items }
    requires held { (s : ShelfView) → slice_get shelves.old.items plan.core ≡ Some s → IsSome (map.get s.store.held plan.number) }
    ensures { OnOk result (ChangesAt plan.core (SettlesPacket plan.number fate) shelves.old.items shelves.new.items) }
{
    shelves[plan.core as usize].settle(plan.number, fate)?;
    Ok(())
}

/// Counts a visit.
fn count(counts: &mut PipeCounts, step: Step)
    requires { HasRoom counts.old }
    ensures { counts.new ≡ counted counts.old step }
{
    match step {
        Step::Lost => counts.lost += 1,
        Step::Full => counts.full += 1,
        Step::Pass { exit: _ } => counts.passed += 1,
    }
}

/// The fate of a packet whose way ends at this pipe and tick with this step.
fn fate_by(pipe: u32, tick: u64, step: Step) -> Fate
    ensures { result ≡ fate_of_step pipe tick step }
{
    match step {
        Step::Lost => Fate::Dropped {
            pipe,
            tick,
            cause: Cause::Loss,
        },
        Step::Full => Fate::Dropped {
            pipe,
            tick,
            cause: Cause::Full,
        },
        Step::Pass { exit } => Fate::Left { tick: exit },
    }
}
