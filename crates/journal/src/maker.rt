ghost use Rattle.std.specs.Prelude.{AllPairs, ◌≡◌, ◌+◌, ◌≤◌, ◌<◌, ◌∷◌, ◌++◌, [], List, length, Some, slice_get, IfOk, IfSome, OnOk};
ghost use Rattle.std.specs.Option.{option_map};
ghost use Rattle.pipe.specs.HeldVisits.{plain, HasNone, PutsNext};
ghost use Rattle.journal.specs.declared.setup.PacketPlan.{PacketPlan};
ghost use Rattle.journal.specs.declared.visit.Visit.{Visit};
ghost use Rattle.journal.specs.IsSetup.{IsSetup};
ghost use Rattle.journal.specs.SetupView.{packet_of, route_of};
ghost use Rattle.journal.specs.Hops.{entry, hop_after};
ghost use Rattle.journal.specs.Steps.{visit_of};
ghost use Rattle.journal.specs.Journal.{hop_count, journal_of};
ghost use Rattle.journal.specs.Held.{IsIndexed, HaveEntered, IsHeld, IsMaking, IsToMake};

use crate::setup::{PacketPlan, Setup};
use crate::setup_pipe::{SetupPipe, idle_pipes};
use crate::steps::{first_due, next_due, pipe_at};
use crate::visit::Visit;
use mn_base::NoMemory;
use pipe::{DueVisit, DueVisits, Step};
use std::alloc::Global;

/// The one journal of a setup: all visits of its packets to its pipes, in canonical order, each with what comes of it.
pub fn journal(alloc: Global, setup: &Setup) -> Result<Vec<Visit>, NoMemory>
    ensures journal { IfOk result (λ visits. visits.items ≡ journal_of setup.now) }
    ensures few { IfOk result (λ visits. length visits.items ≤ hop_count setup.now) }
{
    let mut maker = Maker::start(alloc, setup)?;
    let mut visits = Vec::new(alloc);
    while let Some(next) = maker.due.pop() {
        let visit = maker.make(alloc, setup, next)?;
        visits.push(visit)?;
    }
    Ok(visits)
}

/// The maker of visits: the pipes at work, the due visits that aren't made yet, and how many visits were made.
#[derive(Drop)]
pub(crate) struct Maker {
    pub pipes: Vec<SetupPipe>,
    pub due: DueVisits,
    pub made: u64,
}

impl Maker {
    /// Before any visit.
    pub(crate) fn start(alloc: Global, setup: &Setup) -> Result<Maker, NoMemory>
        ensures { IfOk result (λ maker. IsMaking setup.now [] maker.pipes.items maker.due maker.made) }
    {
        let pipes = idle_pipes(alloc, setup)?;
        let due = first_dues(alloc, setup)?;
        Ok(Maker {
            pipes,
            due,
            made: 0,
        })
    }

    /// Makes the due visit that was taken out last, and puts in the one that follows, for each list of visits made so far.
    pub(crate) fn make(
        &mut self,
        alloc: Global,
        setup: &Setup,
        next: DueVisit,
    ) -> Result<Visit, NoMemory>
        requires { (J : List Visit) × IsToMake setup.now J next self.old.pipes.items self.old.due self.old.made }
        ensures visit { IfOk result (λ visit. (J : List Visit)
            → IsToMake setup.now J next self.old.pipes.items self.old.due self.old.made → visit ≡ visit_of setup.now J next.due) }
        ensures making { OnOk result ((J : List Visit)
            → IsToMake setup.now J next self.old.pipes.items self.old.due self.old.made
            → IsMaking setup.now (J ++ visit_of setup.now J next.due ∷ []) self.new.pipes.items self.new.due self.new.made) }
        ensures made { OnOk result (self.new.made ≡ self.old.made + 1) }
    {
        let plan = packet_at(setup, next.index);
        let number = pipe_at(setup, plan, next.due.hop);
        let pipe = &mut self.pipes[number as usize];
        let step = pipe.decide(alloc, setup, next.due, plan)?;
        follow_up(setup, &mut self.due, plan, next, step)?;
        self.made += 1;
        Ok(Visit {
            tick: next.due.tick,
            packet: next.due.packet,
            hop: next.due.hop,
            pipe: number,
            step,
        })
    }
}

/// Puts in the visit that follows one with this step, if the packet goes on.
fn follow_up(
    setup: &Setup,
    due: &mut DueVisits,
    plan: PacketPlan,
    made: DueVisit,
    step: Step,
) -> Result<(), NoMemory>
    requires known { packet_of setup.now plan.number ≡ Some plan }
    requires packet { plan.number ≡ made.due.packet }
    requires within { made.due.hop < length (route_of setup.now plan.number) }
    requires none { HasNone due.old made.due.packet }
    ensures { OnOk result (PutsNext (hop_after setup.now made.due.packet made.due.hop step) made.index due.old due.new) }
{
    match next_due(setup, plan, made.due.hop, step) {
        Some(next) => due.add(DueVisit {
            due: next,
            index: made.index,
        }),
        None => Ok(()),
    }
}

/// The packet at an index.
pub(crate) fn packet_at(setup: &Setup, index: u32) -> PacketPlan
    requires { index < length setup.now.packets }
    ensures at { slice_get setup.now.packets index ≡ Some result }
    ensures known { packet_of setup.now result.number ≡ Some result }
    ensures setup { IsSetup setup.now }
{
    setup.parts().packets[index as usize]
}

/// The first visit of each packet that has a route.
fn first_dues(alloc: Global, setup: &Setup) -> Result<DueVisits, NoMemory>
    ensures held { IfOk result (IsHeld setup.now []) }
    ensures setup { IsSetup setup.now }
{
    let packets = setup.parts().packets.len();
    let mut firsts = Vec::with_capacity(alloc, packets)?;
    for index in 0..packets as u32 {
        enter(setup, &mut firsts, index)?;
    }
    Ok(DueVisits::of_firsts(alloc, firsts))
}

/// Puts in the first visit of the packet at this index, if it has a route.
fn enter(setup: &Setup, firsts: &mut Vec<DueVisit>, index: u32) -> Result<(), NoMemory>
    requires setup { IsSetup setup.now }
    requires within { index < length setup.now.packets }
    requires entered { HaveEntered setup.now index firsts.old.items }
    requires rising { AllPairs (λ v w. v.due.packet < w.due.packet) firsts.old.items }
    ensures entered { OnOk result (HaveEntered setup.now (index + 1) firsts.new.items) }
    ensures rising { OnOk result (AllPairs (λ v w. v.due.packet < w.due.packet) firsts.new.items) }
{
    if let Some(first) = first_visit(setup, index) {
        firsts.push(first)?;
    }
    Ok(())
}

/// The first visit of the packet at this index.
fn first_visit(setup: &Setup, index: u32) -> Option<DueVisit>
    requires { index < length setup.now.packets }
    ensures due { (p : PacketPlan) → slice_get setup.now.packets index ≡ Some p → option_map plain result ≡ entry setup.now p }
    ensures indexed { IfSome result (IsIndexed setup.now) }
{
    let plan = packet_at(setup, index);
    let due = first_due(setup, plan)?;
    Some(DueVisit { due, index })
}
