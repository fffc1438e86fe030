ghost use Rattle.std.specs.Prelude.{AllPairs, ◌≡◌, ◌+◌, ◌<◌, ◌∷◌, ◌++◌, [], List, length, IfOk, OnOk};
ghost use Rattle.pipe.specs.HeldVisits.{HasNone, PutsNext};
ghost use Rattle.red_queue.specs.declared.visit.RedVisit.{RedVisit};
ghost use Rattle.red_queue.specs.SetupView.{IsRedSetup};
ghost use Rattle.red_queue.specs.Journal.{red_hop_after, red_visit_of, IsRedJournal, red_journal_of};
ghost use Rattle.red_queue.specs.Laws.{ExitsFit};
ghost use Rattle.red_queue.specs.Making.{HaveRedEntered, IsRedMaking, IsRedToMake};

use crate::at_work::{AtWork, idle_pipes};
use crate::setup::RedSetup;
use crate::step::RedStep;
use crate::visit::RedVisit;
use mn_base::{Due, NoMemory};
use pipe::{DueVisit, DueVisits};
use std::alloc::Global;

/// The one journal of pipes in a row: all visits of the packets to the pipes, in canonical order, each with what comes of it.
pub fn red_journal(alloc: Global, setup: &RedSetup) -> Result<Vec<RedVisit>, NoMemory>
    requires { IsRedSetup setup.now }
    ensures journal { IfOk result (λ visits. visits.items ≡ red_journal_of setup.now) }
    ensures meets { IfOk result (λ visits. IsRedJournal setup.now visits.items) }
    ensures exits { IfOk result (λ visits. ExitsFit setup.now visits.items) }
{
    let mut maker = Maker::start(alloc, setup)?;
    let mut visits = Vec::new(alloc);
    while let Some(next) = maker.due.pop() {
        let visit = maker.make(setup, next)?;
        visits.push(visit)?;
    }
    Ok(visits)
}

/// The maker of visits: the pipes at work, and the due visits that aren't made yet.
#[derive(Drop)]
struct Maker {
    pipes: Vec<AtWork>,
    due: DueVisits,
}

impl Maker {
    /// Before any visit.
    fn start(alloc: Global, setup: &RedSetup) -> Result<Maker, NoMemory>
        requires { IsRedSetup setup.now }
        ensures { IfOk result (λ maker. IsRedMaking setup.now [] maker.pipes.items maker.due) }
    {
        let pipes = idle_pipes(alloc, setup)?;
        let due = first_dues(alloc, setup)?;
        Ok(Maker { pipes, due })
    }

    /// Makes the due visit that was taken out last, and puts in the one that follows, for each list of visits made so far.
    fn make(&mut self, setup: &RedSetup, next: DueVisit) -> Result<RedVisit, NoMemory>
        requires setup { IsRedSetup setup.now }
        requires next { (J : List RedVisit) × IsRedToMake setup.now J next self.old.pipes.items self.old.due }
        ensures visit { IfOk result (λ visit. (J : List RedVisit)
            → IsRedToMake setup.now J next self.old.pipes.items self.old.due → visit ≡ red_visit_of setup.now J next.due) }
        ensures making { OnOk result ((J : List RedVisit) → IsRedToMake setup.now J next self.old.pipes.items self.old.due
            → IsRedMaking setup.now (J ++ red_visit_of setup.now J next.due ∷ []) self.new.pipes.items self.new.due) }
    {
        let len = setup.packets[next.index as usize].len;
        let step = self.pipes[next.due.hop as usize].decide(next.due, len)?;
        follow_up(setup, &mut self.due, next, step)?;
        Ok(RedVisit {
            tick: next.due.tick,
            packet: next.due.packet,
            hop: next.due.hop,
            step,
        })
    }
}

/// Puts in the visit that follows one with this step, if the packet goes on.
fn follow_up(
    setup: &RedSetup,
    due: &mut DueVisits,
    made: DueVisit,
    step: RedStep,
) -> Result<(), NoMemory>
    requires setup { IsRedSetup setup.now }
    requires within { made.due.hop < length setup.now.pipes }
    requires none { HasNone due.old made.due.packet }
    ensures { OnOk result (PutsNext (red_hop_after setup.now made.due.packet made.due.hop step) made.index due.old due.new) }
{
    let RedStep::Pass { exit } = step else {
        return Ok(());
    };
    if made.due.hop as usize + 1 >= setup.pipes.len() {
        return Ok(());
    }
    let next = Due {
        tick: exit,
        packet: made.due.packet,
        hop: made.due.hop + 1,
    };
    due.add(DueVisit {
        due: next,
        index: made.index,
    })
}

/// The first visit of each packet.
fn first_dues(alloc: Global, setup: &RedSetup) -> Result<DueVisits, NoMemory>
    requires { IsRedSetup setup.now }
    ensures { IfOk result (HaveRedEntered setup.now (length setup.now.packets)) }
{
    let mut firsts = Vec::with_capacity(alloc, setup.packets.len())?;
    for number in 0..setup.packets.len() as u32 {
        enter(setup, &mut firsts, number)?;
    }
    Ok(DueVisits::of_firsts(alloc, firsts))
}

/// Puts in the first visit of the packet of this number.
fn enter(setup: &RedSetup, firsts: &mut Vec<DueVisit>, number: u32) -> Result<(), NoMemory>
    requires within { number < length setup.now.packets }
    requires entered { HaveRedEntered setup.now number firsts.old.items }
    requires rising { AllPairs (λ v w. v.due.packet < w.due.packet) firsts.old.items }
    ensures entered { OnOk result (HaveRedEntered setup.now (number + 1) firsts.new.items) }
    ensures rising { OnOk result (AllPairs (λ v w. v.due.packet < w.due.packet) firsts.new.items) }
{
    let due = Due {
        tick: setup.packets[number as usize].entry_tick,
        packet: number,
        hop: 0,
    };
    firsts.push(DueVisit { due, index: number })?;
    Ok(())
}
