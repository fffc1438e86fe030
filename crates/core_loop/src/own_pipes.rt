ghost use Rattle.std.specs.Prelude.{◌≡◌, ℕ, ◌++◌, ◌∷◌, [], List, length, IfOk, OnOk};
ghost use Rattle.mn_base.specs.declared.limits.TheConstants.{PACKETS_MAX};
ghost use Rattle.journal.specs.declared.visit.Visit.{Visit};
ghost use Rattle.journal.specs.SetupView.{packet_of};
ghost use Rattle.journal.specs.Steps.{visit_of};
ghost use Rattle.core_loop.specs.Work.{HaveRun, ComesTo, IsBelow};
ghost use Rattle.parcel.specs.Counts.{counted};

use journal::steps::{SetupPipe, idle_pipes};
use journal::{PacketPlan, Setup};
use mn_base::{Due, NoMemory};
use parcel::PipeCounts;
use pipe::Step;
use std::alloc::Global;
use std::marker::Model;

/// The pipes of one core, in pipe order, with what became of the visits to each.
///
/// A table has the index of each own pipe, so that a visit finds its pipe at once; a core holds no pipe of another.
#[derive(Drop)]
pub(crate) struct OwnPipes {
    /// At the number of an own pipe, its index among them.
    index_of: Vec<u32>,
    pipes: Vec<SetupPipe>,
    counts: Vec<PipeCounts>,
}

impl Model for OwnPipes {
    ghost use Rattle.core_loop.specs.Work.{OwnPipesView};

    ghost Value = { OwnPipesView };

    ghost use Rattle.core_loop.specs.Work.{AreIndexed};

    ghost view = { λ o. record { pipes = o.pipes.items; counts = o.counts.items } };

    ghost invariant = { λ o. AreIndexed o.index_of.items o.pipes.items o.counts.items };
}

impl OwnPipes {
    /// The pipes that a core owns, before any visit.
    pub(crate) fn idle(alloc: Global, setup: &Setup, core: u32) -> Result<OwnPipes, NoMemory>
        ensures { IfOk result (HaveRun setup.now core []) }
    {
        let owners = setup.parts().owners.as_slice();
        let mut index_of = Vec::with_capacity(alloc, owners.len())?;
        let mut pipes = Vec::new(alloc);
        let mut counts = Vec::new(alloc);
        for pipe in idle_pipes(alloc, setup)? {
            let number = index_of.len();
            index_of.push(pipes.len() as u32)?;
            if owners[number] != core {
                continue;
            }
            pipes.push(pipe)?;
            counts.push(idle_counts(number as u32))?;
        }
        Ok(OwnPipes {
            index_of,
            pipes,
            counts,
        })
    }

    /// How many pipes they are.
    pub(crate) fn len(&self) -> usize
        ensures { result ≡ length self.now.pipes }
    {
        self.pipes.len()
    }

    /// Makes a visit that is due at this own pipe, of the packet with this plan, and counts it.
    pub(crate) fn visit(
        &mut self,
        alloc: Global,
        setup: &Setup,
        due: Due,
        plan: PacketPlan,
        pipe: u32,
    ) -> Result<Step, NoMemory>
        requires comes { (core : ℕ) × (J : List Visit) × ComesTo setup.now core J due pipe self.old }
        requires packet { plan.number ≡ due.packet }
        requires known { packet_of setup.now plan.number ≡ Some plan }
        ensures step { IfOk result (λ step. (core : ℕ) (J : List Visit) → ComesTo setup.now core J due pipe self.old
            → step ≡ (visit_of setup.now J due).step) }
        ensures run { OnOk result ((core : ℕ) (J : List Visit) → ComesTo setup.now core J due pipe self.old
            → HaveRun setup.now core (J ++ visit_of setup.now J due ∷ []) self.new) }
    {
        let index = self.index_of[pipe as usize] as usize;
        let own = &mut self.pipes[index];
        let step = own.decide(alloc, setup, due, plan)?;
        count(&mut self.counts[index], step);
        Ok(step)
    }

    /// What became of the visits to each, at the end.
    pub(crate) fn into_counts(self) -> Vec<PipeCounts>
        ensures { result.items ≡ self.counts }
    {
        let OwnPipes {
            index_of: _,
            pipes: _,
            counts,
        } = self;
        counts
    }
}

/// The counts of a pipe before any visit.
fn idle_counts(pipe: u32) -> PipeCounts
    ensures { result ≡ record { pipe = pipe; passed = 0; lost = 0; full = 0 } }
{
    PipeCounts {
        pipe,
        passed: 0,
        lost: 0,
        full: 0,
    }
}

/// Counts a visit.
fn count(counts: &mut PipeCounts, step: Step)
    requires { IsBelow counts.old PACKETS_MAX }
    ensures { counts.new ≡ counted counts.old step }
{
    match step {
        Step::Lost => counts.lost += 1,
        Step::Full => counts.full += 1,
        Step::Pass { exit: _ } => counts.passed += 1,
    }
}
