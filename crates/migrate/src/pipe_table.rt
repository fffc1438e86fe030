ghost use Rattle.std.specs.Prelude.{◌≡◌, ◌≢◌, ◌++◌, ◌∷◌, ◌==◌, ℕ, [], List, Some, None, IfOk, OnOk, if◌then◌else◌};
ghost use Rattle.journal.specs.declared.visit.Visit.{Visit};
ghost use Rattle.journal.specs.SetupView.{packet_of};
ghost use Rattle.journal.specs.Steps.{visit_of};
ghost use Rattle.journal.specs.IsPipe.{SetupPipeView};
ghost use Rattle.migrate.specs.ShelvesView.{pipe_in};
ghost use Rattle.migrate.specs.Running.{HoldsPipe, ComesToPipe};

use journal::steps::SetupPipe;
use journal::{PacketPlan, Setup};
use mn_base::{Due, NoMemory};
use pipe::Step;
use std::alloc::Global;
use std::collections::HashMap;
use std::marker::Model;

/// The pipes of one core, by their numbers.
#[derive(Drop)]
pub(crate) struct PipeTable {
    pipes: HashMap<u32, SetupPipe>,
}

impl Model for PipeTable {
    ghost use Rattle.std.specs.Prelude.{List, ℕ};
    ghost use Rattle.journal.specs.IsPipe.{SetupPipeView};

    ghost Value = { List (ℕ × SetupPipeView) };

    ghost view = { λ t. t.pipes.entries };
}

impl PipeTable {
    /// No pipe.
    pub(crate) fn new(alloc: Global) -> PipeTable
        ensures { result ≡ [] }
    {
        PipeTable {
            pipes: HashMap::new(alloc),
        }
    }

    /// Puts in a pipe under its number.
    pub(crate) fn put(&mut self, number: u32, pipe: SetupPipe) -> Result<(), NoMemory>
        ensures { OnOk result ((other : ℕ) → pipe_in self.new other ≡ (if number == other then Some pipe else pipe_in self.old other)) }
    {
        self.pipes.insert(number, pipe)?;
        Ok(())
    }

    /// Puts in a pipe under its number, if there is one.
    pub(crate) fn put_some(&mut self, number: u32, pipe: Option<SetupPipe>) -> Result<(), NoMemory>
        ensures here { OnOk result ((m : SetupPipeView) → pipe ≡ Some m → pipe_in self.new number ≡ Some m) }
        ensures others { OnOk result ((other : ℕ) → other ≢ number → pipe_in self.new other ≡ pipe_in self.old other) }
    {
        match pipe {
            Some(pipe) => self.put(number, pipe),
            None => Ok(()),
        }
    }

    /// Takes out the pipe of a number, if it is there.
    pub(crate) fn take(&mut self, number: u32) -> Option<SetupPipe>
        ensures pipe { result ≡ pipe_in self.old number }
        ensures others { (other : ℕ) → pipe_in self.new other ≡ (if number == other then None else pipe_in self.old other) }
    {
        self.pipes.remove(&number)
    }

    /// Makes a visit that is due at this pipe, of the packet with this plan.
    pub(crate) fn visit(
        &mut self,
        alloc: Global,
        setup: &Setup,
        due: Due,
        plan: PacketPlan,
        pipe: u32,
    ) -> Result<Step, NoMemory>
        requires comes { (J : List Visit) × ComesToPipe setup.now J due pipe self.old }
        requires packet { plan.number ≡ due.packet }
        requires known { packet_of setup.now plan.number ≡ Some plan }
        ensures step { IfOk result (λ step. (J : List Visit) → ComesToPipe setup.now J due pipe self.old
            → step ≡ (visit_of setup.now J due).step) }
        ensures own { OnOk result ((J : List Visit) → ComesToPipe setup.now J due pipe self.old
            → HoldsPipe setup.now (J ++ visit_of setup.now J due ∷ []) pipe self.new) }
        ensures others { OnOk result ((other : ℕ) → other ≢ pipe → pipe_in self.new other ≡ pipe_in self.old other) }
    {
        match self.pipes.get_mut(&pipe) {
            Some(own) => {
                let step = own.decide(alloc, setup, due, plan)?;
                Ok(step)
            }
            None => unreachable!(),
        }
    }
}
