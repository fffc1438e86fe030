ghost use Rattle.std.specs.Prelude.{◌≡◌, ◌^◌, ◌-◌, ◌<◌, [], List, Some, slice_get, IsSome, IfOk, OnOk};
ghost use Rattle.std.specs.FinMap as map;
ghost use Rattle.journal.specs.declared.visit.Visit.{Visit};
ghost use Rattle.journal.specs.SetupView.{packet_of};
ghost use Rattle.journal.specs.Steps.{visit_of};
ghost use Rattle.deadline_heap.specs.Canonical.{HasNoneOf};
ghost use Rattle.migrate.specs.Starting.{PutsPipe};
ghost use Rattle.migrate.specs.Running.{ComesToPipe, VisitsAt, PutsDue, SettlesPacket, idle_shelf};

use crate::due_list::DueList;
use crate::entrants::Entrants;
use crate::pipe_table::PipeTable;
use journal::steps::SetupPipe;
use journal::{Fate, PacketPlan, Setup};
use mn_base::{Due, NoMemory};
use payload_store::Store;
use pipe::Step;
use std::alloc::Global;
use std::marker::Model;

/// One core of a run: what is due there, its pipes, the packets that entered there, and how many visits it ran.
#[derive(Drop)]
pub(crate) struct Shelf {
    pub due: DueList,
    pub pipes: PipeTable,
    pub entrants: Entrants,
    pub visits: u64,
}

impl Model for Shelf {
    ghost use Rattle.migrate.specs.ShelvesView.{ShelfView};

    ghost Value = { ShelfView };

    ghost use Rattle.std.specs.Coded.{codes, coded_ℕ, coded_list};
    ghost use Rattle.std.specs.FinMap as map;
    ghost use Rattle.std.specs.Ordering.{nat_cmp};

    ghost coded = { Prim.hlevel (codes, map.code {R = nat_cmp} coded_ℕ (coded_list coded_ℕ)) };

    ghost view = { λ s. record {
      due = s.due;
      pipes = s.pipes;
      settled = s.entrants.settled;
      store = s.entrants.store;
      visits = s.visits;
    } };
}

impl Shelf {
    /// A core without pipes, at which nothing is due, with the store of the packets that enter there.
    pub(crate) fn idle(alloc: Global, store: Store) -> Result<Shelf, NoMemory>
        ensures { IfOk result (λ s. s ≡ idle_shelf store) }
    {
        Ok(Shelf {
            due: DueList::new(alloc)?,
            pipes: PipeTable::new(alloc),
            entrants: Entrants::of_store(alloc, store),
            visits: 0,
        })
    }

    /// A pipe is put here, under its number.
    pub(crate) fn put_pipe(&mut self, number: u32, pipe: SetupPipe) -> Result<(), NoMemory>
        ensures { OnOk result (PutsPipe number pipe self.old self.new) }
    {
        self.pipes.put(number, pipe)
    }

    /// Makes the first due visit, which is to an own pipe and of the packet with this plan.
    pub(crate) fn visit(
        &mut self,
        alloc: Global,
        setup: &Setup,
        due: Due,
        plan: PacketPlan,
        pipe: u32,
    ) -> Result<Step, NoMemory>
        requires first { slice_get self.old.due 0 ≡ Some due }
        requires comes { (J : List Visit) × ComesToPipe setup.now J due pipe self.old.pipes }
        requires packet { plan.number ≡ due.packet }
        requires known { packet_of setup.now plan.number ≡ Some plan }
        requires few { self.old.visits < 2 ^ 64 - 1 }
        ensures step { IfOk result (λ step. (J : List Visit) → ComesToPipe setup.now J due pipe self.old.pipes
            → step ≡ (visit_of setup.now J due).step) }
        ensures visits { OnOk result (VisitsAt setup.now due pipe self.old self.new) }
    {
        let _first = self.due.pop();
        let step = self.pipes.visit(alloc, setup, due, plan, pipe)?;
        self.visits += 1;
        Ok(step)
    }

    /// A visit comes to be due here.
    pub(crate) fn put_due(&mut self, due: Due) -> Result<(), NoMemory>
        requires alone { HasNoneOf due.packet self.old.due }
        requires tick { due.tick < 2 ^ 64 - 1 }
        ensures { OnOk result (PutsDue due self.old self.new) }
    {
        self.due.insert(due)?;
        Ok(())
    }

    /// A packet that entered here is settled.
    pub(crate) fn settle(&mut self, packet: u32, fate: Fate) -> Result<(), NoMemory>
        requires { IsSome (map.get self.old.store.held packet) }
        ensures { OnOk result (SettlesPacket packet fate self.old self.new) }
    {
        self.entrants.settle(packet, fate)
    }
}
