ghost use Rattle.std.specs.Prelude.{◌≡◌, ℕ, ◌+◌, ◌^◌, ◌<◌, ◌≤◌, ◌⊎◌, ◌↔◌, [], IfOk, IfSome, OnOk, OnErr, MatchBool, length, option_map, slice_get};
ghost use Rattle.mn_base.specs.Among.{Among};
ghost use Rattle.mn_base.specs.declared.due.Due.{Due};
ghost use Rattle.journal.specs.SetupView.{packet_of, route_of};
ghost use Rattle.journal.specs.Hops.{pipe_of};
ghost use Rattle.journal.specs.Fates.{fate_of_step};
ghost use Rattle.parcel.specs.Owners.{owner_of};
ghost use Rattle.deadline_heap.specs.Canonical.{HasNoneOf, placed};
ghost use Rattle.core_loop.specs.Work.{HaveRun, Runs, HasRun, Chooses, Makes, IsEnd, StaysAtWork, Announces, Tells};

use crate::own_pipes::OwnPipes;
use crate::told::Told;
use deadline_heap::Heap;
use journal::steps::{next_due, pipe_at};
use journal::{Fate, PacketPlan, Setup};
use mn_base::{Cause, Due, NoMemory};
use parcel::{CoreCounts, Note, PipeCounts};
use pipe::Step;
use std::alloc::Global;
use std::marker::Model;
use std::mem;

/// The work of a core: what is due, its pipes, and what it has to tell when the window in hand is run.
#[derive(Drop)]
pub(crate) struct Work<'s> {
    setup: &'s Setup,
    /// The core's number.
    number: u32,
    heap: Heap,
    pipes: OwnPipes,
    counts: CoreCounts,
    /// What is to be told: visits of other cores, and the fates of packets wherever they entered. Own visits are due at once.
    told: Vec<Told>,
}

impl<'s> Model for Work<'s> {
    ghost use Rattle.core_loop.specs.Work.{WorkView};

    ghost Value = { WorkView };

    ghost view = { λ w. record {
      setup = w.setup.now;
      number = w.number;
      heap = w.heap;
      pipes = w.pipes;
      counts = w.counts;
      told = w.told.items;
    } };
}

impl<'s> Work<'s> {
    /// Nothing is due, and no visit was made. So many packets enter at this core.
    pub(crate) fn idle(
        alloc: Global,
        setup: &'s Setup,
        number: u32,
        entered: u64,
    ) -> Result<Work<'s>, NoMemory>
        ensures setup { IfOk result (λ w. w.setup ≡ setup.now) }
        ensures number { IfOk result (λ w. w.number ≡ number) }
        ensures heap { IfOk result (λ w. w.heap ≡ []) }
        ensures told { IfOk result (λ w. w.told ≡ []) }
        ensures pipes { IfOk result (λ w. HaveRun setup.now number [] w.pipes) }
        ensures counts { IfOk result (λ w. w.counts
            ≡ record { pipes = length w.pipes.pipes; entered = entered; visits = 0; arrivals = 0; settles = 0; windows = 0 }) }
    {
        let pipes = OwnPipes::idle(alloc, setup, number)?;
        let counts = CoreCounts {
            pipes: pipes.len() as u64,
            entered,
            visits: 0,
            arrivals: 0,
            settles: 0,
            windows: 0,
        };
        Ok(Work {
            setup,
            number,
            heap: Heap::new(alloc)?,
            pipes,
            counts,
            told: Vec::new(alloc),
        })
    }

    /// Runs what is due before `end`, in canonical order, with all that comes to be due before it.
    pub(crate) fn run(&mut self, alloc: Global, end: u64) -> Result<(), NoMemory>
        requires runs { Runs self.old }
        requires ends { IsEnd self.old end }
        ensures run { OnOk result (HasRun self.new) }
        ensures stays { StaysAtWork self.old self.new }
    {
        while self.run_next(alloc, end)? {}
        Ok(())
    }

    /// Makes the first visit that is due before `end`, if there is one.
    fn run_next(&mut self, alloc: Global, end: u64) -> Result<bool, NoMemory>
        requires runs { Runs self.old }
        requires ends { IsEnd self.old end }
        ensures runs { OnOk result (Runs self.new) }
        ensures stays { StaysAtWork self.old self.new }
        ensures more { IfOk result (λ more. MatchBool more (self.new.counts.visits ≡ self.old.counts.visits + 1) (HasRun self.new)) }
    {
        let Some(due) = self.heap.pop_before(end) else {
            return Ok(false);
        };
        let plan = self.plan_of(due);
        let pipe = pipe_at(self.setup, plan, due.hop);
        let step = self.visit(alloc, due, plan, pipe)?;
        self.follow(alloc, due, plan, pipe, step)?;
        Ok(true)
    }

    /// The plan of the packet of a visit that is to be made.
    fn plan_of(&self, due: Due) -> PacketPlan
        requires { Chooses self.now due }
        ensures known { packet_of self.now.setup due.packet ≡ Some result }
        ensures number { result.number ≡ due.packet }
        ensures within { due.hop < length (route_of self.now.setup due.packet) }
    {
        match self.setup.find(due.packet) {
            Some(plan) => plan,
            None => unreachable!(),
        }
    }

    /// Makes a visit to an own pipe.
    fn visit(
        &mut self,
        alloc: Global,
        due: Due,
        plan: PacketPlan,
        pipe: u32,
    ) -> Result<Step, NoMemory>
        requires chosen { Chooses self.old due }
        requires known { packet_of self.old.setup due.packet ≡ Some plan }
        requires number { plan.number ≡ due.packet }
        requires pipe { pipe ≡ pipe_of self.old.setup due }
        ensures made { IfOk result (λ step. Makes self.new due step) }
        ensures stays { StaysAtWork self.old self.new }
        ensures visits { OnOk result (self.new.counts.visits ≡ self.old.counts.visits + 1) }
    {
        let step = self.pipes.visit(alloc, self.setup, due, plan, pipe)?;
        self.counts.visits += 1;
        Ok(step)
    }

    /// Notes what comes of a visit: the next one on the packet's way, or the packet's fate.
    fn follow(
        &mut self,
        alloc: Global,
        due: Due,
        plan: PacketPlan,
        pipe: u32,
        step: Step,
    ) -> Result<(), NoMemory>
        requires made { Makes self.old due step }
        requires known { packet_of self.old.setup due.packet ≡ Some plan }
        requires number { plan.number ≡ due.packet }
        requires within { due.hop < length (route_of self.old.setup due.packet) }
        requires pipe { pipe ≡ pipe_of self.old.setup due }
        ensures runs { OnOk result (Runs self.new) }
        ensures stays { StaysAtWork self.old self.new }
        ensures visits { OnOk result (self.new.counts.visits ≡ self.old.counts.visits) }
    {
        match next_due(self.setup, plan, due.hop, step) {
            Some(next) => self.announce(alloc, next, plan),
            None => self.tell(
                plan.core,
                Note::Settle {
                    packet: due.packet,
                    fate: fate_by(pipe, due.tick, step),
                },
            ),
        }
    }

    /// Notes a visit that comes to be due: it is due here where the pipe is an own one, and its owner is to be told of any other.
    pub(crate) fn announce(
        &mut self,
        alloc: Global,
        due: Due,
        plan: PacketPlan,
    ) -> Result<(), NoMemory>
        requires known { packet_of self.old.setup due.packet ≡ Some plan }
        requires number { plan.number ≡ due.packet }
        requires within { due.hop < length (route_of self.old.setup due.packet) }
        requires alone { HasNoneOf due.packet self.old.heap }
        ensures announces { OnOk result (Announces self.old due self.new) }
        ensures stays { StaysAtWork self.old self.new }
    {
        let owner = self.owner_at(plan, due.hop);
        if owner == self.number {
            return self.insert(due);
        }
        let Due { tick, packet, hop } = due;
        self.tell(owner, Note::Arrive { packet, hop, tick })
    }

    /// The core that owns the pipe at a hop of a packet's route.
    fn owner_at(&self, plan: PacketPlan, hop: u32) -> u32
        requires known { packet_of self.now.setup plan.number ≡ Some plan }
        requires within { hop < length (route_of self.now.setup plan.number) }
        ensures { (tick : ℕ) → result ≡ owner_of self.now.setup (pipe_of self.now.setup (record { tick = tick; packet = plan.number; hop = hop })) }
    {
        self.setup.parts().owners[pipe_at(self.setup, plan, hop) as usize]
    }

    /// Puts down what is to be told.
    fn tell(&mut self, receiver: u32, note: Note) -> Result<(), NoMemory>
        ensures tells { OnOk result (Tells self.old receiver note self.new) }
        ensures stays { StaysAtWork self.old self.new }
    {
        self.told.push(Told { receiver, note })?;
        Ok(())
    }

    /// Puts in a visit of which another core has told.
    pub(crate) fn insert(&mut self, due: Due) -> Result<(), NoMemory>
        requires { HasNoneOf due.packet self.old.heap }
        ensures members { OnOk result ((other : Due) → Among other self.new.heap ↔ ((due ≡ other) ⊎ Among other self.old.heap)) }
        ensures same { OnOk result (self.new ≡ record self.old { heap = placed due self.old.heap }) }
        ensures err { OnErr result (self.new ≡ self.old) }
    {
        self.heap.insert(due)
    }

    /// The least tick of what is due here.
    pub(crate) fn least(&self) -> Option<u64>
        ensures first { result ≡ option_map (λ due. due.tick) (slice_get self.now.heap 0) }
        ensures least { IfSome result (λ tick. (other : Due) → Among other self.now.heap → tick ≤ other.tick) }
    {
        self.heap.least()
    }

    /// The next window is in hand.
    pub(crate) fn end_window(&mut self)
        requires { self.old.counts.windows < 2 ^ 28 }
        ensures { self.new ≡ record self.old { counts = record self.old.counts { windows = self.old.counts.windows + 1 } } }
    {
        self.counts.windows += 1;
    }

    /// The number of the window in hand: so many are run.
    pub(crate) fn windows(&self) -> u64
        ensures { result ≡ self.now.counts.windows }
    {
        self.counts.windows
    }

    /// What it has done.
    pub(crate) fn counts(&self) -> CoreCounts
        ensures { result ≡ self.now.counts }
    {
        self.counts
    }

    /// The core's number.
    pub(crate) fn number(&self) -> u32
        ensures { result ≡ self.now.number }
    {
        self.number
    }

    /// Counts what other cores are told.
    pub(crate) fn count_sent(&mut self, arrivals: u64, settles: u64)
        requires arrivals { self.old.counts.arrivals + arrivals < 2 ^ 64 }
        requires settles { self.old.counts.settles + settles < 2 ^ 64 }
        ensures { self.new ≡ record self.old {
          counts = record self.old.counts {
            arrivals = self.old.counts.arrivals + arrivals;
            settles = self.old.counts.settles + settles;
          };
        } }
    {
        self.counts.arrivals += arrivals;
        self.counts.settles += settles;
    }

    /// Hands out what is to be told. Then nothing is.
    pub(crate) fn take_told(&mut self, alloc: Global) -> Vec<Told>
        ensures told { result.items ≡ self.old.told }
        ensures same { self.new ≡ record self.old { told = [] } }
    {
        mem::replace(&mut self.told, Vec::new(alloc))
    }

    /// Uses a vector again for what is to be told, where nothing is.
    pub(crate) fn reuse(&mut self, told: Vec<Told>)
        ensures { self.new ≡ record self.old { told = [] } }
    {
        let mut told = told;
        told.clear();
        self.told = told;
    }

    /// What became of the visits to each of its pipes, at the end.
    pub(crate) fn into_counts(self) -> Vec<PipeCounts>
        ensures { result.items ≡ self.entry.pipes.counts }
    {
        let Work {
            setup: _,
            number: _,
            heap: _,
            pipes,
            counts: _,
            told: _,
        } = self;
        pipes.into_counts()
    }
}

/// The fate of a packet whose way ends at this pipe and tick with this step.
fn fate_by(pipe: u32, tick: u64, step: Step) -> Fate
    ensures { result ≡ fate_of_step pipe tick step }
{
    match step {
        Step::Lost => Fate::Dropped {
            pipe,
            tick,
            cause: Cause::Loss,
        },
        Step::Full => Fate::Dropped {
            pipe,
            tick,
            cause: Cause::Full,
        },
        Step::Pass { exit } => Fate::Left { tick: exit },
    }
}
