ghost use Rattle.std.specs.Prelude.{◌≡◌, ℕ, ◌+◌, ◌*◌, ◌<◌, ◌≤◌, ◌∷◌, ◌++◌, List, [], length, All, AllPairs, IfOk, OnOk, OnErr};
ghost use Rattle.std.specs.List.Sorted.{IsNonDecreasing};
ghost use Rattle.std.specs.VecDeque.{deque_len, deque_capacity};
ghost use Rattle.std.specs.Int.{div_ceil};
ghost use Rattle.mn_base.specs.Ranges.{IsTickLength};
ghost use Rattle.mn_base.specs.declared.limits.TheConstants.{PACKET_BYTES_MAX, PACKETS_MAX, TIME_NS_END};
ghost use Rattle.pipe.specs.Finishes.{PastVisit, above};
ghost use Rattle.pipe.specs.Steps.{step_at, visited, IfPass};
ghost use Rattle.pipe.specs.PipeView.{StandsFor, params_at, idle_view, greatest_queue, greatest_transmission};

use crate::in_force::{InForce, in_force_at};
use crate::step::Step;
use mn_base::{NoMemory, PipeParams, tx_ns};
use std::alloc::Global;
use std::collections::VecDeque;
use std::marker::Model;

/// One pipe, with what it remembers of its visits: the last tick, the last finish, how many there were, and the finishes that
/// may still count.
///
/// A visit costs the same however many there were before, taken together: each finish is put in once and taken out once, and
/// each change of the parameters is come to once. A pipe without visits holds no memory but its changes.
#[derive(Debug, Drop)]
pub struct Pipe {
    in_force: InForce,
    tick_ns: u64,
    last_tick: u64,
    last_finish: u64,
    kept: VecDeque<u64>,
    visits: u32,
    first: PipeParams,
    changes: Vec<(u64, PipeParams)>,
}

impl Model for Pipe {
    ghost use Rattle.pipe.specs.PipeView.{PipeView};

    ghost Value = { PipeView };

    ghost use Rattle.pipe.specs.Inside.{view_of, IsSound};

    ghost view = { view_of };

    ghost invariant = { IsSound };
}

impl Pipe {
    /// A pipe without visits whose parameters never change, for ticks of `tick_ns` ns.
    pub fn new(alloc: Global, params: PipeParams, tick_ns: u64) -> Pipe
        requires { IsTickLength tick_ns }
        ensures idle { result ≡ idle_view params [] tick_ns }
        ensures stands { StandsFor result [] }
    {
        Pipe::with_changes(alloc, params, Vec::new(alloc), tick_ns)
    }

    /// A pipe without visits, for ticks of `tick_ns` ns: its first parameters, and the ticks at which they change, each with the
    /// parameters from that tick on.
    pub fn with_changes(
        alloc: Global,
        first: PipeParams,
        changes: Vec<(u64, PipeParams)>,
        tick_ns: u64,
    ) -> Pipe
        requires tick { IsTickLength tick_ns }
        requires rising { AllPairs (λ c d. c.0 < d.0) changes.items }
        ensures idle { result ≡ idle_view first changes.items tick_ns }
        ensures stands { StandsFor result [] }
    {
        Pipe {
            in_force: InForce {
                params: first,
                reached: 0,
            },
            tick_ns,
            last_tick: 0,
            last_finish: 0,
            kept: VecDeque::new(alloc),
            visits: 0,
            first,
            changes,
        }
    }

    /// How many visits there were, dropped ones among them.
    pub fn visits(&self) -> u32
        ensures { result ≡ self.now.visits }
    {
        self.visits
    }

    /// Of the 2^32 loss words, how many lose nothing at a tick that isn't before the last visit.
    pub fn keep_at(&self, tick: u64) -> u64
        requires { self.now.last_tick ≤ tick }
        ensures { result ≡ (params_at self.now tick).keep }
    {
        in_force_at(&self.changes, self.in_force, tick).params.keep
    }

    /// Adds a visit at `tick` by a packet of `len` bytes, and says what comes of it. `lost` says that its loss word is at
    /// least the keep of the pipe's parameters at that tick.
    ///
    /// At 8,000,000 bit/s, 50 ticks of latency and ticks of 100,000 ns, a packet of 1,000 bytes at tick 0 exits at tick 60:
    /// it transmits for 10 ticks. `NoMemory` leaves the pipe as it was.
    pub fn visit(&mut self, tick: u64, len: u32, lost: bool) -> Result<Step, NoMemory>
        requires order { self.old.last_tick ≤ tick }
        requires time { tick * self.old.tick_ns < TIME_NS_END }
        requires len { len ≤ PACKET_BYTES_MAX }
        requires few { self.old.visits < PACKETS_MAX }

        // The recurrence, for each list of earlier visits that this pipe stands for.
        ensures step { IfOk result (λ step. (h : List PastVisit) → StandsFor self.old h
            → step ≡ step_at (params_at self.old) self.old.tick_ns h tick len lost) }
        ensures stands { OnOk result ((h : List PastVisit) → StandsFor self.old h
            → StandsFor self.new (visited (params_at self.old) self.old.tick_ns h tick len lost)) }

        // The last tick is this one, and there is one visit more; parameters, changes and tick length stay.
        ensures last_tick { OnOk result (self.new.last_tick ≡ tick) }
        ensures visits { OnOk result (self.new.visits ≡ self.old.visits + 1) }
        ensures first { self.new.first ≡ self.old.first }
        ensures changes { self.new.changes ≡ self.old.changes }
        ensures tick_ns { self.new.tick_ns ≡ self.old.tick_ns }
        ensures err { OnErr result (self.new ≡ self.old) }

        // What is kept is above this tick, in order, and no longer than the greatest queue.
        ensures kept { OnOk result (All (λ finish. tick * self.old.tick_ns < finish) self.new.kept) }
        ensures rising { OnOk result (IsNonDecreasing self.new.kept) }
        ensures short { OnOk result (length self.new.kept ≤ greatest_queue self.old) }

        // A packet that passes waits and transmits for at most as long as the greatest queue of longest packets takes.
        ensures exit { IfOk result (λ step. IfPass step (λ exit.
            exit ≡ div_ceil self.new.last_finish self.old.tick_ns + (params_at self.old tick).latency_ticks)) }
        ensures bound { IfOk result (λ step. IfPass step (λ exit.
            self.new.last_finish ≤ tick * self.old.tick_ns + greatest_queue self.old * greatest_transmission self.old)) }
    {
        let now = tick * self.tick_ns;
        self.kept.reserve(1)?;
        drop_finished(&mut self.kept, now);
        self.in_force = in_force_at(&self.changes, self.in_force, tick);
        self.last_tick = tick;
        self.visits += 1;
        if lost {
            return Ok(Step::Lost);
        }
        let params = self.in_force.params;
        if self.kept.len() >= params.queue as usize {
            return Ok(Step::Full);
        }
        let finish = now.max(self.last_finish) + tx_ns(params.bps, len);
        keep_later(&mut self.kept, now, finish);
        self.last_finish = finish;
        Ok(Step::Pass {
            exit: finish.div_ceil(self.tick_ns) + params.latency_ticks,
        })
    }
}

/// Takes the finishes at or below `now` off the front.
fn drop_finished(times: &mut VecDeque<u64>, now: u64)
    requires { IsNonDecreasing times.old.items }
    ensures items { times.new.items ≡ above now times.old.items }
    ensures len { deque_len times.new ≤ deque_len times.old }
    ensures capacity { deque_capacity times.new ≡ deque_capacity times.old }
{
    while let Some(time) = times.front().copied() {
        if now < time {
            break;
        }
        let _ = times.pop_front();
    }
}

/// Puts a finish at the back, if it is above `now`.
fn keep_later(times: &mut VecDeque<u64>, now: u64, finish: u64)
    requires { deque_len times.old < deque_capacity times.old }
    ensures { times.new.items ≡ times.old.items ++ above now (finish ∷ []) }
{
    if now < finish {
        times.push_back_reserved(finish);
    }
}
