ghost use Rattle.std.specs.Prelude.{◌≡◌, ℕ, ◌+◌, ◌*◌, ◌<◌, ◌≤◌, ◌∷◌, ◌++◌, Bool, false, List, [], IfOk, OnOk, OnErr, length, nat_le};
ghost use Rattle.std.specs.List.{prefix_len};
ghost use Rattle.std.specs.List.Sorted.{IsNonDecreasing};
ghost use Rattle.std.specs.VecDeque.{deque_len, deque_capacity};
ghost use Rattle.mn_base.specs.Ranges.{IsTickLength};
ghost use Rattle.mn_base.specs.declared.limits.TheConstants.{PACKET_BYTES_MAX, TIME_NS_END};
ghost use Rattle.pipe.specs.Finishes.{above};
ghost use Rattle.red_queue.specs.Ranges.{IsRedParams};
ghost use Rattle.red_queue.specs.Outcome.{RedPast, red_outcome, red_visited};
ghost use Rattle.red_queue.specs.QueueView.{RedStandsFor, idle_red_view, red_stay, IfRedPass};

use crate::averages::{aged_by, is_early, words_decide};
use crate::params::RedParams;
use crate::step::RedStep;
use mn_base::{NoMemory, tx_ns};
use std::alloc::Global;
use std::collections::VecDeque;
use std::marker::Model;

/// One pipe whose queue drops early, after RED (random early detection, Floyd and Jacobson 1993), with what it remembers of its
/// visits: the last tick, the last finish, the finishes that may still count, and how many packets waited on average.
///
/// The average is in 1/65,536 packets. It doesn't age while no packet comes, and no count since the last drop is kept.
#[derive(Drop)]
pub struct RedPipe {
    params: RedParams,
    tick_ns: u64,
    last_tick: u64,
    last_finish: u64,
    kept: VecDeque<u64>,
    average: u64,
}

impl Model for RedPipe {
    ghost use Rattle.red_queue.specs.QueueView.{RedPipeView};
    ghost use Rattle.red_queue.specs.Inside.{red_view_of, IsRedSound};

    ghost Value = { RedPipeView };

    ghost view = { red_view_of };

    ghost invariant = { IsRedSound };
}

impl RedPipe {
    /// A pipe without visits, for ticks of `tick_ns` ns. Takes no memory.
    pub fn new(alloc: Global, params: RedParams, tick_ns: u64) -> RedPipe
        requires tick { IsTickLength tick_ns }
        requires params { IsRedParams params }
        ensures idle { result ≡ idle_red_view params tick_ns }
        ensures stands { RedStandsFor result [] }
    {
        RedPipe {
            params,
            tick_ns,
            last_tick: 0,
            last_finish: 0,
            kept: VecDeque::new(alloc),
            average: 0,
        }
    }

    /// Whether what comes of a visit at `tick` may depend on its early word: where not, no word needs to be made.
    pub(crate) fn asks_word(&self, tick: u64) -> bool
        requires order { self.now.last_tick ≤ tick }
        requires time { tick * self.now.tick_ns < TIME_NS_END }
        ensures { result ≡ false → (h : List RedPast) → RedStandsFor self.now h → (len word other : ℕ) (lost : Bool)
            → red_outcome self.now.params self.now.tick_ns h tick len lost word
            ≡ red_outcome self.now.params self.now.tick_ns h tick len lost other }
    {
        let waiting = count_above(&self.kept, tick * self.tick_ns);
        let average = aged_by(self.params, self.average, waiting);
        words_decide(self.params, average)
    }

    /// Adds a visit at `tick` by a packet of `len` bytes, and says what comes of it. `lost` says that its loss word is at least the
    /// pipe's keep. Its early word decides where the average is from `min` up to, not including, `max`.
    ///
    /// With shift 0, min 1 and max 2 the third of three packets at one tick is dropped early. `NoMemory` leaves the pipe as it was.
    pub fn visit(
        &mut self,
        tick: u64,
        len: u32,
        lost: bool,
        early_word: u32,
    ) -> Result<RedStep, NoMemory>
        requires order { self.old.last_tick ≤ tick }
        requires time { tick * self.old.tick_ns < TIME_NS_END }
        requires len { len ≤ PACKET_BYTES_MAX }

        // The outcome, for each list of earlier visits that this pipe stands for.
        ensures step { IfOk result (λ step. (h : List RedPast) → RedStandsFor self.old h
            → step ≡ red_outcome self.old.params self.old.tick_ns h tick len lost early_word) }
        ensures stands { OnOk result ((h : List RedPast) → RedStandsFor self.old h
            → RedStandsFor self.new (red_visited self.old.params self.old.tick_ns h tick len lost early_word)) }

        // The last tick is this one; parameters and tick length stay.
        ensures last_tick { OnOk result (self.new.last_tick ≡ tick) }
        ensures params { self.new.params ≡ self.old.params }
        ensures tick_ns { self.new.tick_ns ≡ self.old.tick_ns }
        ensures err { OnErr result (self.new ≡ self.old) }

        // A packet that passes leaves within the latency, two ticks of rounding and a full queue of the longest packets.
        ensures stay { IfOk result (λ step. IfRedPass step (λ exit.
            exit * self.old.tick_ns ≤ tick * self.old.tick_ns + red_stay self.old.tick_ns self.old.params)) }
    {
        let now = tick * self.tick_ns;
        self.kept.reserve(1)?;
        drop_finished(&mut self.kept, now);
        self.last_tick = tick;
        if lost {
            return Ok(RedStep::Lost);
        }
        let params = self.params;
        let waiting = self.kept.len() as u64;
        self.average = aged_by(params, self.average, waiting);
        if is_early(params, self.average, early_word) {
            return Ok(RedStep::Early);
        }
        if waiting >= u64::from(params.base.queue) {
            return Ok(RedStep::Full);
        }
        let finish = now.max(self.last_finish) + tx_ns(params.base.bps, len);
        keep_later(&mut self.kept, now, finish);
        self.last_finish = finish;
        Ok(RedStep::Pass {
            exit: finish.div_ceil(self.tick_ns) + params.base.latency_ticks,
        })
    }
}

/// How many finishes are above `now`: all but those at the front that aren't.
fn count_above(times: &VecDeque<u64>, now: u64) -> u64
    requires { IsNonDecreasing times.now.items }
    ensures value { result ≡ length (above now times.now.items) }
    ensures few { result ≤ length times.now.items }
{
    let gone = count_gone(times, now);
    (times.len() - gone) as u64
}

/// How many finishes at the front are at or below `now`.
fn count_gone(times: &VecDeque<u64>, now: u64) -> usize
    ensures value { result ≡ prefix_len (λ time. nat_le time now) times.now.items }
    ensures few { result ≤ length times.now.items }
{
    times.iter().take_while(|time| **time <= now).count()
}

/// Takes the finishes at or below `now` off the front.
fn drop_finished(times: &mut VecDeque<u64>, now: u64)
    requires { IsNonDecreasing times.old.items }
    ensures items { times.new.items ≡ above now times.old.items }
    ensures len { deque_len times.new ≤ deque_len times.old }
    ensures capacity { deque_capacity times.new ≡ deque_capacity times.old }
{
    while let Some(time) = times.front().copied() {
        if now < time {
            break;
        }
        let _ = times.pop_front();
    }
}

/// Puts a finish at the back, if it is above `now`.
fn keep_later(times: &mut VecDeque<u64>, now: u64, finish: u64)
    requires { deque_len times.old < deque_capacity times.old }
    ensures { times.new.items ≡ times.old.items ++ above now (finish ∷ []) }
{
    if now < finish {
        times.push_back_reserved(finish);
    }
}
