ghost use Rattle.std.specs.Prelude.{◌≡◌, ◌+◌, ◌*◌, ◌<◌, ◌≤◌, ◌∷◌, ◌++◌, nat_le, Some, [], List, length, slice_get, IfOk, OnOk, ℕ};
ghost use Rattle.mn_base.specs.Ranges.{IsTickLength};
ghost use Rattle.mn_base.specs.declared.limits.TheConstants.{PACKET_BYTES_MAX, TIME_NS_END};
ghost use Rattle.loss_words.specs.Word.{early_word};
ghost use Rattle.red_queue.specs.Ranges.{IsRedParams};
ghost use Rattle.red_queue.specs.Outcome.{RedPast};
ghost use Rattle.red_queue.specs.QueueView.{RedStandsFor, red_stay, IfRedPass};
ghost use Rattle.red_queue.specs.SetupView.{IsRedSetup};
ghost use Rattle.red_queue.specs.Making.{decided, outcome_by, loses, IsAtWork, AreIdle, AreAtWork};

use crate::queue::RedPipe;
use crate::setup::RedSetup;
use crate::step::RedStep;
use loss_words::{EarlyWords, PipeWords};
use mn_base::limits::KEEP_MAX;
use mn_base::{Due, NoMemory};
use std::alloc::Global;
use std::marker::Model;

/// A pipe of the row at work: what it remembers of its visits, its keep, and its words.
#[derive(Drop)]
pub(crate) struct AtWork {
    pipe: RedPipe,
    number: u32,
    keep: u64,
    losses: PipeWords,
    earlies: EarlyWords,
}

impl Model for AtWork {
    ghost use Rattle.red_queue.specs.Making.{AtWorkView};
    ghost use Rattle.red_queue.specs.AtWorkParts.{AreOwnParts};

    ghost Value = { AtWorkView };

    ghost view = { λ w. record { number = w.number; seed = w.earlies.seed; memory = w.pipe } };

    ghost invariant = { AreOwnParts };
}

/// The pipe of this number of the row, before any visit.
fn idle(alloc: Global, setup: &RedSetup, number: u32) -> AtWork
    requires setup { IsRedSetup setup.now }
    requires within { number < length setup.now.pipes }
    ensures { IsAtWork setup.now [] number result }
{
    let params = setup.pipes[number as usize];
    AtWork {
        pipe: RedPipe::new(alloc, params, setup.tick_ns),
        number,
        keep: params.base.keep,
        losses: PipeWords::new(setup.seed, number),
        earlies: EarlyWords::new(setup.seed, number),
    }
}

/// All pipes of the row, before any visit.
pub(crate) fn idle_pipes(alloc: Global, setup: &RedSetup) -> Result<Vec<AtWork>, NoMemory>
    requires { IsRedSetup setup.now }
    ensures { IfOk result (λ pipes. AreAtWork setup.now [] pipes.items) }
{
    let mut pipes = Vec::new(alloc);
    for number in 0..setup.pipes.len() as u32 {
        pipes.push(idle(alloc, setup, number))?;
    }
    Ok(pipes)
}

impl AtWork {
    /// Makes a visit that is due at this pipe, of a packet of `len` bytes: says what comes of it, for each list of earlier visits
    /// that the pipe stands for, and stands for that list with the visit added.
    pub(crate) fn decide(&mut self, due: Due, len: u32) -> Result<RedStep, NoMemory>
        requires order { self.old.memory.last_tick ≤ due.tick }
        requires time { due.tick * self.old.memory.tick_ns < TIME_NS_END }
        requires len { len ≤ PACKET_BYTES_MAX }
        ensures step { IfOk result (λ step. (h : List RedPast) → RedStandsFor self.old.memory h → step ≡ decided self.old h due len) }
        ensures stands { OnOk result ((h : List RedPast) → RedStandsFor self.old.memory h
            → RedStandsFor self.new.memory (h ++ record { tick = due.tick; len = len; step = decided self.old h due len } ∷ [])) }

        // It stays that pipe.
        ensures number { OnOk result (self.new.number ≡ self.old.number) }
        ensures seed { OnOk result (self.new.seed ≡ self.old.seed) }
        ensures params { OnOk result (self.new.memory.params ≡ self.old.memory.params) }
        ensures tick_ns { OnOk result (self.new.memory.tick_ns ≡ self.old.memory.tick_ns) }

        // A packet that passes leaves within the longest that the pipe may keep it.
        ensures stay { IfOk result (λ step. IfRedPass step (λ exit.
            exit * self.old.memory.tick_ns ≤ due.tick * self.old.memory.tick_ns + red_stay self.old.memory.tick_ns self.old.memory.params)) }
    {
        let lost = self.loses(due.packet);
        let word = self.word(due, lost);
        self.pipe.visit(due.tick, len, lost, word)
    }

    /// The packet's early word, or any number where nothing depends on it.
    fn word(&mut self, due: Due, lost: bool) -> u32
        requires order { self.old.memory.last_tick ≤ due.tick }
        requires time { due.tick * self.old.memory.tick_ns < TIME_NS_END }
        ensures word { (h : List RedPast) → RedStandsFor self.old.memory h → (len : ℕ)
            → outcome_by self.old h due len lost result ≡ outcome_by self.old h due len lost (early_word self.old.seed self.old.number due.packet) }
        ensures same { self.new ≡ self.old }
    {
        if lost {
            return 0;
        }
        if !self.pipe.asks_word(due.tick) {
            return 0;
        }
        self.earlies.word(due.packet)
    }

    /// Whether the packet's loss word is at least the keep. A pipe that loses nothing is asked for no word.
    fn loses(&mut self, packet: u32) -> bool
        ensures lost { result ≡ loses self.old packet }
        ensures same { self.new ≡ self.old }
    {
        if self.keep == KEEP_MAX {
            return false;
        }
        self.keep <= u64::from(self.losses.word(packet))
    }
}
