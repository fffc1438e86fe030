ghost use Rattle.std.specs.Prelude.{◌≡◌, ◌∷◌, ◌+◌, ◌<◌, ◌≤◌, ◌%◌, ◌↔◌, [], length, ℕ, slice_index_or, max, IsTrue, IfOk, IfSome, MatchOption, OnOk, OnErr, slice_get};
ghost use Rattle.deadline_heap.specs.Bits.{IsClear, IsFirstSet, ring_bit};
ghost use Rattle.mn_base.specs.Among.{Among};
ghost use Rattle.mn_base.specs.declared.due.Due.{Due};
ghost use Rattle.deadline_heap.specs.Canonical.{placed, HasNoneOf};
ghost use Rattle.deadline_heap.specs.WheelView.{IsAhead};

use crate::marks::{WORDS, first_mark, set_mark, unmark};
use crate::slot::Slot;
use mn_base::{Due, NoMemory};
use std::alloc::Global;
use std::marker::Model;

/// Ticks ahead of the base that have a slot: one for each remainder.
pub(crate) const SLOTS: u64 = 1_024;

/// The visits of the ticks from the base up to, not including, base + 1,024, each in the slot of its tick's remainder.
/// The base only rises, and never past a visit, so all visits of one slot have one tick.
#[derive(Drop)]
pub(crate) struct Wheel {
    base: u64,
    slots: Vec<Slot>,
    /// A bit for each slot, set where the slot has a visit.
    marks: [u64; WORDS],
}

impl Model for Wheel {
    ghost use Rattle.deadline_heap.specs.declared.wheel.TheConstants.{SLOTS};
    ghost use Rattle.deadline_heap.specs.WheelView.{WheelView, visits_from, IsWheel};

    ghost Value = { WheelView };

    ghost view = { λ w. record { base = w.base; visits = visits_from w.slots.items w.base SLOTS } };

    ghost invariant = { λ w. IsWheel w.slots.items w.marks w.base };
}

/// As many empty slots as a wheel has.
fn empty_slots(alloc: Global) -> Result<Vec<Slot>, NoMemory>
    ensures count { IfOk result (λ slots. length slots.items ≡ SLOTS) }
    ensures empty { IfOk result (λ slots. (slot : ℕ) → slice_index_or slots.items slot [] ≡ []) }
{
    let mut slots = Vec::with_capacity(alloc, SLOTS as usize)?;
    for slot in 0..SLOTS {
        slots.push(Slot::new(alloc))?;
    }
    Ok(slots)
}

/// How many ticks from the base on the first slot lies that has a visit.
fn steps_ahead(marks: &[u64], base: u64) -> Option<u64>
    requires { length marks.now ≡ WORDS }
    ensures { MatchOption result (IsClear (ring_bit marks.now base) 0 SLOTS) (IsFirstSet (ring_bit marks.now base) 0 SLOTS) }
{
    let at = (base % SLOTS) as usize;
    match first_mark(marks, at) {
        Some(slot) => Some((slot - at) as u64),
        None => match first_mark(marks, 0) {
            Some(slot) => Some(slot as u64 + SLOTS - at as u64),
            None => None,
        },
    }
}

impl Wheel {
    pub(crate) fn new(alloc: Global) -> Result<Wheel, NoMemory>
        ensures { IfOk result (λ w. w ≡ record { base = 0; visits = [] }) }
    {
        Ok(Wheel {
            base: 0,
            slots: empty_slots(alloc)?,
            marks: [0; WORDS],
        })
    }

    /// Whether a tick has a slot.
    pub(crate) fn covers(&self, tick: u64) -> bool
        ensures { IsTrue result ↔ IsAhead self.now.base tick }
    {
        tick >= self.base && tick - self.base < SLOTS
    }

    /// The first visit, in canonical order.
    pub(crate) fn first(&self) -> Option<Due>
        ensures { result ≡ slice_get self.now.visits 0 }
    {
        let ahead = steps_ahead(&self.marks, self.base)?;
        let tick = self.base + ahead;
        let (packet, hop) = self.slots[(tick % SLOTS) as usize].first()?;
        Some(Due { tick, packet, hop })
    }

    /// Takes the first visit out. Its tick is the base from now on.
    pub(crate) fn pop(&mut self) -> Option<Due>
        ensures visits { MatchOption result (self.old.visits ≡ []) (λ due. self.old.visits ≡ due ∷ self.new.visits) }
        ensures base { IfSome result (λ due. self.new.base ≡ due.tick) }
    {
        let ahead = steps_ahead(&self.marks, self.base)?;
        let tick = self.base + ahead;
        let slot = (tick % SLOTS) as usize;
        let (packet, hop) = self.slots[slot].pop()?;
        let is_empty = self.slots[slot].is_empty();
        unmark(&mut self.marks, slot, is_empty);
        self.base = tick;
        Some(Due { tick, packet, hop })
    }

    /// Moves the base up to a tick that is past no visit. A base that is there or further stays.
    pub(crate) fn rise(&mut self, tick: u64)
        requires { (other : Due) → Among other self.old.visits → tick ≤ other.tick }
        ensures visits { self.new.visits ≡ self.old.visits }
        ensures base { self.new.base ≡ max self.old.base tick }
    {
        if self.base < tick {
            self.base = tick;
        }
    }

    /// Puts in a visit that has a slot, of a packet that isn't there.
    pub(crate) fn insert(&mut self, due: Due) -> Result<(), NoMemory>
        requires ahead { IsAhead self.old.base due.tick }
        requires fresh { HasNoneOf due.packet self.old.visits }
        ensures ok { OnOk result (self.new.visits ≡ placed due self.old.visits) }
        ensures err { OnErr result (self.new.visits ≡ self.old.visits) }
        ensures base { self.new.base ≡ self.old.base }
    {
        let slot = (due.tick % SLOTS) as usize;
        self.slots[slot].put(due.packet, due.hop)?;
        set_mark(&mut self.marks, slot);
        Ok(())
    }
}
