ghost use Rattle.std.specs.Prelude.{◌≡◌, ◌⊎◌, ◌+◌, ◌-◌, ◌*◌, ◌^◌, ◌<◌, ◌≤◌, OnOk, IfOk, IfErr, true, false, []};
ghost use Rattle.std.specs.Arc.{arc_value};

use crate::lane::Lane;
use crate::rule::{Claim, Clear, GATE, GateTable, Note, Post, Take, WORDS};
use atomic_table::Seat;
use std::alloc::Global;
use std::marker::Model;
use std::sync::Arc;

/// The box isn't free: the item comes back, with the gate word that was read.
#[derive(Drop)]
pub struct LaneBusy<T: Drop> {
    pub item: T,
    pub seen: u64,
}

/// No item is there yet: the gate word that was read.
#[derive(Clone, Copy, Debug, PartialEq, Eq)]
pub struct LaneEmpty {
    pub seen: u64,
}

/// The end that posts.
#[derive(Drop)]
pub struct Sender<L: Lane> {
    table: Arc<GateTable<L>, Global>,
    seat: Seat<Option<L::Item>, Note<L::Name>>,
    next: u64,
}

impl<L: Lane> Model for Sender<L> {
    ghost use Rattle.std.specs.Prelude.{true, false};
    ghost use Rattle.std.specs.Arc.{arc_value};
    ghost use Rattle.gate_box.specs.EndView.{EndView};
    ghost use Rattle.gate_box.specs.Gate.{IsSeated};

    ghost Value = { EndView L.Name };

    ghost view = { λ s. record { lane = s.seat.table_id; name = s.seat.me.0.name; next = s.next; misses = s.seat.me.0.misses; found = s.seat.me.0.found } };

    ghost invariant = { λ s. IsSeated s.seat.table_id (arc_value s.table).shared.table_id s.seat.me true false s.next };
}

/// The end that takes.
#[derive(Drop)]
pub struct Receiver<L: Lane> {
    table: Arc<GateTable<L>, Global>,
    seat: Seat<Option<L::Item>, Note<L::Name>>,
    next: u64,
}

impl<L: Lane> Model for Receiver<L> {
    ghost use Rattle.std.specs.Prelude.{true, false};
    ghost use Rattle.std.specs.Arc.{arc_value};
    ghost use Rattle.gate_box.specs.EndView.{EndView};
    ghost use Rattle.gate_box.specs.Gate.{IsSeated};

    ghost Value = { EndView L.Name };

    ghost view = { λ s. record { lane = s.seat.table_id; name = s.seat.me.0.name; next = s.next; misses = s.seat.me.0.misses; found = s.seat.me.0.found } };

    ghost invariant = { λ s. IsSeated s.seat.table_id (arc_value s.table).shared.table_id s.seat.me false true s.next };
}

impl<L: Lane> Sender<L> {
    /// The end of a table whose seat has the sender's role.
    pub(crate) fn at(
        table: Arc<GateTable<L>, Global>,
        seat: Seat<Option<L::Item>, Note<L::Name>>,
    ) -> Sender<L>
        requires table { seat.table_id ≡ (arc_value table).shared.table_id }
        requires one { (seat.table_id.words ≡ WORDS) × (seat.table_id.slots ≡ 1) }
        requires role { (seat.me.0.sends ≡ true) × (seat.me.0.receives ≡ false) }
        requires first { (seat.me.0.next ≡ 0) × (seat.me.0.holds ≡ false) × (seat.me.1 ≡ []) }
        ensures { result ≡ record { lane = seat.table_id; name = seat.me.0.name; next = 0; misses = seat.me.0.misses; found = seat.me.0.found } }
    {
        Sender {
            table,
            seat,
            next: 0,
        }
    }

    /// How many items were posted.
    pub fn next(&self) -> u64
        ensures { result ≡ self.now.next }
    {
        self.next
    }

    /// Posts the next item, where the box is free.
    pub fn try_post(&mut self, item: L::Item) -> Result<(), LaneBusy<L::Item>>
        requires item { L.is_item self.old.name self.old.next item }
        requires room { self.old.next < 2 ^ 60 }
        ensures lane { self.new.lane ≡ self.old.lane }
        ensures name { self.new.name ≡ self.old.name }
        ensures misses { self.old.misses ≤ self.new.misses }
        ensures ok { OnOk result (self.new ≡ record self.old { next = self.old.next + 1 }) }
        ensures same { IfErr result (λ busy. (busy.item ≡ item) × (self.new.next ≡ self.old.next)) }
        ensures missed { IfErr result (λ busy. self.new.misses ≡ self.old.misses + 1) }
        ensures seen { IfErr result (λ busy. (busy.seen ≡ self.new.found) × (0 < self.old.next)
            × ((busy.seen ≡ 4 * (self.old.next - 1) + 2) ⊎ (busy.seen ≡ 4 * (self.old.next - 1) + 3))) }
    {
        let free = 4 * self.next;
        let shared = &self.table.shared;
        let found = shared.compare_exchange::<Claim>(&mut self.seat, GATE, free, free + 1);
        if found != free {
            return Err(LaneBusy { item, seen: found });
        }
        match shared.exchange(&mut self.seat, 0, Some(item)) {
            None => {}
            Some(_) => unreachable!(),
        }
        shared.store::<Post>(&mut self.seat, GATE, free + 2);
        self.next += 1;
        Ok(())
    }
}

impl<L: Lane> Receiver<L> {
    /// The end of a table whose seat has the receiver's role.
    pub(crate) fn at(
        table: Arc<GateTable<L>, Global>,
        seat: Seat<Option<L::Item>, Note<L::Name>>,
    ) -> Receiver<L>
        requires table { seat.table_id ≡ (arc_value table).shared.table_id }
        requires one { (seat.table_id.words ≡ WORDS) × (seat.table_id.slots ≡ 1) }
        requires role { (seat.me.0.sends ≡ false) × (seat.me.0.receives ≡ true) }
        requires first { (seat.me.0.next ≡ 0) × (seat.me.0.holds ≡ false) × (seat.me.1 ≡ []) }
        ensures { result ≡ record { lane = seat.table_id; name = seat.me.0.name; next = 0; misses = seat.me.0.misses; found = seat.me.0.found } }
    {
        Receiver {
            table,
            seat,
            next: 0,
        }
    }

    /// How many items were taken.
    pub fn next(&self) -> u64
        ensures { result ≡ self.now.next }
    {
        self.next
    }

    /// Takes the next item, where it is there.
    pub fn try_take(&mut self) -> Result<L::Item, LaneEmpty>
        requires room { self.old.next < 2 ^ 60 }
        ensures lane { self.new.lane ≡ self.old.lane }
        ensures name { self.new.name ≡ self.old.name }
        ensures misses { self.old.misses ≤ self.new.misses }
        ensures item { IfOk result (λ item. L.is_item self.old.name self.old.next item) }
        ensures ok { OnOk result (self.new ≡ record self.old { next = self.old.next + 1 }) }
        ensures same { IfErr result (λ empty. self.new.next ≡ self.old.next) }
        ensures missed { IfErr result (λ empty. self.new.misses ≡ self.old.misses + 1) }
        ensures seen { IfErr result (λ empty. (empty.seen ≡ self.new.found) × (empty.seen < 4 * self.old.next + 2)) }
    {
        let round = 4 * self.next;
        let shared = &self.table.shared;
        let found = shared.compare_exchange::<Take<L>>(&mut self.seat, GATE, round + 2, round + 3);
        if found != round + 2 {
            return Err(LaneEmpty { seen: found });
        }
        let item = shared.exchange(&mut self.seat, 0, None).unwrap();
        shared.store::<Clear>(&mut self.seat, GATE, round + 4);
        self.next += 1;
        Ok(item)
    }
}
