//! The rule of the gate word and the steps on it. These types are for the proofs alone; no value of them is made.
use crate::lane::Lane;
use atomic_table::{Play, Split, Table, TableRule};
use std::alloc::Global;
use std::marker::PhantomData;

/// Words of a lane's table. All but the gate word stay 0: whatever the block's place, the cache line of the gate word lies inside it.
pub(crate) const WORDS: usize = 16;

/// Which of them is the gate word.
pub(crate) const GATE: usize = 8;

/// What a seat at the table knows.
pub struct Note<N> {
    pub sends: bool,
    pub receives: bool,
    pub next: u64,
    pub holds: bool,
    pub found: u64,
    pub misses: u64,
    pub name: N,
}

/// The word is `4n + phase`, and the slot and both seats stand as the phase says.
pub struct Gate<L> {
    lane: PhantomData<L>,
}

impl<L: Lane> TableRule<Option<L::Item>, Note<L::Name>, L::Name> for Gate<L> {
    ghost use Rattle.gate_box.specs.Gate.{LaneOk, both_roles};

    ghost holds = { LaneOk L.is_item };

    ghost first = { both_roles };
}

/// One seat becomes the sender's and the receiver's.
pub struct Roles;

impl<N> Split<Note<N>> for Roles {
    ghost use Rattle.gate_box.specs.Gate.{sender_note, receiver_note};

    ghost left = { sender_note };

    ghost right = { receiver_note };
}

/// The sender takes the box, or finds another word.
pub struct Claim;

impl<T, N> Play<Option<T>, Note<N>> for Claim {
    ghost use Rattle.gate_box.specs.Gate.{Claims};

    ghost then = { Claims };
}

/// The sender gives the box with the item in it.
pub struct Post;

impl<T, N> Play<Option<T>, Note<N>> for Post {
    ghost use Rattle.gate_box.specs.Gate.{Posts};

    ghost then = { Posts };
}

/// The receiver takes the box with the item in it, or finds another word.
pub struct Take<L> {
    lane: PhantomData<L>,
}

impl<L: Lane> Play<Option<L::Item>, Note<L::Name>> for Take<L> {
    ghost use Rattle.gate_box.specs.Gate.{TakesItem};

    ghost then = { TakesItem L.is_item };
}

/// The receiver gives the empty box.
pub struct Clear;

impl<T, N> Play<Option<T>, Note<N>> for Clear {
    ghost use Rattle.gate_box.specs.Gate.{Clears};

    ghost then = { Clears };
}

pub type GateTable<L> = Table<
    Option<<L as Lane>::Item>,
    Note<<L as Lane>::Name>,
    <L as Lane>::Name,
    Gate<L>,
    Global,
>;
