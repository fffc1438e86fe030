ghost use Rattle.std.specs.Prelude.{◌≡◌, ◌≢◌, map, AllPairs};
ghost use Rattle.std.specs.List.Sorted.{IsPermutation};
ghost use Rattle.parcel.specs.Parcels.{note_packet, NoteBefore};

use crate::note::Note;
use std::marker::Model;

/// What one core tells another between two windows.
#[derive(Drop)]
pub struct Parcel {
    /// The notes, by tick and then by packet. The note of a fate stands at the tick at which the packet left or was dropped.
    pub notes: Vec<Note>,
    /// The least tick of a visit of which the sender knows as it makes the parcel; none where it knows of none.
    pub least: Option<u64>,
}

impl Model for Parcel {
    ghost use Rattle.parcel.specs.ParcelView.{ParcelView};

    ghost Value = { ParcelView };

    ghost view = { λ p. record { notes = p.notes.items; least = p.least } };
}

impl Parcel {
    /// The parcel of these notes, which are put in order, and this least tick. It takes no memory.
    pub fn in_order(notes: Vec<Note>, least: Option<u64>) -> Parcel
        // no packet has two of them
        requires { AllPairs (λ a b. a ≢ b) (map note_packet notes.items) }
        ensures rises { AllPairs NoteBefore result.notes }
        ensures same { IsPermutation notes.items result.notes }
        ensures least { result.least ≡ least }
    {
        let mut notes = notes;
        notes.sort_unstable_by_key(|note| (note.tick(), note.packet()));
        Parcel { notes, least }
    }
}
