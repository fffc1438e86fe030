use parcel::Note;
use std::marker::Model;

/// A note, and the core for which it is.
#[derive(Drop)]
pub(crate) struct Told {
    pub receiver: u32,
    pub note: Note,
}

impl Model for Told {
    ghost use Rattle.parcel.specs.Told as told;

    ghost Value = { told.Told };

    ghost view = { λ t. record { receiver = t.receiver; note = t.note } };
}
