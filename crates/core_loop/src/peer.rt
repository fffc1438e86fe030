use parcel::Parcel;
use std::marker::Model;

/// What a core keeps of a core. Of itself it keeps its least tick alone.
#[derive(Drop)]
pub(crate) struct Peer {
    /// How many parcels were posted to it.
    pub posted: u64,
    /// How many parcels were taken from it.
    pub taken: u64,
    /// The parcel that is still to be posted to it.
    pub owed: Option<Parcel>,
    /// Of another core, the least tick in the parcel that was taken last; of itself, the least of which it knew as it made its parcels
    /// last. None where there is none.
    pub least: Option<u64>,
}

impl Model for Peer {
    ghost use Rattle.core_loop.specs.CoreView.{PeerView};

    ghost Value = { PeerView };

    ghost view = { λ p. record { posted = p.posted; taken = p.taken; owed = p.owed; least = p.least } };
}
