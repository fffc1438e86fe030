ghost use Rattle.std.specs.Prelude.{◌≡◌};
ghost use Rattle.parcel.specs.Parcels.{fate_tick, note_tick, note_packet};

use journal::Fate;

/// What one core tells another in a parcel.
#[derive(Clone, Copy, Debug, PartialEq, Eq)]
pub enum Note {
    /// A packet comes to a pipe of the other core: to this hop of its route, at this tick.
    Arrive { packet: u32, hop: u32, tick: u64 },
    /// What becomes of a packet that entered at the other core.
    Settle { packet: u32, fate: Fate },
}

impl Note {
    /// The tick at which it stands: that of the visit, or that at which the packet left or was dropped.
    pub fn tick(&self) -> u64
        ensures { result ≡ note_tick self.now }
    {
        match *self {
            Note::Arrive { tick, .. } => tick,
            Note::Settle { fate, .. } => tick_of(fate),
        }
    }

    /// The packet that it tells of.
    pub fn packet(&self) -> u32
        ensures { result ≡ note_packet self.now }
    {
        match *self {
            Note::Arrive { packet, .. } => packet,
            Note::Settle { packet, .. } => packet,
        }
    }
}

/// The tick at which a packet leaves or is dropped.
fn tick_of(fate: Fate) -> u64
    ensures { result ≡ fate_tick fate }
{
    match fate {
        Fate::Left { tick } => tick,
        Fate::Dropped { tick, .. } => tick,
    }
}
