use mn_base::Bytes;
use std::marker::Model;

/// From this tick on a pipe has these parameters.
#[derive(Clone, Copy, Debug, PartialEq, Eq)]
pub struct Change {
    /// The tick, at most `CHANGE_TICK_MAX`.
    pub tick: u64,
    /// The number of the pipe.
    pub pipe: u32,
    /// Its bandwidth, in bit/s.
    pub bps: u64,
    /// Its latency, in microseconds.
    pub latency_us: u32,
    /// Its queue limit, in packets.
    pub queue: u32,
    /// Its loss, in ppm (parts in a million).
    pub ppm: u32,
}

/// What a directory text says.
#[derive(Drop)]
pub struct Split {
    /// A directory text of the first version, or the whole text where it isn't one of the second.
    pub directory: Bytes,
    /// The changes, by tick and then by pipe.
    pub changes: Vec<Change>,
}

impl Model for Split {
    ghost use Rattle.changes.specs.SplitView.{SplitView};

    ghost Value = { SplitView };

    ghost view = { λ s. record { directory = s.directory; changes = s.changes.items } };
}
