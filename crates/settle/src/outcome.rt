use mn_base::{Bytes, Cause};
use parcel::{CoreCounts, PipeCounts};
use std::marker::Model;

/// A packet that left.
#[derive(Drop)]
pub struct Leaving {
    /// The tick at which it left.
    pub tick: u64,
    /// The packet's number.
    pub packet: u32,
    /// Its captured bytes, as they came.
    pub bytes: Bytes,
}

/// A packet that a pipe dropped.
#[derive(Clone, Copy, Debug, PartialEq, Eq)]
pub struct DropLine {
    /// The packet's number.
    pub packet: u32,
    /// The pipe that dropped it.
    pub pipe: u32,
    /// The tick at which it came to that pipe.
    pub tick: u64,
    /// Why the pipe dropped it.
    pub cause: Cause,
}

/// What came of a run, in the order in which it is written: leaving by (tick, packet), dropped by packet, counts by
/// pipe and by core.
#[derive(Drop)]
pub struct Outcome {
    /// The packets that left.
    pub leaving: Vec<Leaving>,
    /// The packets that were dropped.
    pub dropped: Vec<DropLine>,
    /// The counts of each pipe.
    pub pipe_counts: Vec<PipeCounts>,
    /// The counts of each core.
    pub cores: Vec<CoreCounts>,
}

impl Model for Outcome {
    ghost use Rattle.settle.specs.OutcomeView.{OutcomeView};

    ghost Value = { OutcomeView };

    ghost view = { λ o. record {
      leaving = o.leaving.items;
      dropped = o.dropped.items;
      pipe_counts = o.pipe_counts.items;
      cores = o.cores.items;
    } };
}
