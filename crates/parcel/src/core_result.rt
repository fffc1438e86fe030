use crate::counts::{CoreCounts, PipeCounts};
use journal::Fate;
use mn_base::Bytes;
use std::marker::Model;

/// A packet whose fate is known at the core where it entered.
#[derive(Drop)]
pub struct Settled {
    /// The packet's number.
    pub packet: u32,
    /// What became of it.
    pub fate: Fate,
    /// Its captured bytes, if it left; a packet that was dropped has none.
    pub bytes: Option<Bytes>,
}

/// What one core has at the end of a run.
#[derive(Drop)]
pub struct CoreResult {
    /// The packets that entered there, each once, in the order in which they were settled.
    pub settled: Vec<Settled>,
    /// The counts of its pipes, in pipe order.
    pub pipe_counts: Vec<PipeCounts>,
    /// What it did.
    pub counts: CoreCounts,
}

impl Model for CoreResult {
    ghost use Rattle.parcel.specs.CoreResultView.{CoreResultView};

    ghost Value = { CoreResultView };

    ghost view = { λ r. record { settled = r.settled.items; pipe_counts = r.pipe_counts.items; counts = r.counts } };
}
