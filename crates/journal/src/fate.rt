use mn_base::Cause;

/// What becomes of a packet.
#[derive(Clone, Copy, Debug, PartialEq, Eq)]
pub enum Fate {
    /// It leaves the last pipe of its route at this tick; with an empty route that is its entry tick.
    Left { tick: u64 },
    /// This pipe drops it at this tick, for this cause.
    Dropped { pipe: u32, tick: u64, cause: Cause },
}
