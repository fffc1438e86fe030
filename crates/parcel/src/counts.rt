/// What became of the visits to one pipe.
#[derive(Clone, Copy, Debug, PartialEq, Eq)]
pub struct PipeCounts {
    /// The pipe's number.
    pub pipe: u32,
    /// Visits that passed.
    pub passed: u64,
    /// Visits that were lost: their loss words are at least the pipe's keep.
    pub lost: u64,
    /// Visits that found the queue full.
    pub full: u64,
}

/// What one core did in a run.
#[derive(Clone, Copy, Debug, PartialEq, Eq)]
pub struct CoreCounts {
    /// The pipes that it owns.
    pub pipes: u64,
    /// The bound packets that entered there.
    pub entered: u64,
    /// The visits that its pipes had.
    pub visits: u64,
    /// The visits that it told other cores of.
    pub arrivals: u64,
    /// The fates that it told other cores of.
    pub settles: u64,
    /// The windows that it ran.
    pub windows: u64,
}
