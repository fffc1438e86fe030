/// Why a pipe of the row dropped a packet.
#[derive(Clone, Copy, Debug, PartialEq, Eq)]
pub enum RedCause {
    /// The visit's loss word is at least the pipe's keep.
    Loss,
    /// Too many packets wait on average.
    Early,
    /// As many packets as the queue limit allows wait or transmit.
    Full,
}

/// What becomes of a packet.
#[derive(Clone, Copy, Debug, PartialEq, Eq)]
pub enum RedFate {
    /// It leaves the last pipe at this tick.
    Left {
        tick: u64,
    },
    /// This pipe drops it at this tick, for this cause.
    Dropped {
        pipe: u32,
        tick: u64,
        cause: RedCause,
    },
}
