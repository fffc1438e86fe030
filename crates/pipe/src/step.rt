/// What comes of a visit to a pipe.
#[derive(Clone, Copy, Debug, PartialEq, Eq)]
pub enum Step {
    /// The packet is lost: its loss word is at least the pipe's keep.
    Lost,
    /// The packet is dropped: as many packets as the queue limit allows wait or transmit.
    Full,
    /// The packet passes, and leaves the pipe at this tick.
    Pass { exit: u64 },
}
