/// What comes of a visit to a pipe whose queue drops early.
#[derive(Clone, Copy, Debug, PartialEq, Eq)]
pub enum RedStep {
    /// The packet is lost: its loss word is at least the pipe's keep.
    Lost,
    /// The packet is dropped since too many wait on average, whether there is room or not.
    Early,
    /// The packet is dropped: as many packets as the queue limit allows wait or transmit.
    Full,
    /// The packet passes, and leaves the pipe at this tick.
    Pass { exit: u64 },
}
