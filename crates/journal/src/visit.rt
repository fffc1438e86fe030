use pipe::Step;

/// One visit of a packet to a pipe.
#[derive(Clone, Copy, Debug, PartialEq, Eq)]
pub struct Visit {
    /// The tick at which the packet comes to the pipe.
    pub tick: u64,
    /// The packet's number.
    pub packet: u32,
    /// The index of the pipe on the packet's route, from 0.
    pub hop: u32,
    /// The pipe's number.
    pub pipe: u32,
    /// What comes of it.
    pub step: Step,
}
