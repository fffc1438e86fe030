use crate::step::RedStep;

/// One visit of a packet to a pipe of the row.
#[derive(Clone, Copy, Debug, PartialEq, Eq)]
pub struct RedVisit {
    /// The tick at which the packet comes to the pipe.
    pub tick: u64,
    /// The packet's number.
    pub packet: u32,
    /// The pipe's number, which is its place in the row, from 0.
    pub hop: u32,
    /// What comes of it.
    pub step: RedStep,
}
