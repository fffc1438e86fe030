use distill::Mode;
use journal::LossBy;

/// What a run is asked for.
#[derive(Clone, Copy, Debug, PartialEq, Eq)]
pub struct Options {
    /// How much of the topology is kept.
    pub mode: Mode,
    /// The number of cores, from 1 to 16.
    pub cores: u32,
    /// The seed of the loss words.
    pub seed: u64,
    /// The tick length, in ns.
    pub tick_ns: u64,
    /// How loss words are numbered.
    pub loss: LossBy,
}
