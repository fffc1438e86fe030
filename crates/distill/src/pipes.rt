use mn_base::PipeParams;

/// A pipe of a distilled topology, in one direction. Its ends are numbers of nodes.
#[derive(Clone, Copy, Debug, PartialEq, Eq)]
pub struct DistilledPipe {
    /// The number of the node that it leaves.
    pub from: u32,
    /// The number of the node that it enters.
    pub to: u32,
    /// What it does to packets.
    pub params: PipeParams,
    /// How many links it stands for.
    pub links: u32,
}

/// A topology has more than `PIPES_MAX` pipes in a mode.
#[derive(Clone, Copy, Debug, PartialEq, Eq)]
pub struct TooManyPipes {
    /// How many it has.
    pub count: u64,
}
