/// A node of a topology.
#[derive(Clone, Copy, Debug, PartialEq, Eq)]
pub struct Node {
    /// Its id, by which edges name it.
    pub id: u64,
    /// Its IPv4 address, first byte highest. A node with an address is an edge node.
    pub address: Option<u32>,
}

/// An edge as it is asked for. Its ends are ids of nodes.
#[derive(Clone, Copy, Debug, PartialEq, Eq)]
pub struct EdgeSpec {
    /// The id of the node that it leaves.
    pub source: u64,
    /// The id of the node that it enters.
    pub target: u64,
    /// Bandwidth, in bit/s.
    pub bps: u64,
    /// Latency, in microseconds.
    pub latency_us: u64,
    /// Queue limit, in packets.
    pub queue: u64,
    /// Loss, in ppm (parts in a million).
    pub ppm: u64,
}

/// A link of a topology, in one direction. Its ends are numbers of nodes.
#[derive(Clone, Copy, Debug, PartialEq, Eq)]
pub struct Link {
    /// The number of the node that it leaves.
    pub from: u32,
    /// The number of the node that it enters.
    pub to: u32,
    /// Bandwidth, in bit/s.
    pub bps: u64,
    /// Latency, in microseconds.
    pub latency_us: u32,
    /// Queue limit, in packets.
    pub queue: u32,
    /// Loss, in ppm (parts in a million).
    pub ppm: u32,
}
