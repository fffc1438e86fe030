ghost use Rattle.std.specs.Prelude.{◌≡◌};

/// The keys that are read of a topology.
#[derive(Clone, Copy, Debug, PartialEq, Eq)]
pub enum Key {
    /// Whether edges go one way alone.
    Directed,
    /// A node.
    Node,
    /// An edge.
    Edge,
    /// The id of a node.
    Id,
    /// The IPv4 address of a node.
    Address,
    /// The id of the node that an edge leaves.
    Source,
    /// The id of the node that an edge enters.
    Target,
    /// The bandwidth of an edge, in bit/s.
    Bandwidth,
    /// The latency of an edge, in microseconds.
    Latency,
    /// The queue limit of an edge, in packets.
    Queue,
    /// The loss of an edge, in ppm.
    Loss,
}

impl Key {
    ghost use Rattle.topo.specs.Keys.{key_name};

    /// The key as GML spells it.
    pub fn name(self) -> &'static str
        ensures { result.now ≡ key_name self }
    {
        match self {
            Key::Directed => "directed",
            Key::Node => "node",
            Key::Edge => "edge",
            Key::Id => "id",
            Key::Address => "address",
            Key::Source => "source",
            Key::Target => "target",
            Key::Bandwidth => "bandwidth",
            Key::Latency => "latency",
            Key::Queue => "queue",
            Key::Loss => "loss",
        }
    }
}
