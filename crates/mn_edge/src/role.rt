ghost use Rattle.std.specs.Prelude.{◌≡◌, ◌<◌};
ghost use Rattle.mn_edge.specs.Role.{index_of_role, is_input};

/// What a file or a stream is to a command. The order of the roles is the order in which a command uses them.
#[derive(Clone, Copy, Debug, PartialEq, Eq)]
pub enum Role {
    /// The topology that is read, a GML file.
    Topology,
    /// The trace that is read, a pcap file.
    Trace,
    /// The directory that is read: the owner of each pipe.
    Directory,
    /// The journal that is read: the visits that a run is said to make.
    Journal,
    /// The output trace, a pcap file.
    Out,
    /// The report that is written.
    Report,
    /// What is printed to the terminal.
    Screen,
}

impl Role {
    /// How many roles there are.
    pub const COUNT: usize = 7;

    /// The index of the role in the order in which a command uses them, from 0.
    pub fn index(self) -> usize
        ensures index { result ≡ index_of_role self }
        ensures within { result < Self.COUNT }
    {
        self as usize
    }

    /// Whether the role is read. All others are written.
    pub fn is_input(self) -> bool
        ensures input { result ≡ is_input self }
    {
        self.index() < Role::Out.index()
    }
}
