/// A port of a core, named by the other core.
#[derive(Clone, Copy, Debug, PartialEq, Eq)]
pub enum PortName {
    /// The box to that core.
    Post(u32),
    /// The box from that core.
    Take(u32),
}

/// What came of a turn of a core.
#[derive(Clone, Copy, Debug, PartialEq, Eq)]
pub enum Turn {
    /// It posted or took a parcel or ran a window, and isn't done.
    Moved,
    /// It did nothing: this port refused, and each other one refused that it still is to use in this round.
    Waiting { on: PortName },
    /// All its windows are run, and all its parcels are posted and taken.
    Done,
    /// It found no memory, now or in an earlier turn, and does nothing more.
    NoMemory,
}
