/// Why a pipe dropped a packet.
#[derive(Clone, Copy, Debug, PartialEq, Eq)]
pub enum Cause {
    /// The visit's loss word is at least the pipe's keep.
    Loss,
    /// As many packets as the queue limit allows wait or transmit already.
    Full,
}

/// Why a packet of a trace is bound to no route.
#[derive(Clone, Copy, Debug, PartialEq, Eq)]
pub enum Unbound {
    /// Too few captured bytes for the headers.
    Short,
    /// The header isn't one of IPv4 (RFC 791).
    NotIpv4,
    /// No node has the source address.
    NoSource,
    /// No node has the destination address.
    NoDestination,
    /// No route leads from the source to the destination.
    NoRoute,
    /// The least route has more than 255 pipes.
    TooFar,
}
