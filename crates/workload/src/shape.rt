//! How many of each thing a workload has, and how many draws its parts take.

/// Routers, in a ring.
pub const ROUTERS: u32 = 16;

/// Hosts, each on one router.
pub const HOSTS: u32 = 64;

/// Edges from a router to the one across the ring, which is as many routers away.
pub const CHORDS: u32 = 8;

/// Bandwidths are multiples of this, in bit/s: 10 Mbit/s. That of a host is one of it.
pub const BANDWIDTH_STEP: u32 = 10 * 1_000 * 1_000;

/// Draws of the edges of the ring: three for each.
pub const RING_DRAWS: u32 = 48;

/// Draws of the chords: three for each.
pub const CHORD_DRAWS: u32 = 24;

/// Draws of the GML text: those of ring and chords, and one for each host.
pub const GML_DRAWS: u32 = 136;
