//! The limits of the emulator. They are this project's own, but for the link types.
//!
//! A name that ends in `_MIN` or `_MAX` is the least or the greatest value that is allowed; every value is below one
//! whose name ends in `_END`.

// ---- a topology and the values of its links

/// Nodes of a topology, at most.
pub const NODES_MAX: usize = 4_096;

/// Links of a topology, at most.
pub const LINKS_MAX: usize = 32_768;

/// Edge nodes (nodes with an address) of a topology, at most.
pub const EDGE_NODES_MAX: usize = 512;

/// The least bandwidth, in bit/s.
pub const BPS_MIN: u64 = 1_000;

/// The greatest bandwidth, in bit/s.
pub const BPS_MAX: u64 = 1_000_000_000_000;

/// The greatest latency of a link, in microseconds.
pub const LINK_LATENCY_US_MAX: u32 = 10_000_000;

/// The least queue limit, in packets.
pub const QUEUE_MIN: u32 = 1;

/// The greatest queue limit, in packets.
pub const QUEUE_MAX: u32 = 1_000;

/// The greatest loss, in ppm (parts in a million).
pub const LOSS_PPM_MAX: u32 = 1_000_000;

// ---- pipes and routes

/// Arcs of a graph in which routes are looked for, at most.
pub const ARCS_MAX: usize = 262_144;

/// Frontiers that a walk goes in from the edge, or out from the core, at most.
pub const FRONTIERS_MAX: u32 = 4_096;

/// Pipes of a distilled topology, at most.
pub const PIPES_MAX: usize = 262_144;

/// The greatest latency of a pipe, in microseconds: that of a walk over all nodes.
pub const PIPE_LATENCY_US_MAX: u64 = 40_950_000_000;

/// The greatest latency of a pipe, in ticks.
pub const PIPE_LATENCY_TICKS_MAX: u64 = 41_000_000_000;

/// The keep of a pipe that loses nothing: every 32-bit word is below it.
pub const KEEP_MAX: u64 = 4_294_967_296;

/// Pipes on one route, at most.
pub const ROUTE_PIPES_MAX: usize = 255;

/// Pipes of `chain`, at most.
pub const CHAIN_PIPES_MAX: usize = 16;

/// Cores, at most.
pub const CORES_MAX: u32 = 16;

/// The window length, in ticks, where no packet goes from one core to another.
pub const LOOKAHEAD_MAX: u64 = 1_099_511_627_776;

// ---- time

/// The least tick length, in ns.
pub const TICK_NS_MIN: u64 = 1_000;

/// The greatest tick length, in ns.
pub const TICK_NS_MAX: u64 = 10_000_000;

/// The tick length where none is asked for, in ns.
pub const TICK_NS_DEFAULT: u64 = 100_000;

/// The longest transmission of one packet, in ns: that of the longest packet at the least bandwidth.
pub const TX_NS_MAX: u64 = 2_097_152_000_000;

/// Every time since the time base is below this, in ns.
pub const TIME_NS_END: u64 = 4_611_686_018_427_387_904;

/// A route delays a packet by less than this, in ns.
pub const ROUTE_DELAY_NS_END: u64 = 550_000_000_000_000_000;

/// A packet enters at a time below this, in ns: 3,600,005,000 s.
///
/// A record that is read has at most `RECORD_SECONDS_MAX` seconds and a fraction of less than 5,000 s.
pub const OUTPUT_NS_END: u64 = 3_600_005_000_000_000_000;

/// The time of a packet in a trace is below this, in ns: 2^32 s, since a record has 32 bits for the seconds.
pub const RECORD_NS_END: u64 = 4_294_967_296_000_000_000;

/// The seconds of a record that is read, at most.
pub const RECORD_SECONDS_MAX: u32 = 3_600_000_000;

// ---- packets and link types

/// Packets in a trace, at most.
pub const PACKETS_MAX: usize = 1_048_576;

/// The captured or original length of a packet, in bytes, at most.
pub const PACKET_BYTES_MAX: u32 = 262_144;

/// The link type of Ethernet frames (LINKTYPE_ETHERNET of tcpdump.org's list).
pub const LINK_TYPE_ETHERNET: u32 = 1;

/// The link type of IP packets without a frame (LINKTYPE_RAW).
pub const LINK_TYPE_RAW: u32 = 101;

/// The link type of IPv4 packets without a frame (LINKTYPE_IPV4).
pub const LINK_TYPE_IPV4: u32 = 228;

/// The link types that are read.
pub const LINK_TYPES: [u32; 3] = [LINK_TYPE_ETHERNET, LINK_TYPE_RAW, LINK_TYPE_IPV4];

// ---- files

/// Bytes read of a topology, at most.
pub const TOPOLOGY_BYTES_MAX: usize = 16_777_216;

/// Bytes read of a directory, at most.
pub const DIRECTORY_BYTES_MAX: usize = 16_777_216;

/// Bytes read of a trace, at most.
pub const TRACE_BYTES_MAX: usize = 268_435_456;

/// Bytes read of a journal, at most.
pub const JOURNAL_BYTES_MAX: usize = 268_435_456;

/// Changes of pipes' parameters in a directory, at most.
pub const CHANGES_MAX: usize = 65_536;

/// The last tick at which parameters may change.
pub const CHANGE_TICK_MAX: u64 = 1_099_511_627_776;

// ---- commands

/// Turns that `rehearse` takes in a generated order, at most.
pub const TURNS_MAX: u32 = 1_000_000;

/// Packets of a generated workload, at most.
pub const WORKLOAD_PACKETS_MAX: u32 = 200_000;

/// Moves of pipes between cores that `migrate` is given, at most.
pub const MOVES_MAX: usize = 64;

// ---- random early drop

/// The greatest weight of an average queue: the average moves by 1 / 2^shift of the difference.
pub const RED_SHIFT_MAX: u32 = 16;

/// The greatest number of waiting packets, on average, at which early drops begin.
pub const RED_MIN_MAX: u32 = 999;

/// The greatest number of waiting packets, on average, at which every packet is dropped.
pub const RED_MAX_MAX: u32 = 1_000;

/// The greatest probability of an early drop, in ppm (parts in a million).
pub const RED_EARLY_PPM_MAX: u32 = 1_000_000;
