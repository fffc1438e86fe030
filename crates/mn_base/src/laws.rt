//! What holds of the definitions. These functions compute nothing: their clauses are the facts.

ghost use Rattle.std.specs.Prelude.{◌≡◌, [], ◌∷◌};
ghost use Rattle.mn_base.specs.Laws.{DecimalReadsBack};

use crate::limits::{
    ARCS_MAX, BPS_MAX, BPS_MIN, CHAIN_PIPES_MAX, CHANGE_TICK_MAX, CHANGES_MAX, CORES_MAX,
    DIRECTORY_BYTES_MAX, EDGE_NODES_MAX, FRONTIERS_MAX, JOURNAL_BYTES_MAX, KEEP_MAX,
    LINK_LATENCY_US_MAX, LINK_TYPE_ETHERNET, LINK_TYPE_IPV4, LINK_TYPE_RAW, LINK_TYPES, LINKS_MAX,
    LOOKAHEAD_MAX, LOSS_PPM_MAX, MOVES_MAX, NODES_MAX, OUTPUT_NS_END, PACKET_BYTES_MAX,
    PACKETS_MAX, PIPE_LATENCY_TICKS_MAX, PIPE_LATENCY_US_MAX, PIPES_MAX, QUEUE_MAX, QUEUE_MIN,
    RECORD_NS_END, RECORD_SECONDS_MAX, RED_EARLY_PPM_MAX, RED_MAX_MAX, RED_MIN_MAX, RED_SHIFT_MAX,
    ROUTE_DELAY_NS_END, ROUTE_PIPES_MAX, TICK_NS_DEFAULT, TICK_NS_MAX, TICK_NS_MIN, TIME_NS_END,
    TOPOLOGY_BYTES_MAX, TRACE_BYTES_MAX, TURNS_MAX, TX_NS_MAX, WORKLOAD_PACKETS_MAX,
};

/// The limits in numbers, so that no constant changes unseen.
pub fn limits_in_numbers()
    ensures nodes_max { NODES_MAX ≡ 4096 }
    ensures links_max { LINKS_MAX ≡ 32768 }
    ensures edge_nodes_max { EDGE_NODES_MAX ≡ 512 }
    ensures bps_min { BPS_MIN ≡ 1000 }
    ensures bps_max { BPS_MAX ≡ 1000000000000 }
    ensures link_latency_us_max { LINK_LATENCY_US_MAX ≡ 10000000 }
    ensures queue_min { QUEUE_MIN ≡ 1 }
    ensures queue_max { QUEUE_MAX ≡ 1000 }
    ensures loss_ppm_max { LOSS_PPM_MAX ≡ 1000000 }
    ensures arcs_max { ARCS_MAX ≡ 262144 }
    ensures frontiers_max { FRONTIERS_MAX ≡ 4096 }
    ensures pipes_max { PIPES_MAX ≡ 262144 }
    ensures pipe_latency_us_max { PIPE_LATENCY_US_MAX ≡ 40950000000 }
    ensures pipe_latency_ticks_max { PIPE_LATENCY_TICKS_MAX ≡ 41000000000 }
    ensures keep_max { KEEP_MAX ≡ 4294967296 }
    ensures route_pipes_max { ROUTE_PIPES_MAX ≡ 255 }
    ensures chain_pipes_max { CHAIN_PIPES_MAX ≡ 16 }
    ensures cores_max { CORES_MAX ≡ 16 }
    ensures lookahead_max { LOOKAHEAD_MAX ≡ 1099511627776 }
    ensures tick_ns_min { TICK_NS_MIN ≡ 1000 }
    ensures tick_ns_max { TICK_NS_MAX ≡ 10000000 }
    ensures tick_ns_default { TICK_NS_DEFAULT ≡ 100000 }
    ensures tx_ns_max { TX_NS_MAX ≡ 2097152000000 }
    ensures time_ns_end { TIME_NS_END ≡ 4611686018427387904 }
    ensures route_delay_ns_end { ROUTE_DELAY_NS_END ≡ 550000000000000000 }
    ensures output_ns_end { OUTPUT_NS_END ≡ 3600005000000000000 }
    ensures record_ns_end { RECORD_NS_END ≡ 4294967296000000000 }
    ensures record_seconds_max { RECORD_SECONDS_MAX ≡ 3600000000 }
    ensures packets_max { PACKETS_MAX ≡ 1048576 }
    ensures packet_bytes_max { PACKET_BYTES_MAX ≡ 262144 }
    ensures link_type_ethernet { LINK_TYPE_ETHERNET ≡ 1 }
    ensures link_type_raw { LINK_TYPE_RAW ≡ 101 }
    ensures link_type_ipv4 { LINK_TYPE_IPV4 ≡ 228 }
    ensures link_types { LINK_TYPES ≡ LINK_TYPE_ETHERNET ∷ LINK_TYPE_RAW ∷ LINK_TYPE_IPV4 ∷ [] }
    ensures topology_bytes_max { TOPOLOGY_BYTES_MAX ≡ 16777216 }
    ensures directory_bytes_max { DIRECTORY_BYTES_MAX ≡ 16777216 }
    ensures trace_bytes_max { TRACE_BYTES_MAX ≡ 268435456 }
    ensures journal_bytes_max { JOURNAL_BYTES_MAX ≡ 268435456 }
    ensures changes_max { CHANGES_MAX ≡ 65536 }
    ensures change_tick_max { CHANGE_TICK_MAX ≡ 1099511627776 }
    ensures turns_max { TURNS_MAX ≡ 1000000 }
    ensures workload_packets_max { WORKLOAD_PACKETS_MAX ≡ 200000 }
    ensures moves_max { MOVES_MAX ≡ 64 }
    ensures red_shift_max { RED_SHIFT_MAX ≡ 16 }
    ensures red_min_max { RED_MIN_MAX ≡ 999 }
    ensures red_max_max { RED_MAX_MAX ≡ 1000 }
    ensures red_early_ppm_max { RED_EARLY_PPM_MAX ≡ 1000000 }
{}

/// A number below 2^64, printed as a decimal, reads back as itself.
pub fn decimal_reads_back()
    ensures { DecimalReadsBack }
{}
