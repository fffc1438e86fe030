ghost use Rattle.std.specs.Prelude.{◌≡◌, ◌+◌, ◌*◌, ◌≤◌, length, IfOk};
ghost use Rattle.mn_base.specs.declared.limits.TheConstants.{WORKLOAD_PACKETS_MAX, TOPOLOGY_BYTES_MAX, TRACE_BYTES_MAX};
ghost use Rattle.pcap_io.specs.Reading.{Pcap};
ghost use Rattle.pcap_io.specs.Writing.{pcap_text};
ghost use Rattle.workload.specs.Gml.{workload_gml};
ghost use Rattle.workload.specs.Trace.{workload_trace};

use crate::gml::gml_text;
use crate::trace::trace_text;
use mn_base::limits::WORKLOAD_PACKETS_MAX;
use mn_base::{Bytes, Draws, NoMemory};
use std::alloc::Global;

/// The two texts that a number stands for: a topology in GML, and a capture of `packets` packets between its hosts.
///
/// The topology is a ring of 16 routers with eight chords across it and 64 hosts with the addresses 10.0.0.1 to 10.0.0.64.
/// Bandwidths, latencies and losses are drawn, and then for each packet its source, its destination, its length of 60 to
/// 1,500 bytes and the time to the next packet, all from one stream of draws that starts at the number.
pub fn workload(alloc: Global, number: u64, packets: u32) -> Result<(Bytes, Bytes), NoMemory>
    requires least { 1 ≤ packets }
    requires most { packets ≤ WORKLOAD_PACKETS_MAX }
    ensures gml { IfOk result (λ texts. texts.0 ≡ workload_gml number) }
    ensures trace { IfOk result (λ texts. texts.1 ≡ pcap_text (workload_trace number packets)) }
    ensures reads_back { IfOk result (λ texts. Pcap texts.1 (workload_trace number packets)) }
    ensures trace_length { IfOk result (λ texts. length texts.1 ≡ 24 + 36 * packets) }
    ensures gml_fits { IfOk result (λ texts. length texts.0 ≤ TOPOLOGY_BYTES_MAX) }
    ensures trace_fits { IfOk result (λ texts. length texts.1 ≤ TRACE_BYTES_MAX) }
{
    let mut draws = Draws::new(number);
    let gml = gml_text(alloc, &mut draws)?;
    let trace = trace_text(alloc, &mut draws, packets)?;
    Ok((Bytes::from_vec(gml.into_bytes()), Bytes::from_vec(trace)))
}
