ghost use Rattle.std.specs.Prelude.{◌≡◌, ◌≢◌, ◌<◌, ◌≤◌, length, All, AllPairs, IfOk, IsSome};
ghost use Rattle.mn_base.specs.Times.{output_time};
ghost use Rattle.mn_base.specs.declared.limits.TheConstants.{PACKET_BYTES_MAX, RECORD_NS_END};
ghost use Rattle.journal.specs.SetupView.{packet_of, len_of};
ghost use Rattle.report.specs.Traces.{trace_of, packet_left};

use journal::Setup;
use mn_base::NoMemory;
use pcap_io::{Packet, Trace};
use settle::Leaving;
use std::alloc::Global;

/// The trace of the packets that left, in the given order: each with its captured bytes and its original length, at the
/// time of its tick in ns. A packet that leaves at tick x has the time `base_ns + x * tick_ns`.
pub fn out_trace(alloc: Global, setup: &Setup, leaving: Vec<Leaving>) -> Result<Trace, NoMemory>
    requires of_setup { All (λ left. IsSome (packet_of setup.now left.packet)) leaving.items }
    requires different { AllPairs (λ a b. a.packet ≢ b.packet) leaving.items }
    requires lengths { All (λ left. length left.bytes ≤ PACKET_BYTES_MAX) leaving.items }
    requires times { All (λ left. output_time setup.now.base_ns setup.now.tick_ns left.tick < RECORD_NS_END) leaving.items }
    ensures { IfOk result (λ trace. trace ≡ trace_of setup.now leaving.items) }
{
    let parts = setup.parts();
    let mut packets = Vec::with_capacity(alloc, leaving.len())?;
    for left in leaving {
        let original = original_len(setup, left.packet);
        packets.push(Packet {
            time_ns: parts.base_ns + left.tick * parts.tick_ns,
            original,
            bytes: left.bytes,
        })?;
    }
    Ok(Trace::new(parts.link_type, packets))
}

/// The original length of a packet of the setup, in bytes.
fn original_len(setup: &Setup, number: u32) -> u32
    ensures { result ≡ len_of setup.now number }
{
    setup.find(number).map_or(0, |packet| packet.len)
}
