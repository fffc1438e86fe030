ghost use Rattle.std.specs.Prelude.{◌≡◌, ◌*◌, ◌+◌, ◌≤◌, ◌<◌, ◌^◌, ◌++◌, length, IfOk, OnOk};
ghost use Rattle.mn_base.specs.declared.limits.TheConstants.{LINK_TYPE_RAW, WORKLOAD_PACKETS_MAX, RECORD_NS_END};
ghost use Rattle.mn_base.specs.Draws.{state_at};
ghost use Rattle.pcap_io.specs.Writing.{header_text, record_text, pcap_text};
ghost use Rattle.workload.specs.declared.shape.TheConstants.{HOSTS};
ghost use Rattle.workload.specs.Trace.{gap_at, packet_between, drawn_packet, packets_by_draws};

use crate::shape::HOSTS;
use mn_base::{Draws, NoMemory};
use std::alloc::Global;

/// The header of the capture: little-endian, in ns, version 2.4, IP packets without a frame.
const HEADER: [u8; 24] = [
    0x4d, 0x3c, 0xb2, 0xa1, 2, 0, 4, 0, 0, 0, 0, 0, 0, 0, 0, 0, 0, 0, 4, 0, 101, 0, 0, 0,
];

/// The bytes of one record: its header of 16 bytes, and what is captured.
const RECORD_BYTES: usize = 36;

/// The text of a trace of so many packets, which are drawn from the stream's state on.
pub fn trace_text(alloc: Global, draws: &mut Draws, packets: u32) -> Result<Vec<u8>, NoMemory>
    requires { packets ≤ WORKLOAD_PACKETS_MAX }
    ensures text { IfOk result (λ text. text.items ≡
        pcap_text (record { link_type = LINK_TYPE_RAW; packets = packets_by_draws draws.old packets })) }
{
    let mut text = Vec::with_capacity(alloc, HEADER.len() + RECORD_BYTES * packets as usize)?;
    text.extend_from_slice(&HEADER)?;
    let mut time_ns = 0;
    for _ in 0..packets {
        let gap = append_record(&mut text, draws, time_ns)?;
        time_ns += gap;
    }
    Ok(text)
}

/// Draws a packet and appends its record. Answers the time to the next packet, in ns.
fn append_record(text: &mut Vec<u8>, draws: &mut Draws, time_ns: u64) -> Result<u64, NoMemory>
    requires { time_ns ≤ 200000 * WORKLOAD_PACKETS_MAX }
    ensures gap { IfOk result (λ gap. gap ≡ gap_at draws.old) }
    ensures bound { IfOk result (λ gap. gap < 200000) }
    ensures text { OnOk result (text.new.items ≡ text.old.items ++ record_text (drawn_packet draws.old time_ns)) }
    ensures state { OnOk result (draws.new ≡ state_at draws.old 4) }
{
    let source = draws.draw(HOSTS);
    let destination = draws.draw(HOSTS);
    let len = 60 + draws.draw(1_441);
    let gap = draws.draw(200_000);
    text.extend_from_slice(&record_bytes(time_ns, len, source, destination))?;
    Ok(u64::from(gap))
}

/// The record of a packet between two hosts.
#[tactic(auto, unfolding(pcap_io::specs::Writing::record_header_text))]
fn record_bytes(time_ns: u64, len: u32, source: u32, destination: u32) -> [u8; 36]
    requires time { time_ns < RECORD_NS_END }
    requires len { len < 2 ^ 16 }
    requires source { source < HOSTS }
    requires destination { destination < HOSTS }
    ensures { result ≡ record_text (packet_between time_ns len source destination) }
{
    let seconds = (time_ns / 1_000_000_000) as u32;
    let fraction = (time_ns % 1_000_000_000) as u32;
    let [s0, s1, s2, s3] = seconds.to_le_bytes();
    let [f0, f1, f2, f3] = fraction.to_le_bytes();
    let [o0, o1, o2, o3] = len.to_le_bytes();
    let [l0, l1] = (len as u16).to_be_bytes();
    let from = (source + 1) as u8;
    let to = (destination + 1) as u8;
    [
        s0, s1, s2, s3, f0, f1, f2, f3, 20, 0, 0, 0, o0, o1, o2, o3, 0x45, 0, l0, l1, 0, 0, 0, 0,
        0x40, 0x11, 0, 0, 10, 0, 0, from, 10, 0, 0, to,
    ]
}
