ghost use Rattle.std.specs.Prelude.{◌≤◌};

use crate::{Packet, PcapFault, Trace, read_pcap, write_pcap};
use mn_base::{Bytes, Refusal};
use mn_edge::{Host, MemoryHost, Role, WriteFault};
use std::alloc::Global;
use std::process::Abort;
use std::test::Fail;

/// Little-endian, ns, raw IP: one packet of four captured bytes, 1,000 long on the wire, at time 0.
const ONE: [u8; 44] = [
    0x4d, 0x3c, 0xb2, 0xa1, 2, 0, 4, 0, 0, 0, 0, 0, 0, 0, 0, 0, 0, 0, 4, 0, 0x65, 0, 0, 0, //
    0, 0, 0, 0, 0, 0, 0, 0, 4, 0, 0, 0, 0xe8, 3, 0, 0, 0xde, 0xad, 0xbe, 0xef,
];

/// Two records of one and two captured bytes, in each of the four forms: 10 s and 1,000 of the fraction, and then 10 s.
const LITTLE_MICROSECONDS: [u8; 59] = [
    0xd4, 0xc3, 0xb2, 0xa1, 2, 0, 4, 0, 0, 0, 0, 0, 0, 0, 0, 0, 0xff, 0xff, 0, 0, 0x65, 0, 0, 0, //
    10, 0, 0, 0, 0xe8, 3, 0, 0, 1, 0, 0, 0, 0xe8, 3, 0, 0, 0xaa, //
    10, 0, 0, 0, 0, 0, 0, 0, 2, 0, 0, 0, 0xe8, 3, 0, 0, 0xbb, 0xcc,
];

const LITTLE_NANOSECONDS: [u8; 59] = [
    0x4d, 0x3c, 0xb2, 0xa1, 2, 0, 4, 0, 0, 0, 0, 0, 0, 0, 0, 0, 0xff, 0xff, 0, 0, 0x65, 0, 0, 0, //
    10, 0, 0, 0, 0xe8, 3, 0, 0, 1, 0, 0, 0, 0xe8, 3, 0, 0, 0xaa, //
    10, 0, 0, 0, 0, 0, 0, 0, 2, 0, 0, 0, 0xe8, 3, 0, 0, 0xbb, 0xcc,
];

const BIG_MICROSECONDS: [u8; 59] = [
    0xa1, 0xb2, 0xc3, 0xd4, 0, 2, 0, 4, 0, 0, 0, 0, 0, 0, 0, 0, 0, 0, 0xff, 0xff, 0, 0, 0, 0x65, //
    0, 0, 0, 10, 0, 0, 3, 0xe8, 0, 0, 0, 1, 0, 0, 3, 0xe8, 0xaa, //
    0, 0, 0, 10, 0, 0, 0, 0, 0, 0, 0, 2, 0, 0, 3, 0xe8, 0xbb, 0xcc,
];

const BIG_NANOSECONDS: [u8; 59] = [
    0xa1, 0xb2, 0x3c, 0x4d, 0, 2, 0, 4, 0, 0, 0, 0, 0, 0, 0, 0, 0, 0, 0xff, 0xff, 0, 0, 0, 0x65, //
    0, 0, 0, 10, 0, 0, 3, 0xe8, 0, 0, 0, 1, 0, 0, 3, 0xe8, 0xaa, //
    0, 0, 0, 10, 0, 0, 0, 0, 0, 0, 0, 2, 0, 0, 3, 0xe8, 0xbb, 0xcc,
];

/// What a reader says of a text: how many packets, or the fault.
fn answer(rt: &impl Abort, alloc: Global, text: &[u8]) -> Result<usize, Refusal<PcapFault>> {
    assert!(rt; text.len() <= 1000);
    match read_pcap(alloc, text) {
        Ok(trace) => Ok(trace.packets().len()),
        Err(refusal) => Err(refusal),
    }
}

fn faulty(fault: PcapFault) -> Result<usize, Refusal<PcapFault>> {
    Err(Refusal::Fault(fault))
}

fn assert_packet(rt: &impl Abort, packet: &Packet, time_ns: u64, original: u32, bytes: &[u8]) {
    assert_eq!(rt; packet.time_ns, time_ns);
    assert_eq!(rt; packet.original, original);
    assert_eq!(rt; packet.bytes.as_slice(), bytes);
}

#[test]
fn reads_one_packet(rt: HostRuntime) -> Result<(), Fail> {
    let trace = read_pcap(rt.alloc(), &ONE)?;
    assert_eq!(rt; trace.link_type(), 101);
    let packets = trace.into_packets();
    assert_eq!(rt; packets.len(), 1);
    assert_packet(&rt, &packets[0], 0, 1000, &[0xde, 0xad, 0xbe, 0xef]);
    Ok(())
}

#[test]
fn reads_both_orders_and_resolutions(rt: HostRuntime) -> Result<(), Fail> {
    for (text, first) in [
        (&LITTLE_MICROSECONDS, 10_001_000_000u64),
        (&LITTLE_NANOSECONDS, 10_000_001_000),
        (&BIG_MICROSECONDS, 10_001_000_000),
        (&BIG_NANOSECONDS, 10_000_001_000),
    ] {
        let trace = read_pcap(rt.alloc(), text)?;
        let packets = trace.packets();
        assert_eq!(rt; packets.len(), 2);
        assert_packet(&rt, &packets[0], first, 1000, &[0xaa]);
        assert_packet(&rt, &packets[1], 10_000_000_000, 1000, &[0xbb, 0xcc]);
    }
    Ok(())
}

/// The header ends at 24, the records at 41 and 59.
fn answer_at(len: usize) -> Result<usize, Refusal<PcapFault>> {
    match len {
        0..=3 => faulty(PcapFault::NotPcap),
        4..=23 => faulty(PcapFault::ShortHeader),
        24 => Ok(0),
        25..=40 => faulty(PcapFault::Truncated(0)),
        41 => Ok(1),
        42..=58 => faulty(PcapFault::Truncated(1)),
        _ => Ok(2),
    }
}

#[test]
fn each_prefix_is_told(rt: HostRuntime) {
    for text in [
        &LITTLE_MICROSECONDS,
        &LITTLE_NANOSECONDS,
        &BIG_MICROSECONDS,
        &BIG_NANOSECONDS,
    ] {
        for len in 0..60 {
            let prefix = text.split_at(len).0;
            assert_eq!(rt; answer(&rt, rt.alloc(), prefix), answer_at(len), "at {len}");
        }
    }
}

/// The text of one packet with four bytes replaced at a place.
fn patched(place: usize, bytes: [u8; 4]) -> [u8; 44]
    requires { place ≤ 40 }
{
    let mut text = ONE;
    text[place] = bytes[0];
    text[place + 1] = bytes[1];
    text[place + 2] = bytes[2];
    text[place + 3] = bytes[3];
    text
}

#[test]
fn each_field_is_tested(rt: HostRuntime) {
    for (place, bytes, want) in [
        // another magic, and one of a text compressed by gzip
        (0, [0x34, 0xcd, 0xb2, 0xa1], faulty(PcapFault::NotPcap)),
        (0, [0x1f, 0x8b, 8, 0], faulty(PcapFault::NotPcap)),
        (4, [1, 0, 4, 0], faulty(PcapFault::Version(1))),
        (4, [0, 2, 4, 0], faulty(PcapFault::Version(512))),
        // the minor version and the snaplen aren't looked at
        (4, [2, 0, 9, 9], Ok(1)),
        (16, [2, 0, 0, 0], Ok(1)),
        (20, [1, 0, 0, 0], Ok(1)),
        (20, [228, 0, 0, 0], Ok(1)),
        (20, [113, 0, 0, 0], faulty(PcapFault::LinkType(113))),
        (
            20,
            [0x65, 0, 0, 0x10],
            faulty(PcapFault::LinkType(0x1000_0065)),
        ),
        // 3,600,000,000 and 3,600,000,001 s
        (24, [0x00, 0xa4, 0x93, 0xd6], Ok(1)),
        (
            24,
            [0x01, 0xa4, 0x93, 0xd6],
            faulty(PcapFault::TimeRange(0)),
        ),
        // 262,145 bytes are too long before they are cut short, and 262,144 aren't
        (32, [1, 0, 4, 0], faulty(PcapFault::TooLong(0))),
        (32, [0, 0, 4, 0], faulty(PcapFault::Truncated(0))),
        (36, [1, 0, 4, 0], faulty(PcapFault::TooLong(0))),
        (36, [0, 0, 4, 0], Ok(1)),
        // more was captured than the packet was long
        (36, [1, 0, 0, 0], Ok(1)),
    ] {
        assert!(rt; place <= 40);
        let text = patched(place, bytes);
        assert_eq!(rt;
            answer(&rt, rt.alloc(), &text),
            want,
            "{bytes:?} at {place}"
        );
    }
}

#[test]
fn a_fraction_past_one_second_is_added(rt: HostRuntime) -> Result<(), Fail> {
    let text = patched(28, [0xff, 0xff, 0xff, 0xff]);
    let trace = read_pcap(rt.alloc(), &text)?;
    let packets = trace.packets();
    assert_eq!(rt; packets.len(), 1);
    assert_packet(
        &rt,
        &packets[0],
        4_294_967_295,
        1000,
        &[0xde, 0xad, 0xbe, 0xef],
    );
    Ok(())
}

#[test]
fn gives_its_parts(rt: HostRuntime) -> Result<(), Fail> {
    let mut packets = Vec::new(rt.alloc());
    packets.push(Packet {
        time_ns: 7,
        original: 60,
        bytes: Bytes::copy(rt.alloc(), &[1, 2])?,
    })?;
    let trace = Trace::new(1, packets);
    assert_eq!(rt; trace.link_type(), 1);
    assert_eq!(rt; trace.packets().len(), 1);
    assert_eq!(rt; trace.into_packets().len(), 1);
    Ok(())
}

/// The written form of the two records that were read in microseconds: 1,000 us are 1,000,000 ns.
const WRITTEN: [u8; 59] = [
    0x4d, 0x3c, 0xb2, 0xa1, 2, 0, 4, 0, 0, 0, 0, 0, 0, 0, 0, 0, 0, 0, 4, 0, 0x65, 0, 0, 0, //
    10, 0, 0, 0, 0x40, 0x42, 0x0f, 0, 1, 0, 0, 0, 0xe8, 3, 0, 0, 0xaa, //
    10, 0, 0, 0, 0, 0, 0, 0, 2, 0, 0, 0, 0xe8, 3, 0, 0, 0xbb, 0xcc,
];

/// Writes a trace to Out of a host that moves at most 7 bytes a call, and gives the host back.
fn written_to(
    rt: &impl Abort,
    alloc: Global,
    trace: &Trace,
    room: usize,
    want: Result<(), WriteFault>,
) -> Result<MemoryHost, Fail> {
    let mut host = MemoryHost::new(alloc, &[], &[], &[], &[], 7, room)?;
    host.begin(Role::Out, "out.pcap")?;
    assert_eq!(rt; write_pcap(trace, &mut host, Role::Out), want);
    Ok(host)
}

#[test]
fn writes_the_little_endian_form_in_ns(rt: HostRuntime) -> Result<(), Fail> {
    let trace = read_pcap(rt.alloc(), &BIG_MICROSECONDS)?;
    let host = written_to(&rt, rt.alloc(), &trace, 64, Ok(()))?;
    assert_eq!(rt; host.written_bytes(Role::Out), WRITTEN.as_slice());
    Ok(())
}

#[test]
fn a_full_host_holds_a_front_of_the_text(rt: HostRuntime) -> Result<(), Fail> {
    let trace = read_pcap(rt.alloc(), &ONE)?;
    let host = written_to(&rt, rt.alloc(), &trace, 30, Err(WriteFault))?;
    assert_eq!(rt; host.written_bytes(Role::Out), ONE.split_at(30).0);
    Ok(())
}

#[test]
fn the_time_base_is_the_least_time(rt: HostRuntime) -> Result<(), Fail> {
    let trace = read_pcap(rt.alloc(), &BIG_NANOSECONDS)?;
    assert_eq!(rt; trace.time_base(), 10_000_000_000);
    let none = Trace::new(101, Vec::new(rt.alloc()));
    assert_eq!(rt; none.time_base(), 0);
    Ok(())
}

#[test]
fn faults_print_their_text(rt: HostRuntime) -> Result<(), Fail> {
    for (fault, text) in [
        (PcapFault::NotPcap, "not pcap"),
        (PcapFault::ShortHeader, "short header"),
        (PcapFault::Version(1), "version 1"),
        (PcapFault::LinkType(113), "link type 113"),
        (PcapFault::Truncated(0), "packet 0 is cut short"),
        (PcapFault::TimeRange(7), "time of packet 7 out of range"),
        (PcapFault::TooLong(12), "packet 12 is too long"),
        (PcapFault::TooMany, "too many packets"),
    ] {
        assert_eq!(rt; fault.to_string(rt.alloc())?.as_str(), text);
    }
    Ok(())
}

/// The written form of packets of so many bytes each, all at time 0 and 60 bytes long on the wire.
fn written_form(alloc: Global, sizes: &[u32]) -> Result<Vec<u8>, Fail> {
    let mut text = Vec::from_slice(alloc, ONE.split_at(24).0)?;
    for size in sizes {
        text.extend_from_slice(&[0; 8])?;
        text.extend_from_slice(&size.to_le_bytes())?;
        text.extend_from_slice(&[60, 0, 0, 0])?;
        for number in 0..*size {
            text.push((number % 251) as u8)?;
        }
    }
    Ok(text)
}

/// A block of 65,536 bytes is filled exactly, packets are longer than a block, and many fit into one.
#[test]
fn long_traces_are_written_whole(rt: HostRuntime) -> Result<(), Fail> {
    let text = written_form(
        rt.alloc(),
        &[
            65_496, 65_520, 0, 70_000, 1, 30_000, 30_000, 30_000, 65_536, 2,
        ],
    )?;
    assert!(rt; text.len() <= 500_000);
    let trace = read_pcap(rt.alloc(), text.as_slice())?;
    let host = written_to(&rt, rt.alloc(), &trace, 500_000, Ok(()))?;
    assert!(rt; host.written_bytes(Role::Out) == text.as_slice());
    Ok(())
}
