ghost use Rattle.std.specs.Prelude.{◌≤◌};

use crate::{CaptureFault, NgFault, read_capture};
use mn_base::Refusal;
use pcap_io::{PcapFault, Trace};
use std::alloc::Global;
use std::process::Abort;
use std::test::Fail;

/// Little-endian: a section header, an interface of raw IP packets in microseconds, and a packet of four captured bytes,
/// 1,000 long on the wire, at time 0.
const SECTION: [u8; 28] = [
    0x0a, 0x0d, 0x0d, 0x0a, 28, 0, 0, 0, 0x4d, 0x3c, 0x2b, 0x1a, 1, 0, 0, 0, 255, 255, 255, 255,
    255, 255, 255, 255, 28, 0, 0, 0,
];

const INTERFACE: [u8; 20] = [
    1, 0, 0, 0, 20, 0, 0, 0, 0x65, 0, 0, 0, 0, 0, 4, 0, 20, 0, 0, 0,
];

const PACKET: [u8; 36] = [
    6, 0, 0, 0, 36, 0, 0, 0, 0, 0, 0, 0, 0, 0, 0, 0, 0, 0, 0, 0, 4, 0, 0, 0, 0xe8, 3, 0, 0, 0xde,
    0xad, 0xbe, 0xef, 36, 0, 0, 0,
];

/// The same section, interface and packet in big-endian order, the packet at 1,000,007 us.
const BIG_SECTION: [u8; 28] = [
    0x0a, 0x0d, 0x0d, 0x0a, 0, 0, 0, 28, 0x1a, 0x2b, 0x3c, 0x4d, 0, 1, 0, 0, 255, 255, 255, 255,
    255, 255, 255, 255, 0, 0, 0, 28,
];

const BIG_INTERFACE: [u8; 20] = [
    0, 0, 0, 1, 0, 0, 0, 20, 0, 0x65, 0, 0, 0, 4, 0, 0, 0, 0, 0, 20,
];

const BIG_PACKET: [u8; 36] = [
    0, 0, 0, 6, 0, 0, 0, 36, 0, 0, 0, 0, 0, 0, 0, 0, 0, 0x0f, 0x42, 0x47, 0, 0, 0, 4, 0, 0, 3,
    0xe8, 0xde, 0xad, 0xbe, 0xef, 0, 0, 0, 36,
];

/// A simple packet of five captured bytes: its original length is 5, its bytes are padded to 8.
const SIMPLE: [u8; 24] = [
    3, 0, 0, 0, 24, 0, 0, 0, 5, 0, 0, 0, 1, 2, 3, 4, 5, 0, 0, 0, 24, 0, 0, 0,
];

/// A block of an unknown type, and the old packet block, which is skipped, too.
const UNKNOWN: [u8; 16] = [0xad, 0x0b, 0, 0, 16, 0, 0, 0, 1, 2, 3, 4, 16, 0, 0, 0];

const OLD_PACKET: [u8; 12] = [2, 0, 0, 0, 12, 0, 0, 0, 12, 0, 0, 0];

fn joined(alloc: Global, blocks: &[&[u8]]) -> Result<Vec<u8>, Fail> {
    let mut text = Vec::new(alloc);
    for block in blocks {
        text.extend_from_slice(block)?;
    }
    Ok(text)
}

/// What a reader says of a file: how many packets, or the fault.
fn answer(rt: &impl Abort, alloc: Global, text: &[u8]) -> Result<usize, Refusal<CaptureFault>> {
    assert!(rt; text.len() <= 10_000);
    match read_capture(alloc, text) {
        Ok(trace) => Ok(trace.packets().len()),
        Err(refusal) => Err(refusal),
    }
}

fn faulty(fault: NgFault) -> Result<usize, Refusal<CaptureFault>> {
    Err(Refusal::Fault(CaptureFault::Ng(fault)))
}

fn trace_of(rt: &impl Abort, alloc: Global, blocks: &[&[u8]]) -> Result<Trace, Fail> {
    let text = joined(alloc, blocks)?;
    assert!(rt; text.len() <= 10_000);
    Ok(read_capture(alloc, text.as_slice())?)
}

#[test]
fn reads_one_packet(rt: HostRuntime) -> Result<(), Fail> {
    let trace = trace_of(&rt, rt.alloc(), &[&SECTION, &INTERFACE, &PACKET])?;
    assert_eq!(rt; trace.link_type(), 101);
    let packets = trace.packets();
    assert_eq!(rt; packets.len(), 1);
    assert_eq!(rt; packets[0].time_ns, 0);
    assert_eq!(rt; packets[0].original, 1_000);
    assert_eq!(rt;
        packets[0].bytes.as_slice(),
        [0xde, 0xad, 0xbe, 0xef].as_slice()
    );
    Ok(())
}

/// The blocks end at 28, 48 and 84.
fn answer_at(len: usize) -> Result<usize, Refusal<CaptureFault>> {
    match len {
        0..=3 => Err(Refusal::Fault(CaptureFault::Pcap(PcapFault::NotPcap))),
        4..=27 => faulty(NgFault::Cut(0)),
        28 => faulty(NgFault::NoInterface),
        29..=47 => faulty(NgFault::Cut(28)),
        48 => Ok(0),
        49..=83 => faulty(NgFault::Cut(48)),
        _ => Ok(1),
    }
}

#[test]
fn each_prefix_is_told(rt: HostRuntime) -> Result<(), Fail> {
    let text = joined(rt.alloc(), &[&SECTION, &INTERFACE, &PACKET])?;
    assert_eq!(rt; text.len(), 84);
    for len in 0..85 {
        let prefix = text.as_slice().split_at(len).0;
        assert_eq!(rt; answer(&rt, rt.alloc(), prefix), answer_at(len), "at {len}");
    }
    Ok(())
}

/// A byte of the file of one packet, what it is replaced by, and the fault.
const FAULTY_FIELDS: [(usize, u8, NgFault); 18] = [
    // the magic, the length at both ends, and the version of a section
    (11, 0, NgFault::Magic(0)),
    (4, 29, NgFault::Length(0)),
    (4, 24, NgFault::Length(0)),
    (4, 32, NgFault::Length(0)),
    (5, 1, NgFault::Cut(0)),
    (24, 0, NgFault::Length(0)),
    (12, 2, NgFault::Version(0)),
    // an interface
    (32, 16, NgFault::Length(28)),
    (36, 0x66, NgFault::LinkType(28)),
    // a packet: interface 1, a time of 2^56 us, lengths, data that don't fit
    (56, 1, NgFault::Interface(48)),
    (63, 1, NgFault::TimeRange(48)),
    (69, 4, NgFault::Data(48)),
    (70, 4, NgFault::TooLong(48)),
    (71, 1, NgFault::TooLong(48)),
    (75, 1, NgFault::TooLong(48)),
    (68, 5, NgFault::Data(48)),
    (80, 35, NgFault::Length(48)),
    (52, 28, NgFault::Length(48)),
];

/// The same with the number of packets that are read: minor version, section length and reserved bytes aren't looked at, another
/// link type is read, fewer bytes are captured, and a block of another type is skipped.
const FREE_FIELDS: [(usize, u8, usize); 6] = [
    (14, 9, 1),
    (16, 0, 1),
    (38, 9, 1),
    (36, 1, 1),
    (68, 1, 1),
    (48, 7, 0),
];

#[test]
fn each_field_is_tested(rt: HostRuntime) -> Result<(), Fail> {
    for (place, byte, fault) in FAULTY_FIELDS {
        let mut text = joined(rt.alloc(), &[&SECTION, &INTERFACE, &PACKET])?;
        assert!(rt; place < text.len());
        text[place] = byte;
        assert_eq!(rt;
            answer(&rt, rt.alloc(), text.as_slice()),
            faulty(fault),
            "{byte} at {place}"
        );
    }
    Ok(())
}

#[test]
fn other_fields_are_free(rt: HostRuntime) -> Result<(), Fail> {
    for (place, byte, packets) in FREE_FIELDS {
        let mut text = joined(rt.alloc(), &[&SECTION, &INTERFACE, &PACKET])?;
        assert!(rt; place < text.len());
        text[place] = byte;
        assert_eq!(rt;
            answer(&rt, rt.alloc(), text.as_slice()),
            Ok(packets),
            "{byte} at {place}"
        );
    }
    Ok(())
}

#[test]
fn sections_have_their_own_order_and_interfaces(rt: HostRuntime) -> Result<(), Fail> {
    let trace = trace_of(
        &rt,
        rt.alloc(),
        &[
            &SECTION,
            &INTERFACE,
            &PACKET,
            &UNKNOWN,
            &OLD_PACKET,
            &BIG_SECTION,
            &BIG_INTERFACE,
            &BIG_PACKET,
        ],
    )?;
    let packets = trace.packets();
    assert_eq!(rt; packets.len(), 2);
    assert_eq!(rt; packets[0].time_ns, 0);
    assert_eq!(rt; packets[1].time_ns, 1_000_007_000);
    assert_eq!(rt; packets[1].original, 1_000);
    assert_eq!(rt;
        packets[1].bytes.as_slice(),
        [0xde, 0xad, 0xbe, 0xef].as_slice()
    );

    // a new section has no interfaces, and the link type stays that of the file's first
    let text = joined(
        rt.alloc(),
        &[&SECTION, &INTERFACE, &BIG_SECTION, &BIG_PACKET],
    )?;
    assert_eq!(rt;
        answer(&rt, rt.alloc(), text.as_slice()),
        faulty(NgFault::Interface(76))
    );
    let mut text = joined(
        rt.alloc(),
        &[&SECTION, &INTERFACE, &BIG_SECTION, &BIG_INTERFACE],
    )?;
    assert_eq!(rt; text.len(), 96);
    assert_eq!(rt; answer(&rt, rt.alloc(), text.as_slice()), Ok(0));
    text[85] = 1;
    assert_eq!(rt;
        answer(&rt, rt.alloc(), text.as_slice()),
        faulty(NgFault::LinkType(76))
    );
    Ok(())
}

#[test]
fn a_simple_packet_takes_the_time_before_and_the_snaplen(rt: HostRuntime) -> Result<(), Fail> {
    let trace = trace_of(&rt, rt.alloc(), &[&SECTION, &INTERFACE, &SIMPLE])?;
    let packets = trace.packets();
    assert_eq!(rt; packets.len(), 1);
    assert_eq!(rt; packets[0].time_ns, 0);
    assert_eq!(rt; packets[0].bytes.as_slice(), [1, 2, 3, 4, 5].as_slice());

    // after a packet, and at a snaplen of 3
    let mut text = joined(
        rt.alloc(),
        &[
            &BIG_SECTION,
            &BIG_INTERFACE,
            &BIG_PACKET,
            &SECTION,
            &INTERFACE,
            &SIMPLE,
        ],
    )?;
    assert_eq!(rt; text.len(), 156);
    text[124] = 3;
    text[126] = 0;
    let trace = read_capture(rt.alloc(), text.as_slice())?;
    let packets = trace.packets();
    assert_eq!(rt; packets.len(), 2);
    assert_eq!(rt; packets[1].time_ns, 1_000_007_000);
    assert_eq!(rt; packets[1].original, 5);
    assert_eq!(rt; packets[1].bytes.as_slice(), [1, 2, 3].as_slice());

    // with no interface, and with bytes that don't fit
    let text = joined(rt.alloc(), &[&SECTION, &SIMPLE])?;
    assert_eq!(rt;
        answer(&rt, rt.alloc(), text.as_slice()),
        faulty(NgFault::Interface(28))
    );
    let mut text = joined(rt.alloc(), &[&SECTION, &INTERFACE, &SIMPLE])?;
    assert_eq!(rt; text.len(), 72);
    text[56] = 9;
    assert_eq!(rt;
        answer(&rt, rt.alloc(), text.as_slice()),
        faulty(NgFault::Data(48))
    );
    text[58] = 4;
    assert_eq!(rt;
        answer(&rt, rt.alloc(), text.as_slice()),
        faulty(NgFault::TooLong(48))
    );
    Ok(())
}

/// An interface whose options are so many of these bytes.
fn with_options(
    rt: &impl Abort,
    alloc: Global,
    options: &[u8; 16],
    count: usize,
) -> Result<Vec<u8>, Fail> {
    assert!(rt; count <= 16);
    let (front, _) = INTERFACE.as_slice().split_at(16);
    let len = (20 + count) as u8;
    let mut block = joined(
        alloc,
        &[front, options.as_slice().split_at(count).0, &[len, 0, 0, 0]],
    )?;
    assert!(rt; block.len() > 4);
    block[4] = len;
    Ok(block)
}

/// A packet at 2^32 + 1,500,000,001 units, that is 5,794,967,297.
const LATE_PACKET: [u8; 36] = [
    6, 0, 0, 0, 36, 0, 0, 0, 0, 0, 0, 0, 1, 0, 0, 0, 0x01, 0x2f, 0x68, 0x59, 4, 0, 0, 0, 0xe8, 3,
    0, 0, 0xde, 0xad, 0xbe, 0xef, 36, 0, 0, 0,
];

/// Options, how many bytes of them, and the packet's time: floor(units * 10^9 / units in a second) ns.
const TIMES: [([u8; 16], usize, u64); 10] = [
    ([0; 16], 0, 5_794_967_297_000),
    (
        [9, 0, 1, 0, 9, 0, 0, 0, 0, 0, 0, 0, 0, 0, 0, 0],
        8,
        5_794_967_297,
    ),
    (
        [9, 0, 1, 0, 12, 0, 0, 0, 0, 0, 0, 0, 0, 0, 0, 0],
        8,
        5_794_967,
    ),
    ([9, 0, 1, 0, 18, 0, 0, 0, 0, 0, 0, 0, 0, 0, 0, 0], 8, 5),
    (
        [9, 0, 1, 0, 3, 0, 0, 0, 0, 0, 0, 0, 0, 0, 0, 0],
        8,
        5_794_967_297_000_000,
    ),
    (
        [9, 0, 1, 0, 160, 0, 0, 0, 0, 0, 0, 0, 0, 0, 0, 0],
        8,
        1_349_245_965,
    ),
    ([9, 0, 1, 0, 191, 0, 0, 0, 0, 0, 0, 0, 0, 0, 0, 0], 8, 0),
    // another option before, and a second resolution after
    (
        [4, 0, 2, 0, 1, 2, 0, 0, 9, 0, 1, 0, 9, 0, 0, 0],
        16,
        5_794_967_297,
    ),
    (
        [9, 0, 1, 0, 9, 0, 0, 0, 9, 0, 1, 0, 6, 0, 0, 0],
        16,
        5_794_967_297,
    ),
    // options end at code 0
    (
        [0, 0, 0, 0, 9, 0, 1, 0, 9, 0, 0, 0, 0, 0, 0, 0],
        12,
        5_794_967_297_000,
    ),
];

#[test]
fn the_first_resolution_counts(rt: HostRuntime) -> Result<(), Fail> {
    for (options, count, time_ns) in TIMES {
        let interface = with_options(&rt, rt.alloc(), &options, count)?;
        let trace = trace_of(
            &rt,
            rt.alloc(),
            &[&SECTION, interface.as_slice(), &LATE_PACKET],
        )?;
        let packets = trace.packets();
        assert_eq!(rt; packets.len(), 1);
        assert_eq!(rt; packets[0].time_ns, time_ns, "{options:?}");
    }
    Ok(())
}

/// Options, how many bytes of them, and the fault.
const FAULTY_OPTIONS: [([u8; 16], usize, NgFault); 8] = [
    (
        [9, 0, 9, 0, 9, 0, 0, 0, 0, 0, 0, 0, 0, 0, 0, 0],
        8,
        NgFault::Options(28),
    ),
    // an option that runs past the body is found after a bad resolution
    (
        [9, 0, 2, 0, 9, 0, 0, 0, 5, 0, 1, 0, 0, 0, 0, 0],
        12,
        NgFault::Options(28),
    ),
    (
        [9, 0, 2, 0, 9, 0, 0, 0, 0, 0, 0, 0, 0, 0, 0, 0],
        8,
        NgFault::Resolution(28),
    ),
    (
        [9, 0, 1, 0, 19, 0, 0, 0, 0, 0, 0, 0, 0, 0, 0, 0],
        8,
        NgFault::Resolution(28),
    ),
    (
        [9, 0, 1, 0, 127, 0, 0, 0, 0, 0, 0, 0, 0, 0, 0, 0],
        8,
        NgFault::Resolution(28),
    ),
    (
        [9, 0, 1, 0, 192, 0, 0, 0, 0, 0, 0, 0, 0, 0, 0, 0],
        8,
        NgFault::Resolution(28),
    ),
    (
        [9, 0, 0, 0, 0, 0, 0, 0, 0, 0, 0, 0, 0, 0, 0, 0],
        4,
        NgFault::Resolution(28),
    ),
    // 4,294,967,296 s and more
    (
        [9, 0, 1, 0, 0, 0, 0, 0, 0, 0, 0, 0, 0, 0, 0, 0],
        8,
        NgFault::TimeRange(56),
    ),
];

#[test]
fn options_and_resolutions_are_tested(rt: HostRuntime) -> Result<(), Fail> {
    for (options, count, fault) in FAULTY_OPTIONS {
        let interface = with_options(&rt, rt.alloc(), &options, count)?;
        let text = joined(rt.alloc(), &[&SECTION, interface.as_slice(), &LATE_PACKET])?;
        assert_eq!(rt;
            answer(&rt, rt.alloc(), text.as_slice()),
            faulty(fault),
            "{options:?}"
        );
    }
    Ok(())
}

/// Each fault with its text.
const TEXTS: [(NgFault, &str); 13] = [
    (NgFault::Cut(48), "block at 48 is cut short"),
    (NgFault::Magic(0), "byte order at 0"),
    (NgFault::Length(28), "length at 28"),
    (NgFault::Version(0), "version at 0"),
    (NgFault::LinkType(28), "link type at 28"),
    (NgFault::Options(28), "options at 28"),
    (NgFault::Resolution(28), "resolution at 28"),
    (NgFault::TooMany, "too many packets"),
    (NgFault::Interface(48), "interface at 48"),
    (NgFault::TimeRange(48), "time at 48 out of range"),
    (NgFault::TooLong(48), "packet at 48 is too long"),
    (NgFault::Data(48), "packet at 48 is cut short"),
    (NgFault::NoInterface, "no interface"),
];

#[test]
fn faults_print_their_text(rt: HostRuntime) -> Result<(), Fail> {
    for (fault, text) in TEXTS {
        assert_eq!(rt;
            CaptureFault::Ng(fault).to_string(rt.alloc())?.as_str(),
            text
        );
    }
    let fault = CaptureFault::Pcap(PcapFault::Version(1));
    assert_eq!(rt; fault.to_string(rt.alloc())?.as_str(), "version 1");
    Ok(())
}

/// A classic capture is read as ever: little-endian, in ns, raw IP, one packet.
#[test]
fn reads_a_classic_capture(rt: HostRuntime) {
    let classic = [
        0x4d, 0x3c, 0xb2, 0xa1, 2, 0, 4, 0, 0, 0, 0, 0, 0, 0, 0, 0, 0, 0, 4, 0, 0x65, 0, 0, 0, //
        0, 0, 0, 0, 0, 0, 0, 0, 4, 0, 0, 0, 0xe8, 3, 0, 0, 0xde, 0xad, 0xbe, 0xef,
    ];
    assert_eq!(rt; answer(&rt, rt.alloc(), &classic), Ok(1));
    assert_eq!(rt;
        answer(&rt, rt.alloc(), classic.as_slice().split_at(43).0),
        Err(Refusal::Fault(CaptureFault::Pcap(PcapFault::Truncated(0))))
    );
}
