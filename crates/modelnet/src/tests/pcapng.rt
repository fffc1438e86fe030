//! `chain` on captures in pcapng: it writes what it writes for their classic copies, or names their first fault.

use super::{ONE_PACKET_OUT, ONE_PACKET_REPORT, ONE_PIPE, assert_stops, assert_writes};
use crate::status::Status;
use crate::status_line::status_line;
use pcapng_in::NgFault;
use std::process::Abort;
use std::test::Fail;

/// A section header, an interface of raw IP, and an enhanced packet: the one packet of the classic capture. It has 1,000 bytes,
/// of which four were captured.
const ONE_NG_PACKET: [u8; 84] = [
    0x0a, 0x0d, 0x0d, 0x0a, 0x1c, 0, 0, 0, 0x4d, 0x3c, 0x2b, 0x1a, 1, 0, 0, 0, //
    0xff, 0xff, 0xff, 0xff, 0xff, 0xff, 0xff, 0xff, 0x1c, 0, 0, 0, //
    1, 0, 0, 0, 0x14, 0, 0, 0, 0x65, 0, 0, 0, 0, 0, 4, 0, 0x14, 0, 0, 0, //
    6, 0, 0, 0, 0x24, 0, 0, 0, 0, 0, 0, 0, 0, 0, 0, 0, 0, 0, 0, 0, //
    4, 0, 0, 0, 0xe8, 3, 0, 0, 0xde, 0xad, 0xbe, 0xef, 0x24, 0, 0, 0,
];

/// The first bytes of that capture, where so many are there.
pub fn first_bytes(rt: &(impl Abort + AllocGlobal), count: usize) -> Vec<u8> {
    let bytes = ONE_NG_PACKET.get(..count).expect(rt, "so many bytes");
    Vec::from_slice(rt.alloc(), bytes).expect(rt, "memory")
}

/// Nothing is written of these bytes, whose first fault is this.
fn assert_refused(rt: &(impl Abort + AllocGlobal), trace: &[u8], fault: NgFault) {
    assert_stops(
        rt,
        ONE_PIPE,
        trace,
        &[],
        4_096,
        Status::BadCapture(fault),
        0,
    );
}

#[test]
fn one_packet_in_pcapng_leaves_as_in_pcap(rt: HostRuntime) {
    assert_writes(
        &rt,
        ONE_PIPE,
        &ONE_NG_PACKET,
        &ONE_PACKET_OUT,
        ONE_PACKET_REPORT,
    );
}

#[test]
fn a_cut_block_is_refused_and_nothing_is_written(rt: HostRuntime) -> Result<(), Fail> {
    let cut = first_bytes(&rt, 83);
    assert_refused(&rt, &cut, NgFault::Cut(48));
    let status = Status::BadCapture(NgFault::Cut(48));
    assert_eq!(rt; status.number(), 11);
    let line = status_line(rt.alloc(), &status)?;
    let expected = "modelnet: trace: block at 48 is cut short\n";
    assert_eq!(rt; line.as_slice(), expected.as_bytes());
    Ok(())
}

#[test]
fn a_section_alone_has_no_interface(rt: HostRuntime) {
    assert_refused(&rt, &first_bytes(&rt, 28), NgFault::NoInterface);
}

#[test]
fn an_interface_without_packets_is_an_empty_trace(rt: HostRuntime) {
    let trace = first_bytes(&rt, 48);
    let report = "modelnet report 1\n\
        packets 0 bound 0 unbound 0 left 0 dropped 0\n";
    let (header, _) = ONE_PACKET_OUT.split_at(24);
    assert_writes(&rt, ONE_PIPE, &trace, header, report);
}

#[test]
fn a_packet_of_an_interface_that_is_not_there_is_refused(rt: HostRuntime) {
    let mut trace = ONE_NG_PACKET;
    trace[56] = 1;
    assert_refused(&rt, &trace, NgFault::Interface(48));
}
