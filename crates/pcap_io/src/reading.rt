ghost use Rattle.std.specs.Prelude.{◌≡◌, ℕ, ◌+◌, ◌*◌, ◌^◌, ◌<◌, ◌≤◌, [], length, drop, All, IfOk, IfErr};
ghost use Rattle.mn_base.specs.Refused.{IfFault, Gives, Refuses};
ghost use Rattle.pcap_io.specs.Capture.{Capture, IsPacket, IsRecordTime};
ghost use Rattle.pcap_io.specs.Reading.{Splits, Pcap};
ghost use Rattle.pcap_io.specs.Faults.{PcapFirst, HasRecordFault};
ghost use Rattle.pcap_io.specs.Answers.{ReadsHeader, ReadsRecord};
ghost use Rattle.pcap_io.specs.declared.fault.PcapFault.{PcapFault};

use crate::fault::PcapFault;
use crate::form::{Form, Resolution};
use crate::packet::Packet;
use crate::trace::Trace;
use mn_base::limits::{PACKET_BYTES_MAX, PACKETS_MAX, RECORD_SECONDS_MAX, TRACE_BYTES_MAX};
use mn_base::{Bytes, Refusal, is_link_type};
use std::alloc::Global;

/// The bytes of a file's header.
const HEADER_BYTES: usize = 24;

/// The bytes of a record's header.
const RECORD_HEADER_BYTES: usize = 16;

/// What a header says.
#[derive(Clone, Copy)]
pub struct Header {
    pub form: Form,
    pub link_type: u32,
}

/// What the header of a record says: a time in ns, and two lengths in bytes.
#[derive(Clone, Copy)]
pub struct RecordHeader {
    pub time_ns: u64,
    pub captured: u32,
    pub original: u32,
}

fn read_header(text: &[u8]) -> Result<Header, PcapFault>
    ensures { ReadsHeader text.now result }
{
    let Some(form) = Form::of(text) else {
        return Err(PcapFault::NotPcap);
    };
    if text.len() < HEADER_BYTES {
        return Err(PcapFault::ShortHeader);
    }
    let version = form.order.half(text, 4);
    if version != 2 {
        return Err(PcapFault::Version(version));
    }
    let link_type = form.order.word(text, 20);
    if !is_link_type(link_type) {
        return Err(PcapFault::LinkType(link_type));
    }
    Ok(Header { form, link_type })
}

fn read_record(form: Form, number: u32, text: &[u8]) -> Result<RecordHeader, PcapFault>
    requires { number ≤ PACKETS_MAX }
    ensures { ReadsRecord form number text.now result }
{
    if number as usize == PACKETS_MAX {
        return Err(PcapFault::TooMany);
    }
    if text.len() < RECORD_HEADER_BYTES {
        return Err(PcapFault::Truncated(number));
    }
    let seconds = form.order.word(text, 0);
    if seconds > RECORD_SECONDS_MAX {
        return Err(PcapFault::TimeRange(number));
    }
    let captured = form.order.word(text, 8);
    let original = form.order.word(text, 12);
    if captured > PACKET_BYTES_MAX || original > PACKET_BYTES_MAX {
        return Err(PcapFault::TooLong(number));
    }
    if text.len() < RECORD_HEADER_BYTES + captured as usize {
        return Err(PcapFault::Truncated(number));
    }
    let fraction = u64::from(form.order.word(text, 4));
    let fraction_ns = match form.resolution {
        Resolution::Microseconds => fraction * 1000,
        Resolution::Nanoseconds => fraction,
    };
    let time_ns = u64::from(seconds) * 1_000_000_000 + fraction_ns;
    Ok(RecordHeader {
        time_ns,
        captured,
        original,
    })
}

fn read_packets(alloc: Global, form: Form, body: &[u8]) -> Result<Vec<Packet>, Refusal<PcapFault>>
    ensures found { IfOk result (λ packets. Splits form body.now packets.items []) }
    ensures count { IfOk result (λ packets. length packets.items ≤ PACKETS_MAX) }
    ensures within { IfOk result (λ packets. All IsPacket packets.items) }
    ensures times { IfOk result (λ packets. All (λ packet. IsRecordTime packet.time_ns) packets.items) }
    ensures fault { IfErr result (λ refusal. IfFault refusal (λ fault. HasRecordFault form fault body.now)) }
{
    let mut packets = Vec::new(alloc);
    let mut rest = body;
    let mut number = 0;
    'records: while !rest.is_empty() {
        let header = match read_record(form, number, rest) {
            Ok(header) => header,
            Err(fault) => return Err(Refusal::Fault(fault)),
        };
        let (_, record) = rest.split_at(RECORD_HEADER_BYTES);
        let (captured, after) = record.split_at(header.captured as usize);
        let bytes = Bytes::copy(alloc, captured)?;
        packets.push(Packet {
            time_ns: header.time_ns,
            original: header.original,
            bytes,
        })?;
        rest = after;
        number += 1;
    }
    Ok(packets)
}

/// Reads the bytes of a capture in the pcap format of major version 2, laid out as in 2.4
/// (https://www.tcpdump.org/manpages/pcap-savefile.5.html).
///
/// The magic number tells the byte order and the resolution (us or ns) of all that follows. Minor version, zone,
/// sigfigs and snaplen aren't looked at. The answer has the time of each packet in ns.
/// The first fault from the start of the file is reported; `NoMemory` says nothing of the file.
pub fn read_pcap(alloc: Global, text: &[u8]) -> Result<Trace, Refusal<PcapFault>>
    requires { length text.now ≤ TRACE_BYTES_MAX }
    ensures found { IfOk result (λ trace. Pcap text.now trace) }
    ensures fault { IfErr result (λ refusal. IfFault refusal (PcapFirst text.now)) }
    ensures only_trace { (trace : Capture) → Pcap text.now trace → Gives trace result }
    ensures only_fault { (fault : PcapFault) → PcapFirst text.now fault → Refuses fault result }
    ensures times { IfOk result (λ trace. All (λ packet. IsRecordTime packet.time_ns) trace.packets) }
{
    let header = match read_header(text) {
        Ok(header) => header,
        Err(fault) => return Err(Refusal::Fault(fault)),
    };
    let (_, body) = text.split_at(HEADER_BYTES);
    let packets = read_packets(alloc, header.form, body)?;
    Ok(Trace::new(header.link_type, packets))
}
