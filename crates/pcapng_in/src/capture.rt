ghost use Rattle.std.specs.Prelude.{◌≤◌, ◌↔◌, length, All, IfOk, IfErr, IsTrue};
ghost use Rattle.mn_base.specs.Refused.{IfFault, Gives, Refuses};
ghost use Rattle.pcap_io.specs.Capture.{Capture, IsRecordTime};
ghost use Rattle.pcapng_in.specs.CaptureFile.{BeginsNg, SaysTrace, CaptureFirst};
ghost use Rattle.pcapng_in.specs.declared.fault.CaptureFault.{CaptureFault};

use crate::fault::CaptureFault;
use crate::reading::read_pcapng;
use mn_base::Refusal;
use mn_base::limits::TRACE_BYTES_MAX;
use pcap_io::{Trace, read_pcap};
use std::alloc::Global;

/// Whether a file begins with the type of a section header, which no other capture format does.
fn begins_ng(text: &[u8]) -> bool
    ensures { IsTrue result ↔ BeginsNg text.now }
{
    match text.split_first_chunk::<4>() {
        None => false,
        Some((first, _)) => *first == [0x0a, 0x0d, 0x0d, 0x0a],
    }
}

fn read_by_format(alloc: Global, text: &[u8]) -> Result<Trace, Refusal<CaptureFault>>
    requires { length text.now ≤ TRACE_BYTES_MAX }
    ensures found { IfOk result (λ trace. SaysTrace text.now trace) }
    ensures fault { IfErr result (λ refusal. IfFault refusal (CaptureFirst text.now)) }
    ensures times { IfOk result (λ trace. All (λ packet. IsRecordTime packet.time_ns) trace.packets) }
{
    if begins_ng(text) {
        match read_pcapng(alloc, text) {
            Ok(trace) => Ok(trace),
            Err(refusal) => Err(refusal.map_fault(CaptureFault::Ng)),
        }
    } else {
        match read_pcap(alloc, text) {
            Ok(trace) => Ok(trace),
            Err(refusal) => Err(refusal.map_fault(CaptureFault::Pcap)),
        }
    }
}

/// Reads the bytes of a capture: as pcapng (draft-ietf-opsawg-pcapng) where they begin with a section header, else as `read_pcap` does.
///
/// Of a pcapng file enhanced and simple packets of interfaces of one link type are read; other blocks are skipped, and
/// of the options only the time resolution is looked at. Sections may follow one another, each in its own byte order.
/// The first fault from the start of the file is reported; `NoMemory` says nothing of the file.
pub fn read_capture(alloc: Global, text: &[u8]) -> Result<Trace, Refusal<CaptureFault>>
    requires { length text.now ≤ TRACE_BYTES_MAX }
    ensures found { IfOk result (λ trace. SaysTrace text.now trace) }
    ensures fault { IfErr result (λ refusal. IfFault refusal (CaptureFirst text.now)) }
    ensures only_trace { (trace : Capture) → SaysTrace text.now trace → Gives trace result }
    ensures only_fault { (fault : CaptureFault) → CaptureFirst text.now fault → Refuses fault result }
    ensures times { IfOk result (λ trace. All (λ packet. IsRecordTime packet.time_ns) trace.packets) }
{
    read_by_format(alloc, text)
}
