ghost use Rattle.std.specs.Prelude.{◌≡◌, ◌≤◌, [], length, map, All, None, IfOk, IfErr};
ghost use Rattle.std.specs.List.{range_with_len};
ghost use Rattle.mn_base.specs.Refused.{IfFault};
ghost use Rattle.mn_base.specs.declared.limits.TheConstants.{PACKETS_MAX};
ghost use Rattle.pcap_io.specs.Capture.{IsTrace, IsRecordTime};
ghost use Rattle.pcap_io.specs.Writing.{pcap_text};
ghost use Rattle.pcapng_in.specs.CaptureFile.{SaysTrace, CaptureFirst};
ghost use Rattle.journal.specs.Journal.{journal_of};
ghost use Rattle.journal.specs.Fates.{fate_of};
ghost use Rattle.parcel.specs.Counts.{counts_of};
ghost use Rattle.settle.specs.IsOutcome.{drop_lines};
ghost use Rattle.report.specs.Report.{report_lines};
ghost use Rattle.mn_words.specs.Order.{IsChainOrder};
ghost use Rattle.modelnet.specs.Run.{IsChainRun, SaysRun};

use crate::chain_setup::chain_setup;
use crate::run_outputs::Texts;
use journal::{Fate, Setup, fates};
use mn_base::limits::TRACE_BYTES_MAX;
use mn_base::{Bytes, NoMemory, Refusal};
use mn_words::ChainOrder;
use pcap_io::Trace;
use pcapng_in::{CaptureFault, read_capture};
use report::{leaving_trace, print_lines};
use settle::{count_visits, drop_lines};
use std::alloc::Global;

/// What a chain makes of the bytes of a trace, in either capture format.
pub fn chain_texts(
    alloc: Global,
    order: &ChainOrder,
    text: Bytes,
) -> Result<Texts, Refusal<CaptureFault>>
    requires order { IsChainOrder order.now }
    requires few { length text ≤ TRACE_BYTES_MAX }
    ensures run { IfOk result (λ texts. SaysRun order.now text (pcap_text texts.out) texts.report) }
    ensures nothing_shown { IfOk result (λ texts. texts.screen ≡ None) }
    ensures fault { IfErr result (λ refusal. IfFault refusal (CaptureFirst text)) }
{
    let trace = read_trace(alloc, text)?;
    // A read of the trace, so that the proof knows what its type keeps.
    let _kept = trace.link_type();
    let Ok(texts) = run_chain(alloc, order, trace) else {
        return Err(Refusal::NoMemory);
    };
    Ok(texts)
}

/// The trace that these bytes say. They are given back as soon as they are read.
pub fn read_trace(alloc: Global, text: Bytes) -> Result<Trace, Refusal<CaptureFault>>
    requires { length text ≤ TRACE_BYTES_MAX }
    ensures found { IfOk result (λ trace. SaysTrace text trace) }
    ensures fault { IfErr result (λ refusal. IfFault refusal (CaptureFirst text)) }
    ensures times { IfOk result (λ trace. All (λ packet. IsRecordTime packet.time_ns) trace.packets) }
{
    read_capture(alloc, text.as_slice())
}

/// Runs a chain on a trace: the fates of its packets, and the texts of what came of them.
fn run_chain(alloc: Global, order: &ChainOrder, trace: Trace) -> Result<Texts, NoMemory>
    requires order { IsChainOrder order.now }
    requires trace { IsTrace trace }
    requires times { All (λ p. IsRecordTime p.time_ns) trace.packets }
    ensures run { IfOk result (λ texts. IsChainRun order.now trace (pcap_text texts.out) texts.report) }
    ensures nothing_shown { IfOk result (λ texts. texts.screen ≡ None) }
{
    let setup = chain_setup(alloc, order, &trace)?;
    let fates = fates(alloc, &setup)?;
    let out = leaving_trace(alloc, &setup, &fates, trace.into_packets())?;
    let report = chain_report(alloc, &setup, &fates, out.packets().len())?;
    Ok(Texts {
        out,
        report,
        screen: None,
    })
}

/// The report of a setup whose packets are all bound and of which so many leave, by their fates.
fn chain_report(
    alloc: Global,
    setup: &Setup,
    fates: &[Fate],
    left: usize,
) -> Result<Bytes, NoMemory>
    requires fates { fates.now ≡ map (fate_of setup.now) setup.now.packets }
    requires few { left ≤ PACKETS_MAX }
    ensures { IfOk result (λ text. text ≡ report_lines left (drop_lines setup.now (journal_of setup.now))
        (map (counts_of (journal_of setup.now)) (range_with_len 0 (length setup.now.pipes))) []) }
{
    let dropped = drop_lines(alloc, setup, fates)?;
    let pipe_counts = count_visits(alloc, setup, fates)?;
    print_lines(alloc, left, &dropped, &pipe_counts, &[])
}
