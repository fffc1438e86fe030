ghost use Rattle.std.specs.Prelude.{◌≡◌, ◌≤◌, length, map, All, AllPairs, None, IfOk, IfErr};
ghost use Rattle.std.specs.List.Sorted.{IsPermutation};
ghost use Rattle.mn_base.specs.Refused.{IfFault};
ghost use Rattle.pcap_io.specs.Capture.{IsTrace, IsRecordTime};
ghost use Rattle.pcap_io.specs.Writing.{pcap_text};
ghost use Rattle.pcapng_in.specs.CaptureFile.{CaptureFirst};
ghost use Rattle.settle.specs.IsOutcome.{LeavesBefore};
ghost use Rattle.mn_words.specs.Order.{IsRedOrder};
ghost use Rattle.modelnet.specs.RedRun.{IsRedRun, SaysRed, red_leaving_of, red_leavings};

use crate::chain_run::read_trace;
use crate::red_setup::{base_setup, red_setup};
use crate::run_outputs::Texts;
use journal::{PacketPlan, Setup};
use mn_base::limits::TRACE_BYTES_MAX;
use mn_base::{Bytes, NoMemory, Refusal};
use mn_words::RedOrder;
use pcap_io::{Packet, Trace};
use pcapng_in::CaptureFault;
use red_queue::{RedFate, print_red_fates, red_fates, red_journal};
use report::{out_trace, packet_bytes};
use settle::Leaving;
use std::alloc::{AllocError, Global};

/// What pipes in a row that drop early make of the bytes of a trace, in either capture format.
pub fn red_texts(
    alloc: Global,
    order: &RedOrder,
    text: Bytes,
) -> Result<Texts, Refusal<CaptureFault>>
    requires order { IsRedOrder order.now }
    requires few { length text ≤ TRACE_BYTES_MAX }
    ensures run { IfOk result (λ texts. SaysRed order.now text (pcap_text texts.out) texts.report) }
    ensures nothing_shown { IfOk result (λ texts. texts.screen ≡ None) }
    ensures fault { IfErr result (λ refusal. IfFault refusal (CaptureFirst text)) }
{
    let trace = read_trace(alloc, text)?;
    // A read of the trace, so that the proof knows what its type keeps.
    let _kept = trace.link_type();
    let Ok(texts) = run_red(alloc, order, trace) else {
        return Err(Refusal::NoMemory);
    };
    Ok(texts)
}

/// Runs pipes that drop early on a trace: the fates of its packets, and the texts of what came of them.
fn run_red(alloc: Global, order: &RedOrder, trace: Trace) -> Result<Texts, NoMemory>
    requires order { IsRedOrder order.now }
    requires trace { IsTrace trace }
    requires times { All (λ p. IsRecordTime p.time_ns) trace.packets }
    ensures run { IfOk result (λ texts. IsRedRun order.now trace (pcap_text texts.out) texts.report) }
    ensures nothing_shown { IfOk result (λ texts. texts.screen ≡ None) }
{
    let setup = base_setup(alloc, order, &trace)?;
    let red = red_setup(alloc, order, &setup)?;
    let visits = red_journal(alloc, &red)?;
    let fates = red_fates(alloc, &red, &visits)?;
    let report = print_red_fates(alloc, &red, &visits, &fates)?;
    let leaving = leaving_in_order(alloc, &setup, &fates, trace.into_packets())?;
    let out = out_trace(alloc, &setup, leaving)?;
    Ok(Texts {
        out,
        report,
        screen: None,
    })
}

/// The packets that left, by tick and then by packet number. Their bytes are moved.
fn leaving_in_order(
    alloc: Global,
    setup: &Setup,
    fates: &[RedFate],
    packets: Vec<Packet>,
) -> Result<Vec<Leaving>, NoMemory>
    ensures moved { IfOk result
        (λ leaving. IsPermutation (red_leavings setup.now.packets fates.now (map (λ p. p.bytes) packets.items)) leaving.items) }
    ensures in_order { IfOk result (λ leaving. AllPairs LeavesBefore leaving.items) }
{
    let parts = setup.parts();
    let bytes = packet_bytes(alloc, packets)?;
    let mut leaving = all_leaving(alloc, &parts.packets, fates, bytes)?;
    leaving.sort_by_key(|left| (left.tick, left.packet))?;
    Ok(leaving)
}

fn all_leaving(
    alloc: Global,
    packets: &[PacketPlan],
    fates: &[RedFate],
    bytes: Vec<Bytes>,
) -> Result<Vec<Leaving>, AllocError>
    ensures { IfOk result (λ v. v.items ≡ red_leavings packets.now fates.now bytes.items) }
{
    // Room for all of them at once: a vector that grows so far moves on its way.
    let mut leaving = Vec::with_capacity(alloc, packets.len())?;
    leaving.extend(
        packets.iter().zip(fates).zip(bytes).filter_map(|((packet, fate), bytes)| leaving_at(
            packet.number,
            *fate,
            bytes,
        )),
    )?;
    Ok(leaving)
}

/// The leaving of a packet of this fate, if it left.
fn leaving_at(packet: u32, fate: RedFate, bytes: Bytes) -> Option<Leaving>
    ensures { result ≡ red_leaving_of packet bytes fate }
{
    match fate {
        RedFate::Left { tick } => Some(Leaving {
            tick,
            packet,
            bytes,
        }),
        RedFate::Dropped { .. } => None,
    }
}
