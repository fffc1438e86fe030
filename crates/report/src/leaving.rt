ghost use Rattle.std.specs.Prelude.{◌≡◌, ◌≤◌, ◌<◌, ◌^◌, ◌-◌, true, length, map, All, AllPairs, IfOk};
ghost use Rattle.std.specs.List.{zip};
ghost use Rattle.mn_base.specs.declared.limits.TheConstants.{PACKET_BYTES_MAX};
ghost use Rattle.journal.specs.Journal.{journal_of};
ghost use Rattle.journal.specs.Fates.{fate_of};
ghost use Rattle.report.specs.Leaving.{IsLeavingTrace, left_ticks, FitsRecord, leaving_ns, timed};

use crate::traces::out_trace;
use journal::laws::outputs_fit;
use journal::{Fate, Setup};
use mn_base::{Bytes, NoMemory};
use pcap_io::{Packet, Trace};
use settle::{Outcome, gather};
use std::alloc::Global;

/// The time of a packet that doesn't leave, in ns: none that leaves has it.
const NEVER_NS: u64 = u64::MAX;

/// The trace of the packets that leave, by the fates of all, in the order of (tick, packet): each with its captured bytes and its
/// original length, at the time of its tick in ns.
///
/// Where these ticks don't fall along the packet numbers, as after one route for all packets, the packets that came become those that
/// leave, and no memory is taken.
pub fn leaving_trace(
    alloc: Global,
    setup: &Setup,
    fates: &[Fate],
    packets: Vec<Packet>,
) -> Result<Trace, NoMemory>
    requires fates { fates.now ≡ map (fate_of setup.now) setup.now.packets }
    requires originals { map (λ p. p.original) packets.items ≡ map (λ p. p.len) setup.now.packets }
    requires captured { All (λ p. length p.bytes ≤ PACKET_BYTES_MAX) packets.items }
    ensures { IfOk result (IsLeavingTrace setup.now (journal_of setup.now) (map (λ p. p.bytes) packets.items)) }
{
    if leave_in_order(fates) {
        Ok(trace_in_place(setup, fates, packets))
    } else {
        trace_in_order(alloc, setup, fates, packets)
    }
}

/// Whether the ticks of the packets that leave don't fall along the packet numbers.
fn leave_in_order(fates: &[Fate]) -> bool
    ensures { result ≡ true → AllPairs (λ a b. a ≤ b) (left_ticks fates.now) }
{
    let mut last = 0;
    for fate in fates {
        if let Fate::Left { tick } = *fate {
            if tick < last {
                return false;
            }
            last = tick;
        }
    }
    true
}

/// The trace where packets leave in the order of their numbers: of the packets that came, those that leave.
fn trace_in_place(setup: &Setup, fates: &[Fate], packets: Vec<Packet>) -> Trace
    requires fates { fates.now ≡ map (fate_of setup.now) setup.now.packets }
    requires originals { map (λ p. p.original) packets.items ≡ map (λ p. p.len) setup.now.packets }
    requires captured { All (λ p. length p.bytes ≤ PACKET_BYTES_MAX) packets.items }
    requires in_order { AllPairs (λ a b. a ≤ b) (left_ticks fates.now) }
    ensures { IsLeavingTrace setup.now (journal_of setup.now) (map (λ p. p.bytes) packets.items) result }
{
    outputs_fit(setup);
    let parts = setup.parts();
    let mut packets = packets;
    set_times(setup, fates, &mut packets);
    packets.retain(|packet| packet.time_ns != NEVER_NS);
    Trace::new(parts.link_type, packets)
}

/// Gives each packet the time at which it leaves, or `NEVER_NS`.
fn set_times(setup: &Setup, fates: &[Fate], packets: &mut Vec<Packet>)
    requires as_many { length packets.old.items ≡ length fates.now }
    requires fit { All (FitsRecord setup.now) fates.now }
    ensures { packets.new.items ≡ map (λ e. timed setup.now e.0 e.1) (zip fates.now packets.old.items) }
{
    for index in 0..packets.len() {
        packets[index].time_ns = time_ns_of(setup, fates[index]);
    }
}

/// The time at which a packet of this fate leaves, in ns, or `NEVER_NS`.
fn time_ns_of(setup: &Setup, fate: Fate) -> u64
    requires { FitsRecord setup.now fate }
    ensures { result ≡ leaving_ns setup.now fate }
{
    let parts = setup.parts();
    match fate {
        Fate::Left { tick } => parts.base_ns + tick * parts.tick_ns,
        Fate::Dropped { .. } => NEVER_NS,
    }
}

/// The trace where packets leave in another order.
fn trace_in_order(
    alloc: Global,
    setup: &Setup,
    fates: &[Fate],
    packets: Vec<Packet>,
) -> Result<Trace, NoMemory>
    requires fates { fates.now ≡ map (fate_of setup.now) setup.now.packets }
    requires as_many { length packets.items ≡ length setup.now.packets }
    requires captured { All (λ p. length p.bytes ≤ PACKET_BYTES_MAX) packets.items }
    ensures { IfOk result (IsLeavingTrace setup.now (journal_of setup.now) (map (λ p. p.bytes) packets.items)) }
{
    outputs_fit(setup);
    let _parts = setup.parts();
    let bytes = packet_bytes(alloc, packets)?;
    let Outcome { leaving, .. } = gather(alloc, setup, fates, bytes)?;
    out_trace(alloc, setup, leaving)
}

/// The captured bytes of each packet, in order, which are moved.
pub fn packet_bytes(alloc: Global, packets: Vec<Packet>) -> Result<Vec<Bytes>, NoMemory>
    ensures { IfOk result (λ bytes. bytes.items ≡ map (λ p. p.bytes) packets.items) }
{
    let bytes = packets
        .into_iter()
        .map(|packet| packet.bytes)
        .collect(alloc)?;
    Ok(bytes)
}
