ghost use Rattle.std.specs.Prelude.{◌≡◌, ◌<◌, [], length, map, filter_map, IfOk};
ghost use Rattle.std.specs.List.{zip};
ghost use Rattle.journal.specs.Journal.{journal_of};
ghost use Rattle.journal.specs.Fates.{fate_of};
ghost use Rattle.settle.specs.IsOutcome.{leaving_of, drop_of, drop_lines, IsOutcome};

use crate::counting::count_visits;
use crate::outcome::{DropLine, Leaving, Outcome};
use journal::{Fate, PacketPlan, Setup};
use mn_base::{Bytes, NoMemory};
use std::alloc::{AllocError, Global};

/// The outcome of a setup, by the fates of its packets and their bytes, which are moved. The packets that left are put in the
/// order of (tick, packet).
pub fn gather(
    alloc: Global,
    setup: &Setup,
    fates: &[Fate],
    bytes: Vec<Bytes>,
) -> Result<Outcome, NoMemory>
    requires fates { fates.now ≡ map (fate_of setup.now) setup.now.packets }
    requires bytes { length bytes.items ≡ length setup.now.packets }
    ensures outcome { IfOk result (IsOutcome setup.now (journal_of setup.now) bytes.items) }
    ensures cores { IfOk result (λ o. o.cores ≡ []) }
{
    let parts = setup.parts();
    let mut leaving = all_leaving(alloc, &parts.packets, fates, bytes)?;
    leaving.sort_by_key(|left| (left.tick, left.packet))?;
    let dropped = all_dropped(alloc, &parts.packets, fates)?;
    let pipe_counts = count_visits(alloc, setup, fates)?;
    Ok(Outcome {
        leaving,
        dropped,
        pipe_counts,
        cores: Vec::new(alloc),
    })
}

/// The packets of a setup that are dropped, in packet order, by the fates of all.
pub fn drop_lines(alloc: Global, setup: &Setup, fates: &[Fate]) -> Result<Vec<DropLine>, NoMemory>
    requires { fates.now ≡ map (fate_of setup.now) setup.now.packets }
    ensures { IfOk result (λ lines. lines.items ≡ drop_lines setup.now (journal_of setup.now)) }
{
    let lines = all_dropped(alloc, &setup.parts().packets, fates)?;
    Ok(lines)
}

/// The leaving of a packet of this fate, if it left.
fn leaving_at(packet: u32, fate: Fate, bytes: Bytes) -> Option<Leaving>
    ensures { result ≡ leaving_of packet bytes fate }
{
    match fate {
        Fate::Left { tick } => Some(Leaving {
            tick,
            packet,
            bytes,
        }),
        Fate::Dropped { .. } => None,
    }
}

fn dropped(packet: u32, fate: Fate) -> Option<DropLine>
    ensures { result ≡ drop_of packet fate }
{
    match fate {
        Fate::Left { .. } => None,
        Fate::Dropped { pipe, tick, cause } => Some(DropLine {
            packet,
            pipe,
            tick,
            cause,
        }),
    }
}

fn all_leaving(
    alloc: Global,
    packets: &[PacketPlan],
    fates: &[Fate],
    bytes: Vec<Bytes>,
) -> Result<Vec<Leaving>, AllocError>
    ensures { IfOk result (λ v. v.items ≡ filter_map (λ p. leaving_of p.0.0.number p.1 p.0.1) (zip (zip packets.now fates.now) bytes.items)) }
{
    // Room for all of them at once: a vector that grows so far moves on its way.
    let mut leaving = Vec::with_capacity(alloc, packets.len())?;
    leaving.extend(
        packets.iter().zip(fates).zip(bytes).filter_map(|((packet, fate), bytes)| leaving_at(
            packet.number,
            *fate,
            bytes,
        )),
    )?;
    Ok(leaving)
}

fn all_dropped(
    alloc: Global,
    packets: &[PacketPlan],
    fates: &[Fate],
) -> Result<Vec<DropLine>, AllocError>
    ensures { IfOk result (λ v. v.items ≡ filter_map (λ p. drop_of p.0.number p.1) (zip packets.now fates.now)) }
{
    packets
        .iter()
        .zip(fates)
        .filter_map(|(packet, fate)| dropped(packet.number, *fate))
        .collect(alloc)
}
