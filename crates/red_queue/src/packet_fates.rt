ghost use Rattle.std.specs.Prelude.{◌≡◌, map, IfOk};
ghost use Rattle.red_queue.specs.Fates.{entry_fate, red_fate_of_visit, fates_by, with_fate};
ghost use Rattle.red_queue.specs.Laws.{ExitsFit, AllLeaveInTime};

use crate::fate::{RedCause, RedFate};
use crate::setup::{RedPacket, RedSetup};
use crate::step::RedStep;
use crate::visit::RedVisit;
use mn_base::NoMemory;
use std::alloc::Global;

/// What becomes of each packet of a setup, by its number: it leaves at a tick, or one pipe drops it. The visits are those of
/// [`red_journal`](crate::red_journal).
pub fn red_fates(
    alloc: Global,
    setup: &RedSetup,
    visits: &[RedVisit],
) -> Result<Vec<RedFate>, NoMemory>
    ensures fates { IfOk result (λ fates. fates.items ≡ fates_by setup.now visits.now) }
    ensures in_time { IfOk result (λ fates. ExitsFit setup.now visits.now → AllLeaveInTime setup.now fates.items) }
{
    let mut fates = entry_fates(alloc, &setup.packets)?;
    for visit in visits {
        keep_fate(&mut fates, visit);
    }
    Ok(fates)
}

/// What becomes of each packet as long as it visits no pipe: it leaves when it enters.
fn entry_fates(alloc: Global, packets: &[RedPacket]) -> Result<Vec<RedFate>, NoMemory>
    ensures { IfOk result (λ fates. fates.items ≡ map entry_fate packets.now) }
{
    let fates = packets
        .iter()
        .map(|packet| RedFate::Left {
            tick: packet.entry_tick,
        })
        .collect(alloc)?;
    Ok(fates)
}

/// Writes what a visit makes of its packet, if there is such a packet.
fn keep_fate(fates: &mut Vec<RedFate>, visit: &RedVisit)
    ensures { fates.new.items ≡ with_fate fates.old.items visit.now }
{
    let index = visit.packet as usize;
    if index < fates.len() {
        fates[index] = visit_fate(visit);
    }
}

/// What a visit makes of its packet, if it is the last of it.
fn visit_fate(visit: &RedVisit) -> RedFate
    ensures { result ≡ red_fate_of_visit visit.now }
{
    let (pipe, tick) = (visit.hop, visit.tick);
    let cause = match visit.step {
        RedStep::Pass { exit } => return RedFate::Left { tick: exit },
        RedStep::Lost => RedCause::Loss,
        RedStep::Early => RedCause::Early,
        RedStep::Full => RedCause::Full,
    };
    RedFate::Dropped { pipe, tick, cause }
}
