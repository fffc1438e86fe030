ghost use Rattle.std.specs.Prelude.{◌≡◌, [], map, IfOk};
ghost use Rattle.journal.specs.Fates.{fate_after, fate_of, fate_of_visit};

use crate::fate::Fate;
use crate::maker::Maker;
use crate::setup::Setup;
use crate::visit::Visit;
use mn_base::{Cause, NoMemory};
use pipe::Step;
use std::alloc::Global;

/// What becomes of each packet of a setup, in the setup's order: it leaves at a tick, or one pipe drops it.
///
/// It makes each visit of the journal and keeps none of them.
pub fn fates(alloc: Global, setup: &Setup) -> Result<Vec<Fate>, NoMemory>
    ensures { IfOk result (λ fates. fates.items ≡ map (fate_of setup.now) setup.now.packets) }
{
    // The fates first: what the maker gives back at the end then lies together, and is used again by what comes after.
    let mut fates = entry_fates(alloc, setup)?;
    let mut maker = Maker::start(alloc, setup)?;
    while let Some(next) = maker.due.pop() {
        let visit = maker.make(alloc, setup, next)?;
        fates[next.index as usize] = visit_fate(visit);
    }
    Ok(fates)
}

/// What becomes of each packet as long as it visits no pipe: it leaves when it enters.
fn entry_fates(alloc: Global, setup: &Setup) -> Result<Vec<Fate>, NoMemory>
    ensures { IfOk result (λ fates. fates.items ≡ map (fate_after []) setup.now.packets) }
{
    let fates = setup
        .parts()
        .packets
        .iter()
        .map(|plan| Fate::Left {
            tick: plan.entry_tick,
        })
        .collect(alloc)?;
    Ok(fates)
}

/// What a visit makes of its packet, if it is the last of it.
fn visit_fate(visit: Visit) -> Fate
    ensures { result ≡ fate_of_visit visit }
{
    match visit.step {
        Step::Lost => Fate::Dropped {
            pipe: visit.pipe,
            tick: visit.tick,
            cause: Cause::Loss,
        },
        Step::Full => Fate::Dropped {
            pipe: visit.pipe,
            tick: visit.tick,
            cause: Cause::Full,
        },
        Step::Pass { exit } => Fate::Left { tick: exit },
    }
}
