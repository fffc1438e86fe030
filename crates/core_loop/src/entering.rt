//! What a core notes of the packets that enter there, at its start.

ghost use Rattle.std.specs.Prelude.{◌≡◌, ◌==◌, Some, length, filter, OnOk};
ghost use Rattle.mn_base.specs.Among.{Among};
ghost use Rattle.journal.specs.SetupView.{packet_of};
ghost use Rattle.journal.specs.Hops.{entry};
ghost use Rattle.core_loop.specs.Entering.{EntersBy, EntersAll, CanEnter, CanEnterAll};

use crate::entrants::Entrants;
use crate::work::Work;
use journal::steps::first_due;
use journal::{Fate, PacketPlan, Setup};
use mn_base::NoMemory;
use std::alloc::Global;

/// Notes the first visits of the packets that enter at a core, and settles those that have no way to go.
pub(crate) fn enter_all(
    alloc: Global,
    setup: &Setup,
    work: &mut Work,
    entrants: &mut Entrants,
) -> Result<(), NoMemory>
    requires setup { work.old.setup ≡ setup.now }
    requires can { CanEnterAll work.old.number setup.now.packets work.old.heap entrants.old }
    ensures { OnOk result (EntersAll setup.now setup.now.packets work.old entrants.old work.new entrants.new) }
{
    let number = work.number();
    for plan in &setup.parts().packets {
        if plan.core == number {
            enter(alloc, setup, work, entrants, *plan)?;
        }
    }
    Ok(())
}

/// Notes the first visit of a packet, or settles it, if it has no way to go.
fn enter(
    alloc: Global,
    setup: &Setup,
    work: &mut Work,
    entrants: &mut Entrants,
    plan: PacketPlan,
) -> Result<(), NoMemory>
    requires setup { work.old.setup ≡ setup.now }
    requires among { Among plan setup.now.packets }
    requires known { packet_of setup.now plan.number ≡ Some plan }
    requires can { CanEnter plan work.old.heap entrants.old }
    ensures { OnOk result (EntersBy plan (entry setup.now plan) work.old entrants.old work.new entrants.new) }
{
    match first_due(setup, plan) {
        Some(due) => work.announce(alloc, due, plan),
        None => {
            let fate = Fate::Left {
                tick: plan.entry_tick,
            };
            entrants.settle(plan.number, fate);
            Ok(())
        }
    }
}

/// How many packets enter at a core.
pub(crate) fn count_entrants(setup: &Setup, core: u32) -> u64
    ensures { result ≡ length (filter (λ p. p.core == core) setup.now.packets) }
{
    let mut count = 0;
    for plan in &setup.parts().packets {
        if plan.core == core {
            count += 1;
        }
    }
    count
}
