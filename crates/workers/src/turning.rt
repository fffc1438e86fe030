ghost use Rattle.std.specs.Prelude.{◌≡◌, ◌⊎◌, false, All, OnOk};
ghost use Rattle.std.specs.List.{AllZip};
ghost use Rattle.core_loop.specs.Turns.{IsCoreDone};
ghost use Rattle.workers.specs.Standing.{GoesOn};
ghost use Rattle.workers.specs.Places.{StaysPlace, IsDoneHere};

use crate::flags::Flags;
use crate::place::Place;
use crate::station::Station;
use core_loop::Turn;
use crossbeam_utils::Backoff;
use mn_base::NoMemory;
use std::alloc::Global;
use std::sync::Wait;

impl<'s> Station<'s> {
    /// One turn of the core over its ports.
    pub(crate) fn turn(&mut self, alloc: Global) -> Turn
        ensures goes { GoesOn self.old.core self.new.core }
        ensures done { result ≡ Turn.Done → IsCoreDone self.new.core }
        ensures works { result ≡ Turn.Done → self.new.core.failed ≡ false }
    {
        self.core.turn(alloc, &mut self.ports)
    }
}

impl<'s> Place<'s> {
    /// One turn of the core, if it is here.
    fn turn(&mut self, alloc: Global) -> Turn
        ensures stays { StaysPlace self.old self.new }
        ensures done { result ≡ Turn.Done → IsDoneHere self.new }
    {
        match self {
            Place::Here(station) => station.turn(alloc),
            Place::There(_) => Turn::Done,
        }
    }
}

/// Turns the cores that are here, again and again, until each is done. It ends, too, where one of all cores finds no memory, which
/// the stop flag says.
pub(crate) fn drive<'s, R: Wait>(
    rt: &R,
    alloc: Global,
    places: &mut [Place<'s>],
    flags: &Flags,
) -> Result<(), NoMemory>
    ensures stays { AllZip StaysPlace places.old places.new }
    ensures done { OnOk result (All IsDoneHere places.new) }
{
    let backoff = Backoff::new();
    for _round in rt.forever() {
        if flags.is_stopped() {
            return Err(NoMemory);
        }
        match turn_here(alloc, places) {
            Turn::Moved => backoff.reset(),
            Turn::Waiting { on: _ } => backoff.snooze(),
            Turn::Done => return Ok(()),
            Turn::NoMemory => {
                flags.stop();
                return Err(NoMemory);
            }
        }
    }
    unreachable!()
}

/// Turns each core that is here once, and tells what came of it all.
fn turn_here<'s>(alloc: Global, places: &mut [Place<'s>]) -> Turn
    ensures stays { AllZip StaysPlace places.old places.new }
    ensures done { result ≡ Turn.Done → All IsDoneHere places.new }
{
    let mut all = Turn::Done;
    for at in 0..places.len() {
        let turn = places[at].turn(alloc);
        all = together(all, turn);
    }
    all
}

/// What came of two turns: one that found no memory counts first, then one that moved, then one that waits.
fn together(one: Turn, other: Turn) -> Turn
    ensures done { result ≡ Turn.Done → (one ≡ Turn.Done) × (other ≡ Turn.Done) }
    ensures all_done { one ≡ Turn.Done → other ≡ Turn.Done → result ≡ Turn.Done }
    ensures failed { one ≡ Turn.NoMemory → result ≡ Turn.NoMemory }
    ensures other_failed { other ≡ Turn.NoMemory → result ≡ Turn.NoMemory }
    ensures only_failed { result ≡ Turn.NoMemory → (one ≡ Turn.NoMemory) ⊎ (other ≡ Turn.NoMemory) }
{
    match (one, other) {
        (Turn::NoMemory, _) | (_, Turn::NoMemory) => Turn::NoMemory,
        (Turn::Moved, _) | (_, Turn::Moved) => Turn::Moved,
        (Turn::Waiting { on }, _) | (_, Turn::Waiting { on }) => Turn::Waiting { on },
        (Turn::Done, Turn::Done) => Turn::Done,
    }
}
