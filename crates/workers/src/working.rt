ghost use Rattle.workers.specs.Standing.{ComesBack};
ghost use Rattle.workers.specs.Places.{IsPlaceOf};

use crate::flags::Flags;
use crate::hook::Hook;
use crate::place::{Given, Place};
use crate::station::Station;
use core_loop::Turn;
use crossbeam_utils::Backoff;
use std::alloc::Global;
use std::snapshot::Snapshot;
use std::sync::Wait;
use std::thread::Scope;

/// Starts a worker for a core, but core 0 is here. Where no thread can be had, the core is given back at once and is here, too.
pub(crate) fn start<'t, 's: 't, E, R: Wait + Sync, K: Hook>(
    scope: &Scope<'t, E>,
    rt: &'t R,
    alloc: Global,
    station: Station<'s>,
    flags: &'t Flags,
    hook: &'t K,
) -> Place<'s>
    ensures { IsPlaceOf station.entry result }
{
    let core = station.core.number();
    if core == 0 {
        return Place::Here(station);
    }
    let given = Given(Snapshot::of(&station.core));
    let job = move || -> Station
        ensures { ComesBack station.entry.core result.core }
    { work(rt, alloc, station, flags, hook) };
    match scope.spawn_with(given, job) {
        Ok(handle) => Place::There(handle),
        Err(refused) => {
            flags.give_back(core);
            Place::Here((refused.value)())
        }
    }
}

/// What a worker does: it turns its core until this is done, or until a flag says that it shall give it back. It raises the stop flag
/// where its core finds no memory.
fn work<'s, R: Wait, K: Hook>(
    rt: &R,
    alloc: Global,
    mut station: Station<'s>,
    flags: &Flags,
    hook: &K,
) -> Station<'s>
    ensures { ComesBack station.entry.core result.core }
{
    let core = station.core.number();
    if flags.is_given_back(core) {
        return station;
    }
    hook.at_start(core);
    let backoff = Backoff::new();
    for _turn in rt.forever() {
        if flags.is_stopped() {
            return station;
        }
        // Never so here: the flag goes up before the closure is called, which looks at it above. It's a look, and does no harm.
        if flags.is_given_back(core) {
            return station;
        }
        match station.turn(alloc) {
            Turn::Moved => backoff.reset(),
            Turn::Waiting { on: _ } => backoff.snooze(),
            Turn::Done => return station,
            Turn::NoMemory => {
                flags.stop();
                return station;
            }
        }
    }
    unreachable!()
}
