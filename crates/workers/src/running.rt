ghost use Rattle.std.specs.Prelude.{◌≡◌, ◌≤◌, ◌*◌, ℕ, List, [], All, length, vec_capacity, Some, IfOk, OnOk, OnErr, slice_get};
ghost use Rattle.std.specs.List.{AllZip};
ghost use Rattle.journal.specs.Journal.{journal_of};
ghost use Rattle.parcel.specs.Windows.{window_count};
ghost use Rattle.parcel.specs.Results.{AreResults};
ghost use Rattle.core_loop.specs.TallyView.{added};
ghost use Rattle.core_loop.specs.Stocked.{AreStores, AreBytesIn};
ghost use Rattle.workers.specs.declared.ran.Ran.{Ran};
ghost use Rattle.workers.specs.Ran.{results_of, HaveCarriedAll};
ghost use Rattle.workers.specs.Places.{IsPlaceOf, ComesHere, IsHere, IsDoneHere};

use crate::ending::finish_all;
use crate::flags::Flags;
use crate::hook::Hook;
use crate::place::Place;
use crate::ran::Ran;
use crate::starting::stations;
use crate::station::Station;
use crate::turning::drive;
use crate::working::start;
use core_loop::Tally;
use journal::Setup;
use mn_base::NoMemory;
use payload_store::Store;
use std::alloc::Global;
use std::sync::Wait;
use std::thread;
use std::thread::{Scope, Threads};

/// Runs all cores of a setup to their ends, core 0 on this thread and each other one on a thread of its own, and gives their results
/// with their ports, in core order. They count in the tally, or none does, where memory is refused.
pub fn run_threads<'s, R: Threads + Wait + Sync, K: Hook>(
    rt: &R,
    alloc: Global,
    setup: &'s Setup,
    stores: Vec<Store>,
    hook: &K,
    tally: &mut Tally,
) -> Result<Vec<Ran<'s>>, NoMemory>
    requires stores { AreStores setup.now stores.items }

    // The results are those of the journal, whatever the threads did and when.
    ensures results { IfOk result (λ all. (bytes : List (List ℕ)) → AreBytesIn setup.now stores.items bytes
        → AreResults setup.now bytes (results_of all.items)) }
    ensures count { IfOk result (λ all. length all.items ≡ setup.now.cores) }

    // Each core posted and took all its parcels through its ports.
    ensures ports { IfOk result (λ all. (core : ℕ) (ran : Ran) → slice_get all.items core ≡ Some ran
        → HaveCarriedAll setup.now core ran.ports) }
    ensures tally { OnOk result (tally.new ≡ added tally.old setup.now.cores
        (setup.now.cores * window_count setup.now) (length (journal_of setup.now))) }
    ensures untouched { OnErr result (tally.new ≡ tally.old) }
{
    let all = stations(alloc, setup, stores)?;
    let room = Vec::with_capacity(alloc, all.len())?;
    let places = run(rt, alloc, all, hook)?;
    Ok(finish_all(setup, places, room, tally))
}

/// Turns all these cores until each is done.
fn run<'s, R: Threads + Wait + Sync, K: Hook>(
    rt: &R,
    alloc: Global,
    all: Vec<Station<'s>>,
    hook: &K,
) -> Result<Vec<Place<'s>>, NoMemory>
    ensures places { IfOk result (λ places. AllZip IsPlaceOf all.entry.items places.items) }
    ensures here { IfOk result (λ places. All IsHere places.items) }
    ensures done { IfOk result (λ places. All IsDoneHere places.items) }
{
    let started = Vec::with_capacity(alloc, all.len())?;
    let returned = Vec::with_capacity(alloc, all.len())?;
    let flags = Flags::new();
    let shared = &flags;
    let mut places = thread::scope(
        thread::scope_env(),
        rt,
        |scope| -> Vec<Place>
            requires started { (started.items ≡ []) × (length all.items ≤ vec_capacity started) }
            requires returned { (returned.items ≡ []) × (length all.items ≤ vec_capacity returned) }
            ensures places { AllZip IsPlaceOf all.entry.items result.items }
            ensures here { All IsHere result.items }
        {
            let mut places = start_all(scope, rt, alloc, all, shared, hook, started);
            announce(hook, &places);
            let _ended = drive(rt, alloc, &mut places, shared);
            take_back(rt, places, returned)
        },
    );
    drive(rt, alloc, &mut places, shared)?;
    Ok(places)
}

/// Starts a worker for each core but the first.
fn start_all<'t, 's: 't, E, R: Wait + Sync, K: Hook>(
    scope: &Scope<'t, E>,
    rt: &'t R,
    alloc: Global,
    all: Vec<Station<'s>>,
    flags: &'t Flags,
    hook: &'t K,
    room: Vec<Place<'s>>,
) -> Vec<Place<'s>>
    requires none { room.items ≡ [] }
    requires room { length all.items ≤ vec_capacity room }
    ensures { AllZip IsPlaceOf all.entry.items result.items }
{
    let mut places = room;
    for station in all {
        places.push_reserved(start(scope, rt, alloc, station, flags, hook));
    }
    places
}

/// Tells the hook of the cores whose first turns are made here.
fn announce<'s, K: Hook>(hook: &K, places: &[Place<'s>]) {
    for place in places {
        if let Place::Here(station) = place {
            hook.at_start(station.core.number());
        }
    }
}

/// Waits for the workers, in core order, and takes back what they had.
fn take_back<'s, R: Threads>(rt: &R, places: Vec<Place<'s>>, room: Vec<Place<'s>>) -> Vec<Place<'s>>
    requires none { room.items ≡ [] }
    requires room { length places.items ≤ vec_capacity room }
    ensures { AllZip ComesHere places.entry.items result.items }
{
    let mut returned = room;
    for place in places {
        returned.push_reserved(place.come_here(rt));
    }
    returned
}
