ghost use Rattle.std.specs.Prelude.{◌≡◌, ◌<◌, ◌≤◌, ℕ, false, List, length, All, AllPairs, map, IfOk, OnOk};
ghost use Rattle.journal.specs.IsSetup.{IsSetup};
ghost use Rattle.journal.specs.Journal.{journal_of};
ghost use Rattle.core_loop.specs.Stocked.{AreStores, AreBytesIn};
ghost use Rattle.settle.specs.IsOutcome.{IsOutcome};
ghost use Rattle.migrate.specs.Standing.{StillStand, HaveRunNothing, HaveRunAll};
ghost use Rattle.migrate.specs.Moves.{moves_below, owners_in, Moves, AreCountsWithMoves};
ghost use Rattle.migrate.specs.UnderWay.{DoStand, HasCome, HaveMoved, HaveMovedAll, SameButPlaces};

use crate::shelves::Shelves;
use journal::Setup;
use mn_base::NoMemory;
use parcel::CoreCounts;
use payload_store::Store;
use settle::Outcome;
use std::alloc::{AllocError, Global};
use std::marker::Model;

/// Before the window of this number this pipe goes to this core.
#[derive(Clone, Copy, Debug, PartialEq, Eq)]
pub struct Move {
    pub window: u64,
    pub pipe: u32,
    pub core: u32,
}

/// What a run with moves comes to.
#[derive(Drop)]
pub struct Ran {
    pub outcome: Outcome,
    /// The windows that were run.
    pub windows: u64,
    /// The moves before one of them.
    pub moved: u64,
    /// The visits that each core ran, in core order.
    pub visits: Vec<u64>,
}

impl Model for Ran {
    ghost use Rattle.migrate.specs.RanView.{RanView};

    ghost Value = { RanView };

    ghost view = { λ r. record { outcome = r.outcome; windows = r.windows; moved = r.moved; visits = r.visits.items } };
}

/// Runs a setup window by window, and makes each move before its window. The moves' windows don't fall, and their pipes and cores are
/// the setup's.
pub fn run_moves(
    alloc: Global,
    setup: &Setup,
    stores: Vec<Store>,
    moves: &[Move],
) -> Result<Ran, NoMemory>
    requires stores { AreStores setup.now stores.items }
    requires order { AllPairs (λ m n. m.window ≤ n.window) moves.now }
    requires pipes { All (λ m. m.pipe < length setup.now.pipes) moves.now }
    requires cores { All (λ m. m.core < setup.now.cores) moves.now }
    ensures outcome { IfOk result (λ ran. (bytes : List (List ℕ)) → AreBytesIn setup.now stores.items bytes
        → IsOutcome setup.now (journal_of setup.now) bytes ran.outcome) }
    ensures moves { IfOk result (λ ran. Moves setup.now moves.now ran.windows ran.moved ran.visits) }
    ensures counts { IfOk result (λ ran. AreCountsWithMoves setup.now moves.now ran.windows ran.visits ran.outcome.cores) }
{
    let _parts = setup.parts();
    let mut shelves = Shelves::start(alloc, setup, stores)?;
    let windows = run_all(alloc, &mut shelves, moves)?;
    let outcome = shelves.finish(alloc)?;
    let visits = visits_of(alloc, &outcome.cores)?;
    Ok(Ran {
        outcome,
        windows,
        moved: moves_before(moves, windows),
        visits,
    })
}

/// Runs all windows, each after the moves that come before it, and says how many they are.
fn run_all(alloc: Global, shelves: &mut Shelves, moves: &[Move]) -> Result<u64, NoMemory>
    requires setup { IsSetup shelves.old.setup }
    requires nothing { HaveRunNothing shelves.old }
    requires works { shelves.old.failed ≡ false }
    requires stands { DoStand shelves.old }
    requires pipes { All (λ m. m.pipe < length shelves.old.setup.pipes) moves.now }
    requires cores { All (λ m. m.core < shelves.old.setup.cores) moves.now }
    requires order { AllPairs (λ m n. m.window ≤ n.window) moves.now }
    ensures come { IfOk result (λ windows. HasCome shelves.old.setup moves.now windows shelves.new) }
    ensures owners { IfOk result (λ windows. shelves.new.owners ≡ owners_in shelves.old.setup moves.now windows) }
    ensures all { OnOk result (HaveRunAll shelves.new) }
    ensures stands { OnOk result (DoStand shelves.new) }
    ensures still { OnOk result (StillStand shelves.old shelves.new) }
{
    let mut windows = 0;
    let mut next = 0;
    'windows: loop {
        next = move_due(alloc, shelves, moves, next, windows)?;
        if !shelves.run_window(alloc)? {
            return Ok(windows);
        }
        windows += 1;
    }
}

/// Makes the moves from this index on whose windows are at most this one; says which is the next.
fn move_due(
    alloc: Global,
    shelves: &mut Shelves,
    moves: &[Move],
    next: usize,
    window: u64,
) -> Result<usize, NoMemory>
    requires works { shelves.old.failed ≡ false }
    requires stands { DoStand shelves.old }
    requires pipes { All (λ m. m.pipe < length shelves.old.setup.pipes) moves.now }
    requires cores { All (λ m. m.core < shelves.old.setup.cores) moves.now }
    requires moved { HaveMoved shelves.old.setup moves.now next window shelves.old }
    ensures moved { IfOk result (λ next. HaveMovedAll shelves.old.setup moves.now next window shelves.new) }
    ensures same { OnOk result (SameButPlaces shelves.old shelves.new) }
    ensures stands { OnOk result (DoStand shelves.new) }
    ensures still { OnOk result (StillStand shelves.old shelves.new) }
{
    let mut next = next;
    'moves: while next < moves.len() && moves[next].window <= window {
        shelves.move_pipe(alloc, moves[next].pipe, moves[next].core)?;
        next += 1;
    }
    Ok(next)
}

/// How many moves come before a window below this number.
fn moves_before(moves: &[Move], windows: u64) -> u64
    ensures { result ≡ moves_below moves.now windows }
{
    moves.iter().filter(|each| each.window < windows).count() as u64
}

/// The visits that each core ran.
fn visits_of(alloc: Global, cores: &[CoreCounts]) -> Result<Vec<u64>, AllocError>
    ensures { IfOk result (λ visits. visits.items ≡ map (λ core. core.visits) cores.now) }
{
    cores.iter().map(|core| core.visits).collect(alloc)
}
