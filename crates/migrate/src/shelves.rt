ghost use Rattle.std.specs.Prelude.{◌≡◌, ◌↔◌, ◌<◌, ◌≤◌, ℕ, List, length, true, false, IfOk, OnOk, OnErr, MatchBool};
ghost use Rattle.journal.specs.Journal.{journal_of};
ghost use Rattle.core_loop.specs.Stocked.{AreStores, AreBytesIn};
ghost use Rattle.settle.specs.IsOutcome.{IsOutcome};
ghost use Rattle.migrate.specs.Standing.{ShelvesStand, StillStand, HaveRunNothing, HaveRunAll, RunsWindow};
ghost use Rattle.migrate.specs.Moving.{MovesPipe};
ghost use Rattle.migrate.specs.Finishing.{AreCoreCounts};

use crate::finishing::{all_settled, core_counts};
use crate::moving::carry;
use crate::shelf::Shelf;
use crate::starting::{enter_all, idle_counts, idle_shelves, lay_out};
use crate::window::first_of;
use journal::Setup;
use mn_base::NoMemory;
use parcel::{PipeCounts, lookahead_by};
use payload_store::Store;
use settle::{Outcome, outcome_of};
use std::alloc::Global;
use std::marker::Model;

/// The cores of a run on one thread, window by window. Between two windows pipes may move from core to core; payloads stay where their
/// packets entered.
///
/// A call that answers `NoMemory` may have changed the shelves; after it every later call but `abandon` answers `NoMemory`.
#[derive(Drop)]
pub struct Shelves<'s> {
    pub(crate) setup: &'s Setup,
    /// The core that owns each pipe.
    pub(crate) owners: Vec<u32>,
    /// What became of the visits to each pipe.
    pub(crate) counts: Vec<PipeCounts>,
    pub(crate) shelves: Vec<Shelf>,
    /// The end of the last window, a tick.
    pub(crate) end: u64,
    /// How many windows are run.
    pub(crate) windows: u64,
    /// How many visits are made.
    pub(crate) made: u64,
    /// A call found no memory; what is held is in no order. It is set, too, while a pipe moves or a window is run.
    pub(crate) failed: bool,
}

impl<'s> Model for Shelves<'s> {
    ghost use Rattle.migrate.specs.ShelvesView.{ShelvesView};

    ghost Value = { ShelvesView };

    ghost use Rattle.std.specs.Coded.{codes, coded_ℕ, coded_list};
    ghost use Rattle.std.specs.FinMap as map;
    ghost use Rattle.std.specs.Ordering.{nat_cmp};

    ghost coded = { Prim.hlevel (codes, map.code {R = nat_cmp} coded_ℕ (coded_list coded_ℕ)) };

    ghost use Rattle.migrate.specs.Inside.{shelves_view, AreShelves};

    ghost view = { shelves_view };

    ghost invariant = { AreShelves };
}

impl<'s> Shelves<'s> {
    /// The cores of a setup, each with its store, in core order. No window is run, and each pipe is at its owner.
    pub fn start(
        alloc: Global,
        setup: &'s Setup,
        stores: Vec<Store>,
    ) -> Result<Shelves<'s>, NoMemory>
        requires stores { AreStores setup.now stores.items }
        ensures setup { IfOk result (λ s. s.setup ≡ setup.now) }
        ensures nothing { IfOk result HaveRunNothing }
        ensures stands { IfOk result (λ s. (bytes : List (List ℕ)) → AreBytesIn setup.now stores.items bytes → ShelvesStand bytes s) }
        ensures works { IfOk result (λ s. s.failed ≡ false) }
    {
        let parts = setup.parts();
        let owners = Vec::from_clones(alloc, &parts.owners)?;
        let counts = idle_counts(alloc, setup)?;
        let mut shelves = idle_shelves(alloc, stores)?;
        lay_out(alloc, setup, &mut shelves)?;
        enter_all(setup, &mut shelves)?;
        Ok(Shelves {
            setup,
            owners,
            counts,
            shelves,
            end: 0,
            windows: 0,
            made: 0,
            failed: false,
        })
    }

    /// Moves a pipe to a core: its state and its due visits go with it.
    pub fn move_pipe(&mut self, alloc: Global, pipe: u32, core: u32) -> Result<(), NoMemory>
        requires pipe { pipe < length self.old.setup.pipes }
        requires core { core < self.old.setup.cores }
        ensures setup { self.new.setup ≡ self.old.setup }
        ensures moves { OnOk result (MovesPipe self.old pipe core self.new) }
        ensures stands { OnOk result (StillStand self.old self.new) }
        ensures works { OnOk result (self.new.failed ≡ false) }

        // Out of memory: the end of the last window is what it was, and no later call goes on.
        ensures end { self.new.end ≡ self.old.end }
        ensures failed { OnErr result (self.new.failed ≡ true) }
        ensures failed_before { self.old.failed ≡ true → OnOk result ⊥ }
    {
        if self.failed {
            return Err(NoMemory);
        }
        let giver = self.owners[pipe as usize];
        if giver == core {
            return Ok(());
        }
        self.failed = true;
        carry(alloc, self.setup, &mut self.shelves, pipe, giver, core)?;
        self.owners[pipe as usize] = core;
        self.failed = false;
        Ok(())
    }

    /// Runs the next window; false where no visit is left. The window starts at the least due tick, and is as long as the lookahead
    /// with the owners as they stand; each of its visits is run by the owner of its pipe.
    pub fn run_window(&mut self, alloc: Global) -> Result<bool, NoMemory>
        ensures setup { self.new.setup ≡ self.old.setup }
        ensures runs { IfOk result (λ ran. MatchBool ran (RunsWindow self.old self.new) (self.new ≡ self.old)) }
        ensures left { IfOk result (λ ran. (ran ≡ false) ↔ HaveRunAll self.old) }
        ensures stands { OnOk result (StillStand self.old self.new) }
        ensures works { OnOk result (self.new.failed ≡ false) }

        // There are no more windows than visits.
        ensures few { OnOk result (self.new.windows ≤ length (journal_of self.new.setup)) }

        // Out of memory: no later call goes on.
        ensures failed { OnErr result (self.new.failed ≡ true) }
        ensures failed_before { self.old.failed ≡ true → OnOk result ⊥ }
    {
        if self.failed {
            return Err(NoMemory);
        }
        let Some(head) = first_of(&self.shelves) else {
            return Ok(false);
        };
        let end = head.due.tick + lookahead_by(self.setup, &self.owners);
        self.failed = true;
        self.run_before(alloc, end)?;
        self.end = end;
        self.windows += 1;
        self.failed = false;
        Ok(true)
    }

    /// The outcome of the setup, when the last `run_window` has answered false: all visits are before the end of the last window. Its
    /// cores have the pipes that they own at the end, the packets that entered, the visits that they ran, no notes, and the windows.
    pub fn finish(self, alloc: Global) -> Result<Outcome, NoMemory>
        requires all { HaveRunAll self }
        ensures outcome { IfOk result (λ o. (bytes : List (List ℕ)) → ShelvesStand bytes self.entry
            → IsOutcome self.entry.setup (journal_of self.entry.setup) bytes o) }
        ensures cores { IfOk result (λ o. AreCoreCounts self.entry o.cores) }
        ensures failed_before { self.entry.failed ≡ true → OnOk result ⊥ }
    {
        let Shelves {
            setup,
            owners,
            counts,
            shelves,
            end: _,
            windows,
            made: _,
            failed,
        } = self;
        if failed {
            return Err(NoMemory);
        }
        let cores = core_counts(alloc, setup, &owners, &shelves, windows)?;
        let settled = all_settled(alloc, shelves)?;
        outcome_of(alloc, setup, settled, counts, cores)
    }

    /// Gives all up.
    pub fn abandon(self) {
        let _ = self;
    }
}
