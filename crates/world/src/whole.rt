ghost use Rattle.std.specs.Prelude.{◌≡◌, ◌<◌, ◌*◌, ℕ, true, false, List, length, IfOk, OnOk, OnErr};
ghost use Rattle.journal.specs.Journal.{journal_of};
ghost use Rattle.parcel.specs.Windows.{window_count};
ghost use Rattle.parcel.specs.Results.{AreResults};
ghost use Rattle.core_loop.specs.CoreView.{CoreView, windows_of, posted_of, taken_of};
ghost use Rattle.core_loop.specs.Stocked.{AreStores, AreBytesIn};
ghost use Rattle.core_loop.specs.TallyView.{added};
ghost use Rattle.world.specs.WorldView.{IsCoreOf};
ghost use Rattle.world.specs.Starting.{CoresStarted};
ghost use Rattle.world.specs.Worlds.{WorldStands, IsWorldDone};

use core_loop::{Core, Tally};
use journal::Setup;
use mn_base::NoMemory;
use parcel::{CoreResult, PlainBoxes};
use payload_store::Store;
use std::alloc::Global;
use std::marker::Model;

/// All cores of a setup, with a box for each way between two of them.
#[derive(Drop)]
pub struct World<'s> {
    pub(crate) setup: &'s Setup,
    pub(crate) cores: Vec<Core<'s>>,
    pub(crate) boxes: PlainBoxes<'s>,
    /// A core found no memory.
    pub(crate) failed: bool,
}

impl<'s> Model for World<'s> {
    ghost use Rattle.world.specs.WorldView.{WorldView, IsWorld};

    ghost Value = { WorldView };

    ghost use Rattle.std.specs.Coded.{codes, coded_ℕ, coded_list};
    ghost use Rattle.std.specs.FinMap as map;
    ghost use Rattle.std.specs.Ordering.{nat_cmp};

    ghost coded = { Prim.hlevel (codes, map.code {R = nat_cmp} coded_ℕ (coded_list coded_ℕ)) };

    ghost view = { λ w. record { setup = w.setup.now; cores = w.cores.items; boxes = w.boxes; failed = w.failed } };

    ghost invariant = { λ w. IsWorld (record { setup = w.setup.now; cores = w.cores.items; boxes = w.boxes; failed = w.failed }) };
}

impl<'s> World<'s> {
    /// The cores of a setup, each with its store, in core order. No window is run, and nothing is posted or taken.
    pub fn start(alloc: Global, setup: &'s Setup, stores: Vec<Store>) -> Result<World<'s>, NoMemory>
        requires stores { AreStores setup.now stores.items }
        ensures setup { IfOk result (λ w. w.setup ≡ setup.now) }
        ensures works { IfOk result (λ w. w.failed ≡ false) }
        ensures stands { IfOk result (λ w. (bytes : List (List ℕ)) → AreBytesIn setup.now stores.items bytes → WorldStands bytes w) }
        ensures windows { IfOk result (λ w. (core : ℕ) (c : CoreView) → IsCoreOf w core c → windows_of c ≡ 0) }
        ensures posted { IfOk result (λ w. (core other : ℕ) (c : CoreView) → IsCoreOf w core c → posted_of c other ≡ 0) }
        ensures taken { IfOk result (λ w. (core other : ℕ) (c : CoreView) → IsCoreOf w core c → taken_of c other ≡ 0) }
    {
        let _parts = setup.parts();
        let boxes = PlainBoxes::new(alloc, setup)?;
        let cores = started(alloc, setup, stores)?;
        Ok(World {
            setup,
            cores,
            boxes,
            failed: false,
        })
    }

    /// The results of all cores, in core order, when all are done. The cores count in the tally, or none does, where memory is refused.
    pub fn finish(self, alloc: Global, tally: &mut Tally) -> Result<Vec<CoreResult>, NoMemory>
        requires done { IsWorldDone self }
        ensures results { IfOk result (λ results. (bytes : List (List ℕ)) → WorldStands bytes self.entry
            → AreResults self.entry.setup bytes results.items) }
        ensures tally { OnOk result (tally.new ≡ added tally.old self.entry.setup.cores
            (self.entry.setup.cores * window_count self.entry.setup) (length (journal_of self.entry.setup))) }
        ensures untouched { OnErr result (tally.new ≡ tally.old) }
    {
        let World {
            setup: _,
            cores,
            boxes: _,
            failed: _,
        } = self;
        let mut results = Vec::with_capacity(alloc, cores.len())?;
        for core in cores {
            results.push_reserved(core.finish(tally));
        }
        Ok(results)
    }

    /// Gives up its cores, with their stores and parcels.
    pub fn abandon(self) {
        let _ = self;
    }
}

/// The cores of a setup, in core order, each with its store.
fn started<'s>(
    alloc: Global,
    setup: &'s Setup,
    stores: Vec<Store>,
) -> Result<Vec<Core<'s>>, NoMemory>
    requires stores { AreStores setup.now stores.items }
    ensures { IfOk result (λ cores. CoresStarted setup.now stores.items setup.now.cores cores.items) }
{
    let _parts = setup.parts();
    let mut cores = Vec::with_capacity(alloc, stores.len())?;
    let mut number = 0;
    for store in stores {
        cores.push(Core::start(alloc, setup, number, store)?)?;
        number += 1;
    }
    Ok(cores)
}
