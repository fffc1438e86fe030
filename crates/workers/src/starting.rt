ghost use Rattle.std.specs.Prelude.{◌≡◌, length, IfOk};
ghost use Rattle.core_loop.specs.Stocked.{AreStores};
ghost use Rattle.workers.specs.Starting.{AreAtStart};

use crate::station::Station;
use core_loop::Core;
use gate_ports::lanes;
use journal::Setup;
use mn_base::NoMemory;
use payload_store::Store;
use std::alloc::Global;

/// The cores of a setup with their ports, in core order, each with its store. None has made a turn.
pub(crate) fn stations<'s>(
    alloc: Global,
    setup: &'s Setup,
    stores: Vec<Store>,
) -> Result<Vec<Station<'s>>, NoMemory>
    requires stores { AreStores setup.now stores.items }
    ensures { IfOk result (λ all. AreAtStart setup.now stores.items setup.now.cores all.items) }
{
    let _parts = setup.parts();
    let mut all = Vec::with_capacity(alloc, stores.len())?;
    let mut number = 0;
    for (store, ports) in stores.into_iter().zip(lanes(alloc, setup)?) {
        let core = Core::start(alloc, setup, number, store)?;
        all.push(Station { core, ports })?;
        number += 1;
    }
    Ok(all)
}
