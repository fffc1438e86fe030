ghost use Rattle.std.specs.Prelude.{◌≡◌, [], length, replicate, IfOk};
ghost use Rattle.std.specs.FinMap as map;
ghost use Rattle.core_loop.specs.Stocked.{AreStores, AreBytesIn};

use journal::Setup;
use mn_base::{Bytes, NoMemory};
use payload_store::Store;
use std::alloc::Global;

/// A store for each core of a setup, in core order: each holds the bytes of the packets that enter there. `bytes` are those of the
/// setup's packets, in their order.
pub fn stock(alloc: Global, setup: &Setup, bytes: Vec<Bytes>) -> Result<Vec<Store>, NoMemory>
    requires { length bytes.items ≡ length setup.now.packets }
    ensures stores { IfOk result (λ stores. AreStores setup.now stores.items) }
    ensures bytes { IfOk result (λ stores. AreBytesIn setup.now stores.items bytes.items) }
{
    let parts = setup.parts();
    let mut stores = empty_stores(alloc, parts.cores)?;
    let mut index = 0;
    for payload in bytes {
        let plan = parts.packets[index];
        index += 1;
        let store = &mut stores[plan.core as usize];
        match store.put(plan.number, payload) {
            Ok(()) => {}
            Err((refused, _payload)) => return Err(refused),
        }
    }
    Ok(stores)
}

/// So many stores that hold nothing.
fn empty_stores(alloc: Global, count: u32) -> Result<Vec<Store>, NoMemory>
    ensures { IfOk result (λ stores. stores.items ≡ replicate count (record { held = map.empty; released = [] })) }
{
    let mut stores = Vec::with_capacity(alloc, count as usize)?;
    for _core in 0..count {
        stores.push(Store::new(alloc))?;
    }
    Ok(stores)
}
