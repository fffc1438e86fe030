//! What holds of every store. This function computes nothing: its clause is the fact.
ghost use Rattle.payload_store.specs.StoreView.{ReleasesOnce};

use crate::store::Store;

/// No packet was released twice, and none that was released is held.
pub fn packets_are_released_once(store: &Store)
    ensures { ReleasesOnce store.now }
{
    let _held = store.len();
}
