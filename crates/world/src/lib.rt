//! All cores of an emulation on one thread, over plain boxes, in any order of turns.
//!
//! It depends on core_loop, parcel, payload_store, journal and mn_base. Its contracts speak of `WorldView` (specs/WorldView.antt), of what
//! a world keeps, `WorldStands`, and of its turns (specs/Worlds.antt).
#![tactic(auto)]

mod orders;
mod round_robin;
mod running;
mod whole;

pub use orders::order_list;
pub use whole::World;

#[cfg(test)]
mod tests;
