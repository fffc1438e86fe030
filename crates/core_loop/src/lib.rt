//! One core of an emulation: it owns some of the pipes, keeps the payloads of the packets that enter there, runs its visits window by
//! window, and trades parcels with the other cores over any ports.
//!
//! It depends on parcel, payload_store, deadline_heap, journal, pipe and mn_base. Its contracts speak of `CoreView`
//! (specs/CoreView.antt), of what a core has between its turns, `CoreStands` (specs/WorldState.antt), and of turns (specs/Turns.antt).
#![tactic(auto)]

mod entering;
mod entrants;
mod handing;
mod one_core;
mod own_pipes;
mod peer;
mod round;
mod stores;
mod tally;
mod told;
mod trading;
mod turn;
mod turning;
mod work;

pub use one_core::Core;
pub use stores::stock;
pub use tally::Tally;
pub use turn::{PortName, Turn};
