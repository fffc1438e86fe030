//! A run on one thread, window by window, in which pipes move to other cores between the windows.
//!
//! It depends on settle, parcel, journal, pipe, deadline_heap, payload_store and mn_base, and takes what stores hold and what is settled
//! from the definitions of core_loop. Its contracts speak of `ShelvesView` (specs/ShelvesView.antt), of what stands between two windows,
//! `ShelvesStand` (specs/Standing.antt), and of whole runs, `Moves` (specs/Moves.antt).
#![tactic(auto)]

mod due_list;
mod entrants;
mod finishing;
pub mod laws;
mod moves;
mod moving;
mod pipe_table;
mod shelf;
mod shelves;
mod starting;
mod window;

pub use moves::{Move, Ran, run_moves};
pub use shelves::Shelves;

#[cfg(test)]
mod tests;
