//! All cores of an emulation on threads: core 0 on the caller's own, each other one on a thread of its own, with lanes between them.
//!
//! It depends on core_loop, gate_ports, parcel, payload_store, journal and mn_base. Its contracts speak of the results of all cores
//! (parcel's `AreResults`) and of what went through their ports, `HaveCarriedAll` (specs/Ran.antt).
#![tactic(auto)]

mod ending;
mod flags;
mod hook;
mod place;
mod ran;
mod running;
mod starting;
mod station;
mod turning;
mod working;

pub use hook::Hook;
pub use ran::Ran;
pub use running::run_threads;

#[cfg(test)]
mod tests;
