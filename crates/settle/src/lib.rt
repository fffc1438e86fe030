//! The outcome of a run: who left when and with which bytes, who was dropped where, and what each pipe did.
//! It depends on parcel, journal, pipe and mn_base.
//! Its contracts speak in `IsOutcome` (specs/IsOutcome.antt), the outcome of a setup by the list of its visits.
#![tactic(auto)]

mod counting;
mod gathering;
pub mod laws;
mod merging;
mod outcome;

pub use counting::count_visits;
pub use gathering::{drop_lines, gather};
pub use merging::{merge, outcome_of};
pub use outcome::{DropLine, Leaving, Outcome};

#[cfg(test)]
mod tests;
