//! Directory texts that also name changes of pipes' parameters: they are split into a directory text of the first version and the
//! changes.
//! It depends on mn_base.
//! Its contracts speak in `SplitsTo` (specs/Splits.antt) and `changes_fault` (specs/Faults.antt).
#![tactic(auto)]

mod faults;
mod head;
pub mod laws;
mod lines;
mod reading;
mod split;

pub use faults::ChangesFault;
pub use head::directory_head;
pub use reading::read_changes;
pub use split::{Change, Split};

#[cfg(test)]
mod tests;
