//! The text of a journal: printed, and checked line by line against the journal of a setup.
//! It depends on journal, pipe and mn_base.
//! Its contracts speak in `journal_out` (specs/Texts.antt) and `JournalFirst` (specs/Faults.antt).
#![tactic(auto)]

mod checking;
mod fault;
pub mod laws;
mod lines;
mod printing;

pub use checking::check_journal;
pub use fault::JournalFault;
pub use printing::print_journal;

#[cfg(test)]
mod tests;
