//! Pipes in a row whose queues drop early, the one list of all visits to them, and the report of what came of each packet.
//! It depends on pipe, loss_words and mn_base.
//! Its contracts speak of `red_outcome` (specs/Outcome.antt), `IsRedJournal` and `red_journal_of` (specs/Journal.antt), and
//! `red_report_text` (specs/Report.antt).
#![tactic(auto)]

mod at_work;
mod averages;
mod fate;
pub mod laws;
mod maker;
mod packet_fates;
mod params;
mod queue;
mod report_text;
mod setup;
mod step;
mod visit;

pub use fate::{RedCause, RedFate};
pub use maker::red_journal;
pub use packet_fates::red_fates;
pub use params::RedParams;
pub use queue::RedPipe;
pub use report_text::{print_red_fates, print_red_report};
pub use setup::{RedPacket, RedSetup};
pub use step::RedStep;
pub use visit::RedVisit;

#[cfg(test)]
mod tests;
