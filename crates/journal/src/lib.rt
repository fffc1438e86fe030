//! Setups, the one list of all visits of their packets to pipes (the journal), and what becomes of each packet.
//!
//! It depends on pipe, loss_words and mn_base. Its contracts speak of `IsJournal` (specs/IsJournal.antt), `journal_of`
//! (specs/Journal.antt) and `fate_of` (specs/Fates.antt).
#![tactic(auto)]

mod fate;
pub mod laws;
mod lazy_words;
mod maker;
mod packet_fates;
mod setup;
mod setup_pipe;
pub mod steps;
mod visit;
mod visits;

pub use fate::Fate;
pub use maker::journal;
pub use packet_fates::fates;
pub use setup::{LossBy, PacketPlan, PipeChange, Setup, SetupParts};
pub use visit::Visit;
pub use visits::Visits;

#[cfg(test)]
mod tests;
