//! What cores hand to one another and tell of their work: windows of time, parcels of notes, and the results and counts of a
//! run.
//!
//! It depends on journal, pipe and mn_base. Its contracts speak of `lookahead_of` (specs/Lookahead.antt), `window_of`
//! (specs/Windows.antt), `IsParcel` (specs/Parcels.antt), `IsResult` (specs/Results.antt) and `PlainBoxesView`
//! (specs/PlainBoxesView.antt).
#![tactic(auto)]

mod core_result;
mod counts;
mod crossed;
pub mod laws;
mod note;
mod parcel;
mod pipe_set;
mod plain_boxes;
mod ports;

pub use core_result::{CoreResult, Settled};
pub use counts::{CoreCounts, PipeCounts};
pub use crossed::{lookahead, lookahead_by};
pub use note::Note;
pub use parcel::Parcel;
pub use plain_boxes::PlainBoxes;
pub use ports::{Busy, Empty, Ports};

#[cfg(test)]
mod tests;
