//! One lane between two threads: items go from its sender to its receiver, one at a time, in order, each once.
//! It depends on mn_base and on the kit's atomic_table.
//! Its contracts speak of what each end knows (specs/EndView.antt); the rule of the word between them is `LaneOk` (specs/Gate.antt).
#![tactic(auto)]

mod ends;
mod lane;
mod opening;
mod rule;

pub use ends::{LaneBusy, LaneEmpty, Receiver, Sender};
pub use lane::Lane;
pub use opening::pair;

#[cfg(test)]
mod tests;
