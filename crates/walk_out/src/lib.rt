//! What a mode keeps of a topology: which links stay, and between which border nodes the middle is replaced by pipes.
//!
//! It depends on topo, frontier and mn_base. Its contracts speak in `parts_around` (specs/Parts.antt) and in `hop_parts`,
//! `walk_parts` and `walk_out_parts` (specs/WalkOut.antt).
#![tactic(auto)]

pub mod laws;
mod parts;
mod walks;

pub use parts::{Parts, hop};
pub use walks::{walk_in, walk_out};

#[cfg(test)]
mod tests;
