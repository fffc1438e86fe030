//! The visits that are due at one core, first the earliest: a timing wheel for the ticks ahead, and an ordered map for the others.
//! It depends on mn_base.
//! Its contracts speak in one list in canonical order (specs/Canonical.antt) and in no slot of the wheel.
#![tactic(auto)]

mod heap;
mod later;
pub mod laws;
mod marks;
mod slot;
mod wheel;

pub use heap::Heap;
pub use mn_base::Due;

#[cfg(test)]
mod tests;
