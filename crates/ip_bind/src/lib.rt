//! The addresses of captured frames, and the nodes of a topology by their addresses.
//! It depends on topo and mn_base.
//! Its contracts speak in `addresses_of` (specs/Frames.antt) and `node_with_address` (specs/Books.antt).
#![tactic(auto)]

mod book;
mod frames;
pub mod laws;

pub use book::AddressBook;
pub use frames::addresses;

#[cfg(test)]
mod tests;
