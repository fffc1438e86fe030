//! Reads a GML text to a topology, or tells its first fault with its place.
//! It depends on gml_lex, topo and mn_base.
//! Its contract speaks in the texts that read to a topology and in the first fault, of specs/Texts.antt.
#![tactic(auto)]

mod bytes;
mod fault_texts;
mod faults;
mod grammar;
mod graph;
mod items;
mod keys;
pub mod laws;
mod reader;
mod walk;

pub use faults::{GmlFault, Item};
pub use reader::read_gml;

#[cfg(test)]
mod tests;
