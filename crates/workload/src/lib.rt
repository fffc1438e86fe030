//! Generated input: the GML text and the trace that a number stands for.
//! It depends on mn_base (draws, limits, bytes) and pcap_io (what a capture's text is).
//! Its contracts speak in `workload_gml` (specs/Gml.antt) and `workload_trace` (specs/Trace.antt): lines and packets whose values are
//! draws told by their numbers.
#![tactic(auto)]

mod gml;
mod shape;
mod texts;
mod trace;

pub use texts::workload;

#[cfg(test)]
mod tests;
