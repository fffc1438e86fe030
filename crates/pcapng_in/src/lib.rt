//! Captures that are read whatever their format: pcapng files in a stated profile, and classic pcap by pcap_io.
//! It depends on mn_base (limits, refusals, bytes) and pcap_io (numbers in bytes, traces, classic captures).
//! Its contracts speak in `Pcapng`, the relation of a file's blocks to its trace, and in `NgFirst`, the first fault.
#![tactic(auto)]

mod blocks;
mod capture;
mod fault;
mod interface;
pub mod laws;
mod packets;
mod rate;
mod reading;
mod state;

pub use capture::read_capture;
pub use fault::{CaptureFault, NgFault};

#[cfg(test)]
mod tests;
