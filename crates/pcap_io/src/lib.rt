//! Captures in the classic pcap format: what a file says, what is wrong with it first, and what is written.
//! It depends on mn_base (limits, bytes, refusals) and mn_edge (hosts).
//! Its contracts speak in `Pcap`, the relation of a file's bytes to its trace, in `PcapFirst`, the first fault, and in `pcap_text`, the one written form.
#![tactic(auto)]

mod block;
mod fault;
mod form;
pub mod laws;
mod packet;
mod reading;
mod trace;
mod writing;

pub use fault::PcapFault;
pub use form::ByteOrder;
pub use packet::Packet;
pub use reading::read_pcap;
pub use trace::Trace;
pub use writing::write_pcap;

#[cfg(test)]
mod tests;
