//! The two outputs of a run, the trace of the packets that left and the report, the text of a distilled topology, the cluster report,
//! the summary of a generated input, and the text of a run whose pipes moved.
//! It depends on settle, journal, pcap_io, parcel, distill, topo and mn_base.
//! Its contracts speak in `trace_of` (specs/Traces.antt), `IsLeavingTrace` (specs/Leaving.antt), `report_text` (specs/Report.antt),
//! `pipes_text` (specs/Pipes.antt), `cluster_text` (specs/Cluster.antt), `summary_text` (specs/Summary.antt) and
//! `moves_text` (specs/Moves.antt).
#![tactic(auto)]

mod cluster_text;
pub mod laws;
mod leaving;
mod lines;
mod moves_text;
mod pipes_text;
mod printing;
mod summary;
mod traces;

pub use cluster_text::print_cluster;
pub use leaving::{leaving_trace, packet_bytes};
pub use moves_text::print_moves;
pub use pipes_text::print_pipes;
pub use printing::{print_lines, print_report};
pub use summary::{Generated, print_summary};
pub use traces::out_trace;

#[cfg(test)]
mod leaving_tests;
#[cfg(test)]
mod pipes_tests;
#[cfg(test)]
mod tests;
