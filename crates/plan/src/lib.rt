//! Plans: from a topology, a trace, options and a directory text to a setup, the bytes of its packets, and the packets without a route.
//! It depends on distill, routes, ownership, changes, ip_bind, pcap_io, pipe, journal, topo and mn_base.
//! Its contracts speak in `IsPlan` (specs/Setups.antt), `IsBinding` (specs/Binding.antt) and `PlanFirst` (specs/Faults.antt).
#![tactic(auto)]

mod answering;
mod binder;
mod changing;
mod directing;
mod faults;
pub mod laws;
mod options;
mod parts;
mod planning;
mod router;
mod searches;
mod uses;

pub use faults::PlanFault;
pub use options::Options;
pub use planning::{Planned, plan};

#[cfg(test)]
mod tests;
