//! Distilled topologies: the links that a mode keeps, and a mesh of pipes in place of the middle.
//!
//! It depends on routes, frontier, walk_out, topo and mn_base. Its contracts speak in `IsDistilled` (specs/Distilled.antt) and
//! `HasPipeCount` (specs/PipeCount.antt); that least latencies stay is a law (specs/Latency.antt).
#![tactic(auto)]

mod combining;
mod distilled;
mod distilling;
pub mod laws;
mod links;
mod meshing;
mod modes;
mod pipes;

pub use distilled::Distilled;
pub use distilling::distill;
pub use modes::Mode;
pub use pipes::{DistilledPipe, TooManyPipes};

#[cfg(test)]
mod tests;
