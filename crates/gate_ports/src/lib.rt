//! The ports of a core between threads: a lane to each core and one from each, itself among them.
//!
//! It depends on parcel, gate_box, journal and mn_base; its contracts tell lanes apart as the kit's atomic_table does its tables.
//! They speak of `GatePortsView` (specs/GatePortsView.antt).
#![tactic(auto)]

mod gate_ports;
mod lane_name;
mod opening;

pub use gate_ports::GatePorts;
pub use lane_name::{LaneName, Parcels};
pub use opening::lanes;

#[cfg(test)]
mod tests;
