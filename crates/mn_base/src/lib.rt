//! What every crate of the emulator speaks in: units, limits, ranges, parameters of a pipe, bytes, refusals and causes.
//! It depends on std alone.
//! Its contracts speak in the formulas of specs/Units.antt, the ranges of specs/Ranges.antt and the decimals of
//! specs/Decimal.antt.
#![tactic(auto)]

mod bytes;
mod causes;
mod decimal;
mod draws;
mod due;
mod fields;
pub mod laws;
pub mod limits;
mod lines;
mod params;
mod ranges;
mod refusal;
mod units;

pub use bytes::Bytes;
pub use causes::{Cause, Unbound};
pub use decimal::read_u64;
pub use draws::Draws;
pub use due::Due;
pub use fields::field;
pub use lines::{count_lines, split_line};
pub use params::PipeParams;
pub use ranges::{is_bandwidth, is_latency, is_link_type, is_loss, is_queue_limit};
pub use refusal::{NoMemory, Refusal};
pub use units::{entry_tick, keep_both, keep_of_ppm, ticks_of_us, tx_ns};

#[cfg(test)]
mod tests;
