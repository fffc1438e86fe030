//! The host behind which all input and output stands: its trait, whole reads and writes, a host in memory and the real one.
//! It depends on mn_base.
//! Contracts speak of a host as a function from roles to parts (Part), and of whole reads and writes by ReadsWhole and AddsWhole.
#![tactic(auto)]

mod fail;
mod host;
mod memory;
mod real;
mod real_role;
mod role;
mod stream;
#[cfg(test)]
mod tests;
mod whole;

pub use fail::{Fail, Op};
pub use host::{Failed, Host, WriteFault};
pub use memory::MemoryHost;
pub use real::RealHost;
pub use role::Role;
pub use stream::NAME_MAX;
pub use whole::{ReadEnd, read_all, write_all};
