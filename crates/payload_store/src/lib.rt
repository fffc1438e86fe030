//! The payloads of the packets that entered at one core: held until the packet is settled, and each handed out once.
//! It depends on mn_base.
//! Its contracts speak in what is held and in what was released, in order (specs/StoreView.antt).
#![tactic(auto)]

pub mod laws;
mod payload;
mod store;

pub use payload::Payload;
pub use store::Store;

#[cfg(test)]
mod tests;
