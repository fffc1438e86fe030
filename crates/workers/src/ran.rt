use gate_ports::GatePorts;
use parcel::CoreResult;

/// A core that has come to its end: its result, and its ports as they are then.
#[derive(Drop)]
pub struct Ran<'s> {
    pub result: CoreResult,
    pub ports: GatePorts<'s>,
}
