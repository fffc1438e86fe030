ghost use Rattle.workers.specs.Standing.{StandsAt};

use core_loop::Core;
use gate_ports::GatePorts;

/// A core with its ports, which stand where the core's own counts stand: all that a thread needs to turn it.
#[derive(Drop)]
pub(crate) struct Station<'s> {
    pub(crate) core: Core<'s>,
    pub(crate) ports: GatePorts<'s>,
    ghost stand: { StandsAt core ports },
}
