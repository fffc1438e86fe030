ghost use Rattle.std.specs.Prelude.{◌≡◌, ◌≤◌, [], ◌∷◌, length, IfOk, IfErr};
ghost use Rattle.mn_base.specs.Refused.{IfFault};
ghost use Rattle.mn_base.specs.Ranges.{IsTickLength};
ghost use Rattle.gml_reader.specs.Texts.{Reads, IsFirstFault};
ghost use Rattle.distill.specs.Modes.{IsMode};
ghost use Rattle.modelnet.specs.Distilling.{Distils};
ghost use Rattle.modelnet.specs.Exact.{NoMemoryOrRefuses};
ghost use Rattle.modelnet.specs.TheCommands.{topology_refuses};

use crate::status::Status;
use distill::{Distilled, Mode, distill};
use gml_reader::{GmlFault, read_gml};
use mn_base::limits::TOPOLOGY_BYTES_MAX;
use mn_base::{Bytes, Refusal};
use std::alloc::Global;
use topo::Topology;

/// A topology, and what is left of it in a mode.
#[derive(Drop)]
pub struct Distilling {
    pub topology: Topology,
    pub distilled: Distilled,
}

/// The topology that these bytes say, and what is left of it in a mode, whose latencies are in ticks of this length.
pub fn distilled_topology(
    alloc: Global,
    text: Bytes,
    mode: Mode,
    tick_ns: u64,
) -> Result<Distilling, Status>
    requires mode { IsMode mode }
    requires tick { IsTickLength tick_ns }
    requires few { length text ≤ TOPOLOGY_BYTES_MAX }
    ensures distilled { IfOk result (λ d. Distils mode tick_ns text d.topology d.distilled) }
    ensures refusal { IfErr result (NoMemoryOrRefuses (topology_refuses mode) (text ∷ [])) }
{
    let topology = read_topology(alloc, text)?;
    let distilled = distill(alloc, &topology, mode, tick_ns)?;
    // A read of the pipes, so that the proof knows what their type keeps.
    let _kept = distilled.pipes();
    Ok(Distilling {
        topology,
        distilled,
    })
}

/// The topology that these bytes say. They are given back as soon as they are read.
fn read_topology(alloc: Global, text: Bytes) -> Result<Topology, Refusal<GmlFault>>
    requires { length text ≤ TOPOLOGY_BYTES_MAX }
    ensures read { IfOk result (Reads text) }
    ensures fault { IfErr result (λ refusal. IfFault refusal (IsFirstFault text)) }
{
    read_gml(alloc, text.as_slice())
}
