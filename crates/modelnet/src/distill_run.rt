ghost use Rattle.std.specs.Prelude.{◌≡◌, ◌≤◌, [], ◌∷◌, length, IfOk, IfErr};
ghost use Rattle.mn_words.specs.Order.{IsDistillOrder};
ghost use Rattle.modelnet.specs.Distilling.{SaysPipes};
ghost use Rattle.modelnet.specs.Exact.{NoMemoryOrRefuses};
ghost use Rattle.modelnet.specs.TheCommands.{topology_refuses};

use crate::distilling::distilled_topology;
use crate::status::Status;
use mn_base::Bytes;
use mn_base::limits::TOPOLOGY_BYTES_MAX;
use mn_words::DistillOrder;
use report::print_pipes;
use std::alloc::Global;

/// The text of the pipes that the topology of these bytes has in the order's mode.
pub fn distilled_text(alloc: Global, order: &DistillOrder, text: Bytes) -> Result<Bytes, Status>
    requires order { IsDistillOrder order.now }
    requires few { length text ≤ TOPOLOGY_BYTES_MAX }
    ensures pipes { IfOk result (SaysPipes order.now text) }
    ensures refusal { IfErr result (NoMemoryOrRefuses (topology_refuses order.now.mode) (text ∷ [])) }
{
    let kept = distilled_topology(alloc, text, order.mode, order.tick_ns)?;
    let Ok(screen) = print_pipes(
        alloc,
        &kept.topology,
        &kept.distilled,
        order.mode,
        order.tick_ns,
    ) else {
        return Err(Status::NoMemory);
    };
    Ok(screen)
}
