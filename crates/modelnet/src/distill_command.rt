ghost use Rattle.std.specs.Prelude.{◌≡◌, false};
ghost use Rattle.mn_edge.specs.declared.role.Role.{Role};
ghost use Rattle.mn_words.specs.Order.{IsDistillOrder};
ghost use Rattle.modelnet.specs.Commands.{Answered, status_of};
ghost use Rattle.modelnet.specs.TheCommands.{distill_command, AreWithinUsual};

use crate::distill_run::distilled_text;
use crate::read_limits::ReadLimits;
use crate::roles::{read_input, write_output};
use crate::status::Status;
use mn_edge::{Host, Role};
use mn_words::DistillOrder;
use std::alloc::Global;

/// `distill`: prints the pipes of a distilled topology.
pub fn distill<H: Host>(
    alloc: Global,
    limits: &ReadLimits,
    order: &DistillOrder,
    host: &mut H,
) -> Result<(), Status>
    requires inactive { (role : Role) → (H.part host.old role).active ≡ false }
    requires order { IsDistillOrder order.now }
    requires limits { AreWithinUsual limits.now }
    ensures { Answered (distill_command limits.now order.now) (H.part host.old) (H.part host.new) (status_of result) }
{
    let name = order.topology.as_str();
    let topology = read_input(alloc, host, Role::Topology, name, limits.topology)?;
    let text = distilled_text(alloc, order, topology)?;
    write_output(host, Role::Screen, "-", text.as_slice())?;
    Ok(())
}
