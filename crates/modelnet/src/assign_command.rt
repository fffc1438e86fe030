ghost use Rattle.std.specs.Prelude.{◌≡◌, false};
ghost use Rattle.mn_edge.specs.declared.role.Role.{Role};
ghost use Rattle.mn_words.specs.Order.{IsAssignOrder};
ghost use Rattle.modelnet.specs.Commands.{Answered, status_of};
ghost use Rattle.modelnet.specs.TheCommands.{assign_command, AreWithinUsual};

use crate::assign_run::assigned_text;
use crate::read_limits::ReadLimits;
use crate::roles::{read_input, write_output};
use crate::status::Status;
use mn_edge::{Host, Role};
use mn_words::AssignOrder;
use std::alloc::Global;

/// `assign`: prints which core owns each pipe of a distilled topology.
pub fn assign<H: Host>(
    alloc: Global,
    limits: &ReadLimits,
    order: &AssignOrder,
    host: &mut H,
) -> Result<(), Status>
    requires inactive { (role : Role) → (H.part host.old role).active ≡ false }
    requires order { IsAssignOrder order.now }
    requires limits { AreWithinUsual limits.now }
    ensures { Answered (assign_command limits.now order.now) (H.part host.old) (H.part host.new) (status_of result) }
{
    let name = order.topology.as_str();
    let topology = read_input(alloc, host, Role::Topology, name, limits.topology)?;
    let text = assigned_text(alloc, order, topology)?;
    write_output(host, Role::Screen, "-", text.as_slice())?;
    Ok(())
}
