ghost use Rattle.std.specs.Prelude.{◌≡◌, false};
ghost use Rattle.mn_edge.specs.declared.role.Role.{Role};
ghost use Rattle.modelnet.specs.Commands.{Answered, status_of};
ghost use Rattle.mn_words.specs.Order.{IsRedOrder};
ghost use Rattle.modelnet.specs.TheCommands.{red_command, AreWithinUsual};

use crate::read_limits::ReadLimits;
use crate::red_run::red_texts;
use crate::roles::read_input;
use crate::run_outputs::write_texts;
use crate::status::Status;
use mn_edge::{Host, Role};
use mn_words::RedOrder;
use std::alloc::Global;

/// `red`: replays a trace through pipes in a row whose queues drop early.
pub fn drop_early<H: Host>(
    alloc: Global,
    limits: &ReadLimits,
    order: &RedOrder,
    host: &mut H,
) -> Result<(), Status>
    requires inactive { (role : Role) → (H.part host.old role).active ≡ false }
    requires order { IsRedOrder order.now }
    requires limits { AreWithinUsual limits.now }
    ensures { Answered (red_command limits.now order.now) (H.part host.old) (H.part host.new) (status_of result) }
{
    let trace = read_input(alloc, host, Role::Trace, order.trace.as_str(), limits.trace)?;
    let texts = red_texts(alloc, order, trace)?;
    write_texts(order.out.as_str(), order.report.as_str(), &texts, host)
}
