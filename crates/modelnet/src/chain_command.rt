ghost use Rattle.std.specs.Prelude.{◌≡◌, false};
ghost use Rattle.mn_edge.specs.declared.role.Role.{Role};
ghost use Rattle.modelnet.specs.Commands.{Answered, status_of};
ghost use Rattle.mn_words.specs.Order.{IsChainOrder};
ghost use Rattle.modelnet.specs.TheCommands.{chain_command, AreWithinUsual};

use crate::chain_run::chain_texts;
use crate::read_limits::ReadLimits;
use crate::roles::read_input;
use crate::run_outputs::write_texts;
use crate::status::Status;
use mn_edge::{Host, Role};
use mn_words::ChainOrder;
use std::alloc::Global;

/// `chain`: replays a trace through a chain of pipes.
pub fn chain<H: Host>(
    alloc: Global,
    limits: &ReadLimits,
    order: &ChainOrder,
    host: &mut H,
) -> Result<(), Status>
    requires inactive { (role : Role) → (H.part host.old role).active ≡ false }
    requires order { IsChainOrder order.now }
    requires limits { AreWithinUsual limits.now }
    ensures { Answered (chain_command limits.now order.now) (H.part host.old) (H.part host.new) (status_of result) }
{
    let trace = read_input(alloc, host, Role::Trace, order.trace.as_str(), limits.trace)?;
    let texts = chain_texts(alloc, order, trace)?;
    write_texts(order.out.as_str(), order.report.as_str(), &texts, host)
}
