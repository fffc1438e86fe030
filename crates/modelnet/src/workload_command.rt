ghost use Rattle.std.specs.Prelude.{◌≡◌, false};
ghost use Rattle.mn_edge.specs.declared.role.Role.TheVariants.{Screen};
ghost use Rattle.mn_words.specs.Order.{IsWorkloadOrder};
ghost use Rattle.modelnet.specs.Commands.{Answered, TallyAfter, status_of};
ghost use Rattle.modelnet.specs.TheCommands.{workload_command};

use crate::roles::write_output;
use crate::status::Status;
use crate::workload_run::{prepare, summarised};
use core_loop::Tally;
use mn_edge::{Host, Role};
use mn_words::WorkloadOrder;
use std::alloc::Global;

/// `workload`: emulates a generated trace over a generated topology, and writes what came of it. No role is read.
pub fn summarise<H: Host>(
    alloc: Global,
    order: &WorkloadOrder,
    host: &mut H,
    tally: &mut Tally,
) -> Result<(), Status>
    requires inactive { (H.part host.old Screen).active ≡ false }
    requires order { IsWorkloadOrder order.now }
    ensures answered { Answered (workload_command order.now) (H.part host.old) (H.part host.new) (status_of result) }
    ensures tally { TallyAfter (workload_command order.now) (H.part host.old) (H.part host.new) tally.old tally.new (status_of result) }
{
    let prepared = prepare(alloc, order)?;
    let Ok(summary) = summarised(alloc, prepared, tally) else {
        return Err(Status::NoMemory);
    };
    write_output(host, Role::Screen, "-", summary.as_slice())
}
