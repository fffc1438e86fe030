ghost use Rattle.std.specs.Prelude.{◌≡◌, false};
ghost use Rattle.mn_edge.specs.declared.role.Role.{Role};
ghost use Rattle.mn_words.specs.Order.{IsMigrateOrder};
ghost use Rattle.modelnet.specs.Commands.{Answered, status_of};
ghost use Rattle.modelnet.specs.TheCommands.{migrate_command, AreWithinUsual};

use crate::migrate_run::moved_texts;
use crate::plan_inputs::read_plan;
use crate::planning::Planning;
use crate::read_limits::ReadLimits;
use crate::run_outputs::write_texts;
use crate::status::Status;
use mn_edge::Host;
use mn_words::MigrateOrder;
use std::alloc::Global;

/// `migrate`: replays a trace over a topology while pipes move between cores.
pub fn migrate<H: Host>(
    alloc: Global,
    limits: &ReadLimits,
    order: &MigrateOrder,
    host: &mut H,
) -> Result<(), Status>
    requires inactive { (role : Role) → (H.part host.old role).active ≡ false }
    requires order { IsMigrateOrder order.now }
    requires limits { AreWithinUsual limits.now }
    ensures { Answered (migrate_command limits.now order.now) (H.part host.old) (H.part host.new) (status_of result) }
{
    let planned = read_plan(alloc, limits, &Planning::of_migrate(order), host)?;
    let texts = moved_texts(alloc, order, planned)?;
    write_texts(order.out.as_str(), order.report.as_str(), &texts, host)
}
