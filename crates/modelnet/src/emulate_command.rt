ghost use Rattle.std.specs.Prelude.{◌≡◌, false};
ghost use Rattle.mn_edge.specs.declared.role.Role.{Role};
ghost use Rattle.mn_words.specs.Order.{IsEmulateOrder};
ghost use Rattle.modelnet.specs.Commands.{Answered, TallyAfter, status_of};
ghost use Rattle.modelnet.specs.TheCommands.{run_command, AreWithinUsual};

use crate::plan_inputs::read_plan;
use crate::planning::Planning;
use crate::read_limits::ReadLimits;
use crate::run_outputs::write_texts;
use crate::running_threads::emulated;
use crate::status::Status;
use core_loop::Tally;
use mn_base::NoMemory;
use mn_edge::Host;
use mn_words::RunOrder;
use std::sync::Wait;
use std::thread::Threads;
use workers::Hook;

/// `emulate`: emulates a trace over a topology, each core on a thread of its own.
pub fn emulate<R: Threads + Wait + Sync + AllocGlobal, H: Host, K: Hook>(
    rt: &R,
    limits: &ReadLimits,
    order: &RunOrder,
    host: &mut H,
    hook: &K,
    tally: &mut Tally,
) -> Result<(), Status>
    requires inactive { (role : Role) → (H.part host.old role).active ≡ false }
    requires order { IsEmulateOrder order.now }
    requires limits { AreWithinUsual limits.now }
    ensures answered { Answered (run_command limits.now order.now) (H.part host.old) (H.part host.new) (status_of result) }
    ensures tally { TallyAfter (run_command limits.now order.now) (H.part host.old) (H.part host.new) tally.old tally.new (status_of result) }
{
    let planned = read_plan(rt.alloc(), limits, &Planning::of_run(order), host)?;
    let texts = match emulated(rt, order, planned, hook, tally) {
        Ok(texts) => texts,
        Err(NoMemory) => return Err(Status::NoMemory),
    };
    write_texts(order.out.as_str(), order.report.as_str(), &texts, host)
}
