ghost use Rattle.std.specs.Prelude.{◌≡◌, false};
ghost use Rattle.mn_edge.specs.declared.role.Role.{Role};
ghost use Rattle.modelnet.specs.Answers.{Answers, IsExact, Tallies};
ghost use Rattle.modelnet.specs.Commands.{Answered, TallyAfter};
ghost use Rattle.modelnet.specs.TheCommands.{row_of, usual_limits, AreWithinUsual};
ghost use Rattle.mn_words.specs.Words.{ordered, texts, IsInRange};

use crate::emulate_command::emulate;
use crate::plain::{command, ended};
use crate::read_limits::{ReadLimits, usual_limits};
use crate::status::Status;
use core_loop::Tally;
use mn_base::Refusal;
use mn_edge::Host;
use mn_words::{Order, read_words};
use std::sync::Wait;
use std::thread::Threads;
use workers::Hook;

/// Does what a command line asks for, as `plain` does, and `emulate`, which runs each core on a thread of its own. The hook is called
/// before the first turn of each core, on its thread.
pub fn modelnet<R: Threads + Wait + Sync + AllocGlobal, H: Host, K: Hook>(
    rt: &R,
    words: &[&str],
    host: &mut H,
    hook: &K,
    tally: &mut Tally,
) -> Status
    requires { (role : Role) → (H.part host.old role).active ≡ false }

    // What stands after each answer, and its cause.
    ensures answers { Answers usual_limits (ordered (texts words.now)) (H.part host.old) (H.part host.new) result }

    // Each cause has its answer, and where there is none all is done. Out of memory alone is free.
    ensures exact { IsExact usual_limits (ordered (texts words.now)) (H.part host.old) (H.part host.new) result }

    // When a run is done, its cores, windows and visits have been added.
    ensures tally { Tallies usual_limits (ordered (texts words.now)) (H.part host.old) (H.part host.new) tally.old tally.new result }
{
    let limits = usual_limits();
    modelnet_within(rt, &limits, words, host, hook, tally)
}

/// The same, where no more bytes of a role are read than these limits.
fn modelnet_within<R: Threads + Wait + Sync + AllocGlobal, H: Host, K: Hook>(
    rt: &R,
    limits: &ReadLimits,
    words: &[&str],
    host: &mut H,
    hook: &K,
    tally: &mut Tally,
) -> Status
    requires inactive { (role : Role) → (H.part host.old role).active ≡ false }
    requires limits { AreWithinUsual limits.now }
    ensures answers { Answers limits.now (ordered (texts words.now)) (H.part host.old) (H.part host.new) result }
    ensures tally { Tallies limits.now (ordered (texts words.now)) (H.part host.old) (H.part host.new) tally.old tally.new result }
{
    match read_words(rt.alloc(), words) {
        Ok(order) => any_command(rt, limits, &order, host, hook, tally),
        Err(Refusal::NoMemory) => Status::NoMemory,
        Err(Refusal::Fault(fault)) => Status::BadWords(fault),
    }
}

/// Does what an order asks for, on one thread or more.
fn any_command<R: Threads + Wait + Sync + AllocGlobal, H: Host, K: Hook>(
    rt: &R,
    limits: &ReadLimits,
    order: &Order,
    host: &mut H,
    hook: &K,
    tally: &mut Tally,
) -> Status
    requires inactive { (role : Role) → (H.part host.old role).active ≡ false }
    requires ranges { IsInRange order.now }
    requires limits { AreWithinUsual limits.now }
    ensures answered { Answered (row_of limits.now order.now) (H.part host.old) (H.part host.new) result }
    ensures tally { TallyAfter (row_of limits.now order.now) (H.part host.old) (H.part host.new) tally.old tally.new result }
{
    let Order::Emulate(run) = order else {
        return command(rt.alloc(), limits, order, host, tally);
    };
    ended(emulate(rt, limits, run, host, hook, tally))
}
