ghost use Rattle.std.specs.Prelude.{◌≡◌, false};
ghost use Rattle.mn_edge.specs.declared.role.Role.{Role};
ghost use Rattle.modelnet.specs.Answers.{Answers, IsExact, WantsNoThreads, Tallies, asks_to_emulate, plainly_ordered};
ghost use Rattle.modelnet.specs.Commands.{Answered, TallyAfter, status_of};
ghost use Rattle.modelnet.specs.TheCommands.{row_of, usual_limits, AreWithinUsual};
ghost use Rattle.mn_words.specs.Words.{texts, IsInRange};

use crate::assign_command::assign;
use crate::chain_command::chain;
use crate::check_command::check;
use crate::distill_command::distill;
use crate::journal_command::list_visits;
use crate::migrate_command::migrate;
use crate::read_limits::{ReadLimits, usual_limits};
use crate::red_command::drop_early;
use crate::rehearse_command::rehearse;
use crate::status::Status;
use crate::workload_command::summarise;
use core_loop::Tally;
use mn_base::Refusal;
use mn_edge::Host;
use mn_words::{Order, WordsFault, read_words};
use std::alloc::Global;

/// Does what a command line asks for on one thread: reads its inputs, runs, and writes its outputs. The cores of a run that came to
/// its end count in the tally. Here `emulate` is no command, whatever words follow.
///
/// All memory is taken before the first output is begun. The words are those after the program's name.
pub fn plain<H: Host>(alloc: Global, words: &[&str], host: &mut H, tally: &mut Tally) -> Status
    requires { (role : Role) → (H.part host.old role).active ≡ false }

    // What stands after each answer, and its cause.
    ensures answers { Answers usual_limits (plainly_ordered (texts words.now)) (H.part host.old) (H.part host.new) result }

    // Each cause has its answer, and where there is none all is done. Out of memory alone is free.
    ensures exact { IsExact usual_limits (plainly_ordered (texts words.now)) (H.part host.old) (H.part host.new) result }

    // When a run is done, its cores, windows and visits have been added.
    ensures tally { Tallies usual_limits (plainly_ordered (texts words.now)) (H.part host.old) (H.part host.new) tally.old tally.new result }
{
    let limits = usual_limits();
    plain_within(alloc, &limits, words, host, tally)
}

/// The same, where no more bytes of a role are read than these limits.
pub fn plain_within<H: Host>(
    alloc: Global,
    limits: &ReadLimits,
    words: &[&str],
    host: &mut H,
    tally: &mut Tally,
) -> Status
    requires inactive { (role : Role) → (H.part host.old role).active ≡ false }
    requires limits { AreWithinUsual limits.now }
    ensures answers { Answers limits.now (plainly_ordered (texts words.now)) (H.part host.old) (H.part host.new) result }
    ensures tally { Tallies limits.now (plainly_ordered (texts words.now)) (H.part host.old) (H.part host.new) tally.old tally.new result }
{
    if asks_to_emulate(words) {
        return Status::BadWords(WordsFault::Command);
    }
    match read_words(alloc, words) {
        Ok(order) => command(alloc, limits, &order, host, tally),
        Err(Refusal::NoMemory) => Status::NoMemory,
        Err(Refusal::Fault(fault)) => Status::BadWords(fault),
    }
}

/// Whether the first word asks for `emulate`.
fn asks_to_emulate(words: &[&str]) -> bool
    ensures { result ≡ asks_to_emulate (texts words.now) }
{
    match words.first() {
        Some(word) => *word == "emulate",
        None => false,
    }
}

/// Does what an order asks for on one thread.
pub fn command<H: Host>(
    alloc: Global,
    limits: &ReadLimits,
    order: &Order,
    host: &mut H,
    tally: &mut Tally,
) -> Status
    requires inactive { (role : Role) → (H.part host.old role).active ≡ false }
    requires plain { WantsNoThreads order.now }
    requires ranges { IsInRange order.now }
    requires limits { AreWithinUsual limits.now }
    ensures answered { Answered (row_of limits.now order.now) (H.part host.old) (H.part host.new) result }
    ensures tally { TallyAfter (row_of limits.now order.now) (H.part host.old) (H.part host.new) tally.old tally.new result }
{
    match order {
        Order::Chain(order) => ended(chain(alloc, limits, order, host)),
        Order::Distill(order) => ended(distill(alloc, limits, order, host)),
        Order::Assign(order) => ended(assign(alloc, limits, order, host)),
        Order::Rehearse(order) => ended(rehearse(alloc, limits, order, host, tally)),
        Order::Emulate(_) => unreachable!(),
        Order::Workload(order) => ended(summarise(alloc, order, host, tally)),
        Order::Journal(order) => ended(list_visits(alloc, limits, order, host)),
        Order::Check(order) => ended(check(alloc, limits, order, host)),
        Order::Red(order) => ended(drop_early(alloc, limits, order, host)),
        Order::Migrate(order) => ended(migrate(alloc, limits, order, host)),
    }
}

/// How a command ended that was carried out, or stopped with this status.
pub fn ended(outcome: Result<(), Status>) -> Status
    ensures { result ≡ status_of outcome }
{
    match outcome {
        Ok(()) => Status::Done,
        Err(status) => status,
    }
}
