ghost use Rattle.std.specs.Prelude.{◌≡◌, ◌≤◌, false, length, string_bytes, IfOk, IfErr};
ghost use Rattle.mn_base.specs.declared.limits.TheConstants.{JOURNAL_BYTES_MAX};
ghost use Rattle.mn_base.specs.Refused.{IfFault};
ghost use Rattle.journal.specs.Journal.{journal_of};
ghost use Rattle.journal_check.specs.Faults.{JournalFirst};
ghost use Rattle.journal_check.specs.Texts.{journal_out};
ghost use Rattle.mn_edge.specs.declared.role.Role.{Role};
ghost use Rattle.mn_words.specs.Order.{IsCheckOrder};
ghost use Rattle.modelnet.specs.Commands.{Answered, status_of};
ghost use Rattle.modelnet.specs.Journals.{right_line};
ghost use Rattle.modelnet.specs.TheCommands.{check_command, AreWithinUsual};

use crate::plan_inputs::{plan_inputs, read_inputs};
use crate::planning::Planning;
use crate::read_limits::ReadLimits;
use crate::roles::{read_input, write_output};
use crate::status::Status;
use journal::Setup;
use journal_check::{JournalFault, check_journal};
use mn_base::{Bytes, NoMemory, Refusal};
use mn_edge::{Host, Role};
use mn_words::CheckOrder;
use std::alloc::Global;

/// `check`: says whether a journal is that of a trace over a topology, or where it first differs.
pub fn check<H: Host>(
    alloc: Global,
    limits: &ReadLimits,
    order: &CheckOrder,
    host: &mut H,
) -> Result<(), Status>
    requires inactive { (role : Role) → (H.part host.old role).active ≡ false }
    requires order { IsCheckOrder order.now }
    requires limits { AreWithinUsual limits.now }
    ensures { Answered (check_command limits.now order.now) (H.part host.old) (H.part host.new) (status_of result) }
{
    let asked = Planning::of_check(order);
    let inputs = read_inputs(alloc, limits, &asked, host)?;
    let name = order.journal.as_str();
    let journal = read_input(alloc, host, Role::Journal, name, limits.journal)?;
    let planned = plan_inputs(alloc, &asked.options, inputs)?;
    let visits = count_visits(alloc, &planned.setup, journal)?;
    let Ok(line) = right_line(alloc, visits) else {
        return Err(Status::NoMemory);
    };
    write_output(host, Role::Screen, "-", line.as_slice())
}

/// The number of visits of the journal that a setup has, where this is its text. The text is given back as soon as it was checked.
fn count_visits(alloc: Global, setup: &Setup, text: Bytes) -> Result<u32, Refusal<JournalFault>>
    requires { length text ≤ JOURNAL_BYTES_MAX }
    ensures right { IfOk result (λ count. text ≡ journal_out (journal_of setup.now)) }
    ensures count { IfOk result (λ count. count ≡ length (journal_of setup.now)) }
    ensures fault { IfErr result (λ refusal. IfFault refusal (JournalFirst (journal_of setup.now) text)) }
{
    check_journal(alloc, setup, text.as_slice())
}

/// The line that says that a journal is right.
#[tactic(auto, unfolding(crate::specs::Journals::right_line))]
fn right_line(alloc: Global, visits: u32) -> Result<Bytes, NoMemory>
    ensures { IfOk result (λ line. line ≡ right_line visits) }
{
    let line = format!(in alloc; "journal ok {visits}\n")?;
    Ok(Bytes::from_vec(line.into_bytes()))
}
