ghost use Rattle.std.specs.Prelude.{◌≡◌, false, IfOk};
ghost use Rattle.journal.specs.Journal.{journal_of};
ghost use Rattle.journal_check.specs.Texts.{journal_out};
ghost use Rattle.mn_edge.specs.declared.role.Role.{Role};
ghost use Rattle.mn_words.specs.Order.{IsJournalOrder};
ghost use Rattle.modelnet.specs.Commands.{Answered, status_of};
ghost use Rattle.modelnet.specs.TheCommands.{journal_command, AreWithinUsual};

use crate::plan_inputs::read_plan;
use crate::planning::Planning;
use crate::read_limits::ReadLimits;
use crate::roles::write_output;
use crate::status::Status;
use journal::{Setup, journal};
use journal_check::print_journal;
use mn_base::{Bytes, NoMemory};
use mn_edge::{Host, Role};
use mn_words::JournalOrder;
use std::alloc::Global;

/// `journal`: writes the list of all visits of a trace's packets to the pipes of a topology.
pub fn list_visits<H: Host>(
    alloc: Global,
    limits: &ReadLimits,
    order: &JournalOrder,
    host: &mut H,
) -> Result<(), Status>
    requires inactive { (role : Role) → (H.part host.old role).active ≡ false }
    requires order { IsJournalOrder order.now }
    requires limits { AreWithinUsual limits.now }
    ensures { Answered (journal_command limits.now order.now) (H.part host.old) (H.part host.new) (status_of result) }
{
    let planned = read_plan(alloc, limits, &Planning::of_journal(order), host)?;
    let Ok(text) = journal_text(alloc, &planned.setup) else {
        return Err(Status::NoMemory);
    };
    write_output(host, Role::Out, order.out.as_str(), text.as_slice())
}

/// The text of the journal of a setup.
fn journal_text(alloc: Global, setup: &Setup) -> Result<Bytes, NoMemory>
    ensures { IfOk result (λ text. text ≡ journal_out (journal_of setup.now)) }
{
    let visits = journal(alloc, setup)?;
    print_journal(alloc, &visits)
}
