ghost use Rattle.std.specs.Prelude.{◌≡◌, ◌+◌, ◌<◌, ◌≤◌, ◌++◌, List, ℕ, length, IfOk, IfErr};
ghost use Rattle.mn_base.specs.declared.limits.TheConstants.{JOURNAL_BYTES_MAX};
ghost use Rattle.mn_base.specs.Refused.{IfFault, Gives, Refuses};
ghost use Rattle.journal.specs.Journal.{journal_of};
ghost use Rattle.journal_check.specs.declared.fault.JournalFault.{JournalFault};
ghost use Rattle.journal_check.specs.Texts.{journal_out};
ghost use Rattle.journal_check.specs.Faults.{JournalFirst, PartsAt};

use crate::fault::JournalFault;
use crate::lines::{write_head, write_visit};
use journal::{Setup, Visits};
use mn_base::Refusal;
use std::alloc::Global;

/// Checks that a text is that of the setup's journal, as `print_journal` prints it, byte for byte. The answer is the number of visits.
///
/// The text is gone through once, beside the visits as they are made one after the other: none of them is kept, and what is held
/// doesn't grow with the text. A fault says where the text first differs; `NoMemory` says nothing of it.
pub fn check_journal(
    alloc: Global,
    setup: &Setup,
    text: &[u8],
) -> Result<u32, Refusal<JournalFault>>
    requires bytes { length text.now ≤ JOURNAL_BYTES_MAX }
    ensures right { IfOk result (λ count. text.now ≡ journal_out (journal_of setup.now)) }
    ensures count { IfOk result (λ count. count ≡ length (journal_of setup.now)) }
    ensures fault { IfErr result (λ refusal. IfFault refusal (JournalFirst (journal_of setup.now) text.now)) }
    ensures only_right { text.now ≡ journal_out (journal_of setup.now) → Gives (length (journal_of setup.now)) result }
    ensures only_fault { (fault : JournalFault) → JournalFirst (journal_of setup.now) text.now fault → Refuses fault result }
{
    compare(alloc, setup, text)
}

/// The number of visits, or the first fault.
fn compare(alloc: Global, setup: &Setup, text: &[u8]) -> Result<u32, Refusal<JournalFault>>
    requires bytes { length text.now ≤ JOURNAL_BYTES_MAX }
    ensures right { IfOk result (λ count. text.now ≡ journal_out (journal_of setup.now)) }
    ensures count { IfOk result (λ count. count ≡ length (journal_of setup.now)) }
    ensures fault { IfErr result (λ refusal. IfFault refusal (JournalFirst (journal_of setup.now) text.now)) }
{
    let mut visits = Visits::start(alloc, setup)?;
    let mut line = String::new(alloc);
    write_head(&mut line)?;
    let mut rest = behind_line(text, line.as_bytes(), 0)?;
    let mut count = 0;
    while let Some(visit) = visits.next(alloc)? {
        line.clear();
        write_visit(&mut line, &visit)?;
        rest = behind_line(rest, line.as_bytes(), 1 + count)?;
        count += 1;
    }
    if rest.is_empty() {
        Ok(count)
    } else {
        Err(Refusal::Fault(JournalFault::Line(count + 2)))
    }
}

/// What comes after the line that opens the text. So many lines were `before`.
fn behind_line<'t>(
    text: &'t [u8],
    line: &[u8],
    before: u32,
) -> Result<&'t [u8], Refusal<JournalFault>>
    requires { before ≤ JOURNAL_BYTES_MAX }
    ensures behind { IfOk result (λ rest. text.now ≡ line.now ++ rest.now) }
    ensures fault { IfErr result (λ refusal. IfFault refusal (PartsAt line.now before text.now)) }
{
    if let Some(rest) = text.strip_prefix(line) {
        Ok(rest)
    } else if text.is_empty() {
        Err(Refusal::Fault(JournalFault::Short(before)))
    } else {
        Err(Refusal::Fault(JournalFault::Line(before + 1)))
    }
}
