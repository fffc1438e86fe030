ghost use Rattle.std.specs.Prelude.{◌≡◌, ◌++◌, IfOk, OnOk, string_bytes};
ghost use Rattle.std.specs.List.{flat_map};
ghost use Rattle.journal_check.specs.Texts.{visit_line, journal_out};

use crate::lines::{write_head, write_visit};
use journal::Visit;
use mn_base::{Bytes, NoMemory};
use std::alloc::Global;

/// The text of any list of visits, as ASCII lines that each end with a line feed:
///
/// ```text
/// modelnet journal 1
/// tick T packet P hop H pipe Q pass exit E
/// tick T packet P hop H pipe Q lost
/// tick T packet P hop H pipe Q full
/// ```
///
/// There is one line for each visit, in the order of the list, with the end that tells its step.
pub fn print_journal(alloc: Global, visits: &[Visit]) -> Result<Bytes, NoMemory>
    ensures text { IfOk result (λ text. text ≡ journal_out visits.now) }
{
    let mut text = String::new(alloc);
    write_head(&mut text)?;
    write_visits(&mut text, visits)?;
    Ok(Bytes::from_vec(text.into_bytes()))
}

fn write_visits(text: &mut String, visits: &[Visit]) -> Result<(), NoMemory>
    ensures { OnOk result (string_bytes text.new ≡ string_bytes text.old ++ flat_map visit_line visits.now) }
{
    for visit in visits {
        write_visit(text, visit)?;
    }
    Ok(())
}
