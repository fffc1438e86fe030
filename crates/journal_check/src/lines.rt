ghost use Rattle.std.specs.Prelude.{◌≡◌, ◌++◌, OnOk, string_bytes};
ghost use Rattle.journal_check.specs.Texts.{whole_line, journal_head, step_words, visit_line};

use journal::Visit;
use mn_base::NoMemory;
use pipe::Step;

pub(crate) fn write_head(text: &mut String) -> Result<(), NoMemory>
    ensures { OnOk result (string_bytes text.new ≡ string_bytes text.old ++ journal_head) }
{
    writeln!(text, "modelnet journal 1")?;
    Ok(())
}

pub(crate) fn write_visit(text: &mut String, visit: &Visit) -> Result<(), NoMemory>
    ensures { OnOk result (string_bytes text.new ≡ string_bytes text.old ++ visit_line visit.now) }
{
    let Visit {
        tick,
        packet,
        hop,
        pipe,
        step,
    } = *visit;
    write!(text, "tick {tick} packet {packet} hop {hop} pipe {pipe}")?;
    write_step(text, step)
}

/// The end of a visit's line.
fn write_step(text: &mut String, step: Step) -> Result<(), NoMemory>
    ensures { OnOk result (string_bytes text.new ≡ string_bytes text.old ++ whole_line (step_words step)) }
{
    match step {
        Step::Lost => writeln!(text, " lost")?,
        Step::Full => writeln!(text, " full")?,
        Step::Pass { exit } => writeln!(text, " pass exit {exit}")?,
    }
    Ok(())
}
