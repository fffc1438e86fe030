ghost use Rattle.std.specs.Prelude.{◌≡◌, ◌++◌, IfOk, OnOk, string_bytes};
ghost use Rattle.report.specs.Report.{numbered_lines};
ghost use Rattle.report.specs.Moves.{moved_line, visits_line, moves_text};

use mn_base::{Bytes, NoMemory};
use std::alloc::Global;

/// A run whose pipes moved between cores, as ASCII lines that each end with a line feed:
///
/// ```text
/// modelnet moves 1
/// windows W moved M
/// core I visits V
/// ```
///
/// W is the number of windows, M that of the moves that were made. There is one line for each core, in order, with the visits that
/// it ran.
pub fn print_moves(
    alloc: Global,
    windows: u64,
    moved: u64,
    visits: &[u64],
) -> Result<Bytes, NoMemory>
    ensures text { IfOk result (λ text. text ≡ moves_text windows moved visits.now) }
{
    let mut text = String::new(alloc);
    writeln!(text, "modelnet moves 1")?;
    write_moved_line(&mut text, windows, moved)?;
    write_visits_lines(&mut text, visits)?;
    Ok(Bytes::from_vec(text.into_bytes()))
}

fn write_moved_line(text: &mut String, windows: u64, moved: u64) -> Result<(), NoMemory>
    ensures { OnOk result (string_bytes text.new ≡ string_bytes text.old ++ moved_line windows moved) }
{
    writeln!(text, "windows {windows} moved {moved}")?;
    Ok(())
}

fn write_visits_lines(text: &mut String, visits: &[u64]) -> Result<(), NoMemory>
    ensures { OnOk result (string_bytes text.new ≡ string_bytes text.old ++ numbered_lines visits_line 0 visits.now) }
{
    for (number, count) in visits.iter().enumerate() {
        write_visits_line(text, number, *count)?;
    }
    Ok(())
}

fn write_visits_line(text: &mut String, number: usize, visits: u64) -> Result<(), NoMemory>
    ensures { OnOk result (string_bytes text.new ≡ string_bytes text.old ++ visits_line number visits) }
{
    writeln!(text, "core {number} visits {visits}")?;
    Ok(())
}
