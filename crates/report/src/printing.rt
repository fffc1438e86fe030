ghost use Rattle.std.specs.Prelude.{◌≡◌, ◌<◌, ◌^◌, ◌++◌, IfOk, OnOk, string_bytes};
ghost use Rattle.std.specs.List.{flat_map};
ghost use Rattle.report.specs.Report.{report_text, report_lines, pipe_line, has_visit, visited_pipes, drop_line, unbound_line};

use crate::lines::{write_drop, write_head, write_packets, write_pipe, write_unbound};
use mn_base::{Bytes, NoMemory, Unbound};
use parcel::PipeCounts;
use settle::{DropLine, Outcome};
use std::alloc::Global;

/// The report of a run, as ASCII lines that each end with a line feed:
///
/// ```text
/// modelnet report 1
/// packets N bound B unbound U left L dropped D
/// pipe Q passed A lost X full F
/// drop P pipe Q tick T cause C
/// unbound P cause C
/// ```
///
/// N counts all packets of the trace. There is one `pipe` line for each pipe with at least one visit, one `drop` line for
/// each dropped packet and one `unbound` line for each packet that was bound to no route, each in the order of its list:
/// `pipe_counts` by pipe, `dropped` and `unbounds` by packet.
pub fn print_report(
    alloc: Global,
    outcome: &Outcome,
    unbounds: &[(u32, Unbound)],
) -> Result<Bytes, NoMemory>
    ensures text { IfOk result (λ text. text ≡ report_text outcome.now unbounds.now) }
{
    let left = outcome.leaving.len();
    print_lines(
        alloc,
        left,
        &outcome.dropped,
        &outcome.pipe_counts,
        unbounds,
    )
}

/// The same by its parts: how many packets left, which were dropped, and what each pipe did.
pub fn print_lines(
    alloc: Global,
    left: usize,
    dropped: &[DropLine],
    pipe_counts: &[PipeCounts],
    unbounds: &[(u32, Unbound)],
) -> Result<Bytes, NoMemory>
    requires { left < 2 ^ 63 }
    ensures { IfOk result (λ text. text ≡ report_lines left dropped.now pipe_counts.now unbounds.now) }
{
    let mut text = String::new(alloc);
    write_head(&mut text)?;
    write_packets(&mut text, left, dropped, unbounds)?;
    write_pipes(&mut text, pipe_counts)?;
    write_drops(&mut text, dropped)?;
    write_unbounds(&mut text, unbounds)?;
    Ok(Bytes::from_vec(text.into_bytes()))
}

/// Whether the pipe had a visit.
fn is_visited(counts: &PipeCounts) -> bool
    ensures { result ≡ has_visit counts.now }
{
    counts.passed > 0 || counts.lost > 0 || counts.full > 0
}

fn write_pipes(text: &mut String, pipe_counts: &[PipeCounts]) -> Result<(), NoMemory>
    ensures { OnOk result (string_bytes text.new ≡ string_bytes text.old ++ flat_map pipe_line (visited_pipes pipe_counts.now)) }
{
    for counts in pipe_counts {
        if is_visited(counts) {
            write_pipe(text, counts)?;
        }
    }
    Ok(())
}

fn write_drops(text: &mut String, dropped: &[DropLine]) -> Result<(), NoMemory>
    ensures { OnOk result (string_bytes text.new ≡ string_bytes text.old ++ flat_map drop_line dropped.now) }
{
    for line in dropped {
        write_drop(text, line)?;
    }
    Ok(())
}

fn write_unbounds(text: &mut String, unbounds: &[(u32, Unbound)]) -> Result<(), NoMemory>
    ensures { OnOk result (string_bytes text.new ≡ string_bytes text.old ++ flat_map unbound_line unbounds.now) }
{
    for (packet, unbound) in unbounds {
        write_unbound(text, *packet, *unbound)?;
    }
    Ok(())
}
