ghost use Rattle.std.specs.Prelude.{◌≡◌, ◌++◌, IfOk, OnOk, map, string_bytes};
ghost use Rattle.std.specs.List.{range_with_len};
ghost use Rattle.parcel.specs.Results.{counts_at};
ghost use Rattle.report.specs.Report.{numbered_lines};
ghost use Rattle.report.specs.Cluster.{cores_line, core_line, cluster_text};

use journal::Setup;
use mn_base::{Bytes, NoMemory};
use parcel::{CoreCounts, lookahead};
use settle::Outcome;
use std::alloc::Global;

/// How a run was spread over cores, as ASCII lines that each end with a line feed:
///
/// ```text
/// modelnet cluster 1
/// cores K lookahead L windows W
/// core I pipes P entered E visits V arrivals A settles S
/// ```
///
/// L is in ticks. There is one line for each core, in order: the pipes that it owns, the packets that entered there, the visits of
/// its pipes, and the notes on arrivals and on fates that it sent to other cores. The outcome's counts are those of all cores, as
/// `merge` gives them.
pub fn print_cluster(alloc: Global, setup: &Setup, outcome: &Outcome) -> Result<Bytes, NoMemory>
    requires { outcome.now.cores ≡ map (counts_at setup.now) (range_with_len 0 setup.now.cores) }
    ensures text { IfOk result (λ text. text ≡ cluster_text setup.now) }
{
    let cores = setup.parts().cores;
    let windows = outcome.cores[0].windows;
    let mut text = String::new(alloc);
    writeln!(text, "modelnet cluster 1")?;
    write_cores_line(&mut text, cores, lookahead(setup), windows)?;
    write_core_lines(&mut text, &outcome.cores)?;
    Ok(Bytes::from_vec(text.into_bytes()))
}

fn write_cores_line(
    text: &mut String,
    cores: u32,
    lookahead: u64,
    windows: u64,
) -> Result<(), NoMemory>
    ensures { OnOk result (string_bytes text.new ≡ string_bytes text.old ++ cores_line cores lookahead windows) }
{
    writeln!(
        text,
        "cores {cores} lookahead {lookahead} windows {windows}"
    )?;
    Ok(())
}

fn write_core_lines(text: &mut String, cores: &[CoreCounts]) -> Result<(), NoMemory>
    ensures { OnOk result (string_bytes text.new ≡ string_bytes text.old ++ numbered_lines core_line 0 cores.now) }
{
    for (number, counts) in cores.iter().enumerate() {
        write_core_line(text, number, counts)?;
    }
    Ok(())
}

fn write_core_line(text: &mut String, number: usize, counts: &CoreCounts) -> Result<(), NoMemory>
    ensures { OnOk result (string_bytes text.new ≡ string_bytes text.old ++ core_line number counts.now) }
{
    let CoreCounts {
        pipes,
        entered,
        visits,
        arrivals,
        settles,
        windows: _,
    } = *counts;
    write!(text, "core {number} pipes {pipes} entered {entered}")?;
    writeln!(
        text,
        " visits {visits} arrivals {arrivals} settles {settles}"
    )?;
    Ok(())
}
