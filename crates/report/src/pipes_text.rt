ghost use Rattle.std.specs.Prelude.{◌≡◌, ◌++◌, ◌<◌, All, IfOk, OnOk, length, string_bytes, codes};
ghost use Rattle.distill.specs.Distilled.{IsDistilled, IsPipeAmong};
ghost use Rattle.report.specs.Report.{line, numbered_lines};
ghost use Rattle.report.specs.Pipes.{mode_word, mode_line, distilled_line, pipes_text};

use distill::{Distilled, DistilledPipe, Mode};
use mn_base::{Bytes, NoMemory};
use std::alloc::Global;
use topo::{Node, Topology};

/// The pipes of a distilled topology, as ASCII lines that each end with a line feed:
///
/// ```text
/// modelnet pipes 1
/// mode M tick-ns T pipes P
/// pipe Q from I to J bps B us U ticks K queue E keep V links N
/// ```
///
/// M is `hop`, `end`, `walk:W` or `walk:W:O`. I and J are the ids of the nodes. There is one line for each pipe, in order. The
/// distilled topology is what `distill` gives for the topology, the mode and the tick length.
pub fn print_pipes(
    alloc: Global,
    topology: &Topology,
    distilled: &Distilled,
    mode: Mode,
    tick_ns: u64,
) -> Result<Bytes, NoMemory>
    requires { IsDistilled topology.now mode tick_ns distilled.now }
    ensures text { IfOk result (λ text. text ≡ pipes_text topology.now distilled.now mode tick_ns) }
{
    let pipes = distilled.pipes();
    let nodes = topology.nodes();
    let mut text = String::new(alloc);
    writeln!(text, "modelnet pipes 1")?;
    write_mode_line(&mut text, mode, tick_ns, pipes.len())?;
    write_distilled_lines(&mut text, nodes, pipes)?;
    Ok(Bytes::from_vec(text.into_bytes()))
}

fn write_mode_line(
    text: &mut String,
    mode: Mode,
    tick_ns: u64,
    count: usize,
) -> Result<(), NoMemory>
    ensures { OnOk result (string_bytes text.new ≡ string_bytes text.old ++ mode_line mode tick_ns count) }
{
    write!(text, "mode ")?;
    write_mode(text, mode)?;
    writeln!(text, " tick-ns {tick_ns} pipes {count}")?;
    Ok(())
}

fn write_mode(text: &mut String, mode: Mode) -> Result<(), NoMemory>
    ensures { OnOk result (string_bytes text.new ≡ string_bytes text.old ++ mode_word mode) }
{
    match mode {
        Mode::Hop => write!(text, "hop")?,
        Mode::Walk(w) => write!(text, "walk:{w}")?,
        Mode::End => write!(text, "end")?,
        Mode::WalkOut(w, o) => write!(text, "walk:{w}:{o}")?,
    }
    Ok(())
}

fn write_distilled_lines(
    text: &mut String,
    nodes: &[Node],
    pipes: &[DistilledPipe],
) -> Result<(), NoMemory>
    requires { All (IsPipeAmong (length nodes.now)) pipes.now }
    ensures { OnOk result (string_bytes text.new ≡ string_bytes text.old ++ numbered_lines (distilled_line nodes.now) 0 pipes.now) }
{
    for (number, pipe) in pipes.iter().enumerate() {
        write_distilled_line(text, nodes, number, pipe)?;
    }
    Ok(())
}

fn write_distilled_line(
    text: &mut String,
    nodes: &[Node],
    number: usize,
    pipe: &DistilledPipe,
) -> Result<(), NoMemory>
    requires { IsPipeAmong (length nodes.now) pipe.now }
    ensures { OnOk result (string_bytes text.new ≡ string_bytes text.old ++ distilled_line nodes.now number pipe.now) }
{
    let from = nodes[pipe.from as usize].id;
    let to = nodes[pipe.to as usize].id;
    let params = pipe.params;
    let links = pipe.links;
    let (bps, us, ticks) = (params.bps, params.latency_us, params.latency_ticks);
    let (queue, keep) = (params.queue, params.keep);
    write!(text, "pipe {number} from {from} to {to}")?;
    write!(text, " bps {bps} us {us} ticks {ticks}")?;
    writeln!(text, " queue {queue} keep {keep} links {links}")?;
    Ok(())
}
