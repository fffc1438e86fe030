ghost use Rattle.std.specs.Prelude.{◌≡◌, ◌++◌, max, IfOk, OnOk, string_bytes};
ghost use Rattle.report.specs.Summary.{number_line, lengths_line, last_leaving_tick, last_tick_line, summary_text};

use crate::lines::write_packets;
use mn_base::{Bytes, NoMemory, Unbound};
use settle::{Leaving, Outcome};
use std::alloc::Global;

/// A generated input: its number, and how long it is.
#[derive(Clone, Copy, Debug, PartialEq, Eq)]
pub struct Generated {
    /// The number that it stands for.
    pub number: u64,
    /// How many packets its trace has.
    pub packets: u32,
    /// The length of its topology, in bytes of GML.
    pub gml_len: usize,
    /// The length of its trace, in bytes of pcap.
    pub trace_len: usize,
}

/// What a generated input came to, as ASCII lines that each end with a line feed:
///
/// ```text
/// workload N packets P
/// gml G trace R
/// packets P bound B unbound U left L dropped D
/// last-tick X
/// ```
///
/// G and R are the lengths of the two texts, and X is the greatest tick at which a packet left, or 0.
pub fn print_summary(
    alloc: Global,
    input: &Generated,
    outcome: &Outcome,
    unbounds: &[(u32, Unbound)],
) -> Result<Bytes, NoMemory>
    ensures text { IfOk result (λ text. text ≡ summary_text input.now outcome.now unbounds.now) }
{
    let mut text = String::new(alloc);
    write_number(&mut text, input.number, input.packets)?;
    write_lengths(&mut text, input.gml_len, input.trace_len)?;
    write_packets(&mut text, outcome.leaving.len(), &outcome.dropped, unbounds)?;
    write_last_tick(&mut text, last_leaving_tick_of(&outcome.leaving))?;
    Ok(Bytes::from_vec(text.into_bytes()))
}

fn write_number(text: &mut String, number: u64, packets: u32) -> Result<(), NoMemory>
    ensures { OnOk result (string_bytes text.new ≡ string_bytes text.old ++ number_line number packets) }
{
    writeln!(text, "workload {number} packets {packets}")?;
    Ok(())
}

fn write_lengths(text: &mut String, gml: usize, trace: usize) -> Result<(), NoMemory>
    ensures { OnOk result (string_bytes text.new ≡ string_bytes text.old ++ lengths_line gml trace) }
{
    writeln!(text, "gml {gml} trace {trace}")?;
    Ok(())
}

fn write_last_tick(text: &mut String, tick: u64) -> Result<(), NoMemory>
    ensures { OnOk result (string_bytes text.new ≡ string_bytes text.old ++ last_tick_line tick) }
{
    writeln!(text, "last-tick {tick}")?;
    Ok(())
}

/// The greatest tick at which a packet left, or 0.
fn last_leaving_tick_of(leaving: &[Leaving]) -> u64
    ensures { result ≡ last_leaving_tick leaving.now }
{
    let mut last = 0;
    for left in leaving {
        last = later(last, left.tick);
    }
    last
}

fn later(one: u64, other: u64) -> u64
    ensures { result ≡ max one other }
{
    if one < other { other } else { one }
}
