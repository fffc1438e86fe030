ghost use Rattle.std.specs.Prelude.{◌≡◌, ◌<◌, ◌^◌, ◌++◌, length, string_bytes, OnOk};
ghost use Rattle.report.specs.Report.{cause_word, unbound_word, head_line, packets_line, pipe_line, drop_line, unbound_line};

use mn_base::{Cause, NoMemory, Unbound};
use parcel::PipeCounts;
use settle::DropLine;

fn cause_text(cause: Cause) -> &'static str
    ensures { result.now ≡ cause_word cause }
{
    match cause {
        Cause::Loss => "loss",
        Cause::Full => "full",
    }
}

fn unbound_text(unbound: Unbound) -> &'static str
    ensures { result.now ≡ unbound_word unbound }
{
    match unbound {
        Unbound::Short => "short",
        Unbound::NotIpv4 => "not-ipv4",
        Unbound::NoSource => "no-source",
        Unbound::NoDestination => "no-destination",
        Unbound::NoRoute => "no-route",
        Unbound::TooFar => "too-far",
    }
}

pub fn write_head(text: &mut String) -> Result<(), NoMemory>
    ensures { OnOk result (string_bytes text.new ≡ string_bytes text.old ++ head_line) }
{
    writeln!(text, "modelnet report 1")?;
    Ok(())
}

pub fn write_packets(
    text: &mut String,
    left: usize,
    dropped: &[DropLine],
    unbounds: &[(u32, Unbound)],
) -> Result<(), NoMemory>
    requires { left < 2 ^ 63 }
    ensures { OnOk result (string_bytes text.new ≡ string_bytes text.old ++ packets_line left (length dropped.now) (length unbounds.now)) }
{
    let dropped = dropped.len();
    let unbound = unbounds.len();
    let bound = left + dropped;
    let packets = bound + unbound;
    write!(text, "packets {packets} bound {bound}")?;
    writeln!(text, " unbound {unbound} left {left} dropped {dropped}")?;
    Ok(())
}

pub fn write_pipe(text: &mut String, counts: &PipeCounts) -> Result<(), NoMemory>
    ensures { OnOk result (string_bytes text.new ≡ string_bytes text.old ++ pipe_line counts.now) }
{
    let PipeCounts {
        pipe,
        passed,
        lost,
        full,
    } = *counts;
    writeln!(text, "pipe {pipe} passed {passed} lost {lost} full {full}")?;
    Ok(())
}

pub fn write_drop(text: &mut String, dropped: &DropLine) -> Result<(), NoMemory>
    ensures { OnOk result (string_bytes text.new ≡ string_bytes text.old ++ drop_line dropped.now) }
{
    let DropLine {
        packet,
        pipe,
        tick,
        cause,
    } = *dropped;
    let cause = cause_text(cause);
    writeln!(text, "drop {packet} pipe {pipe} tick {tick} cause {cause}")?;
    Ok(())
}

pub fn write_unbound(text: &mut String, packet: u32, unbound: Unbound) -> Result<(), NoMemory>
    ensures { OnOk result (string_bytes text.new ≡ string_bytes text.old ++ unbound_line (packet, unbound)) }
{
    let cause = unbound_text(unbound);
    writeln!(text, "unbound {packet} cause {cause}")?;
    Ok(())
}
