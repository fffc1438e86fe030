ghost use Rattle.std.specs.Prelude.{◌≡◌, ◌≤◌, ◌++◌, IfOk, OnOk, length, string_bytes};
ghost use Rattle.red_queue.specs.Fates.{fates_by};
ghost use Rattle.red_queue.specs.Report.{red_cause_word, left_count, red_packets_line, counted, HasRedRoom, HaveRedRoom, IsCounted, AreCounts, counts_text, pipe_text, red_drop_line, drop_text, texts_below, red_report_text};

use crate::fate::{RedCause, RedFate};
use crate::packet_fates::red_fates;
use crate::setup::RedSetup;
use crate::step::RedStep;
use crate::visit::RedVisit;
use mn_base::{Bytes, NoMemory};
use std::alloc::Global;

/// The report of a run through pipes in a row, as ASCII lines that each end with a line feed:
///
/// ```text
/// modelnet red report 1
/// packets N bound N unbound 0 left L dropped D
/// pipe Q passed A lost X full F early E
/// drop P pipe Q tick T cause C
/// ```
///
/// N counts all packets, which are all bound to the one route. There is one `pipe` line for each pipe with at least one visit, by
/// its number, and then one `drop` line for each dropped packet, by its number; C is `loss`, `early` or `full`. The visits are
/// those of [`red_journal`](crate::red_journal).
pub fn print_red_report(
    alloc: Global,
    setup: &RedSetup,
    visits: &[RedVisit],
) -> Result<Bytes, NoMemory>
    ensures text { IfOk result (λ text. text ≡ red_report_text setup.now visits.now) }
{
    let fates = red_fates(alloc, setup, visits)?;
    print_red_fates(alloc, setup, visits, &fates)
}

/// The same report, where what becomes of each packet is known.
pub fn print_red_fates(
    alloc: Global,
    setup: &RedSetup,
    visits: &[RedVisit],
    fates: &[RedFate],
) -> Result<Bytes, NoMemory>
    requires fates { fates.now ≡ fates_by setup.now visits.now }
    ensures text { IfOk result (λ text. text ≡ red_report_text setup.now visits.now) }
{
    let mut text = String::new(alloc);
    writeln!(text, "modelnet red report 1")?;
    write_packets(&mut text, fates)?;
    write_pipes(alloc, &mut text, setup.pipes.len(), visits)?;
    write_drops(&mut text, fates)?;
    Ok(Bytes::from_vec(text.into_bytes()))
}

fn write_packets(text: &mut String, fates: &[RedFate]) -> Result<(), NoMemory>
    ensures { OnOk result (string_bytes text.new ≡ string_bytes text.old ++ red_packets_line fates.now) }
{
    let packets = fates.len();
    let left = count_left(fates);
    let dropped = packets - left;
    write!(text, "packets {packets} bound {packets}")?;
    writeln!(text, " unbound 0 left {left} dropped {dropped}")?;
    Ok(())
}

/// How many packets left.
fn count_left(fates: &[RedFate]) -> usize
    ensures value { result ≡ left_count fates.now }
    ensures few { result ≤ length fates.now }
{
    fates
        .iter()
        .filter(|fate| matches!(**fate, RedFate::Left { .. }))
        .count()
}

fn write_pipes(
    alloc: Global,
    text: &mut String,
    pipes: usize,
    visits: &[RedVisit],
) -> Result<(), NoMemory>
    ensures { OnOk result (string_bytes text.new ≡ string_bytes text.old ++ texts_below (pipe_text visits.now) pipes) }
{
    let all_counts = count_visits(alloc, pipes, visits)?;
    for pipe in 0..pipes {
        write_pipe(text, pipe, all_counts[pipe])?;
    }
    Ok(())
}

fn write_pipe(text: &mut String, pipe: usize, counts: Counts) -> Result<(), NoMemory>
    ensures { OnOk result (string_bytes text.new ≡ string_bytes text.old ++ counts_text pipe counts) }
{
    let Counts {
        passed,
        lost,
        full,
        early,
    } = counts;
    if passed == 0 && lost == 0 && full == 0 && early == 0 {
        return Ok(());
    }
    write!(text, "pipe {pipe} passed {passed} lost {lost}")?;
    writeln!(text, " full {full} early {early}")?;
    Ok(())
}

/// What became of the visits to one pipe.
#[derive(Clone, Copy)]
struct Counts {
    passed: usize,
    lost: usize,
    full: usize,
    early: usize,
}

const NO_VISIT: Counts = Counts {
    passed: 0,
    lost: 0,
    full: 0,
    early: 0,
};

/// What became of the visits to each of so many pipes, by its number.
fn count_visits(alloc: Global, pipes: usize, visits: &[RedVisit]) -> Result<Vec<Counts>, NoMemory>
    ensures { IfOk result (λ counts. AreCounts visits.now pipes counts.items) }
{
    let mut all_counts = vec![in alloc; NO_VISIT; pipes]?;
    for visit in visits {
        count_visit(&mut all_counts, visit);
    }
    Ok(all_counts)
}

/// Counts one more visit at its pipe, if there is such a pipe.
fn count_visit(all_counts: &mut Vec<Counts>, visit: &RedVisit)
    requires { HaveRedRoom all_counts.old.items }
    ensures { IsCounted visit.now all_counts.old.items all_counts.new.items }
{
    let pipe = visit.hop as usize;
    if pipe < all_counts.len() {
        all_counts[pipe] = with_step(all_counts[pipe], visit.step);
    }
}

/// The counts with one more visit of this step.
fn with_step(counts: Counts, step: RedStep) -> Counts
    requires { HasRedRoom counts }
    ensures { result ≡ counted counts step }
{
    let mut counts = counts;
    match step {
        RedStep::Lost => counts.lost += 1,
        RedStep::Early => counts.early += 1,
        RedStep::Full => counts.full += 1,
        RedStep::Pass { .. } => counts.passed += 1,
    }
    counts
}

fn write_drops(text: &mut String, fates: &[RedFate]) -> Result<(), NoMemory>
    ensures { OnOk result (string_bytes text.new ≡ string_bytes text.old ++ texts_below (drop_text fates.now) (length fates.now)) }
{
    for (packet, fate) in fates.iter().enumerate() {
        write_drop(text, packet, *fate)?;
    }
    Ok(())
}

fn write_drop(text: &mut String, packet: usize, fate: RedFate) -> Result<(), NoMemory>
    ensures { OnOk result (string_bytes text.new ≡ string_bytes text.old ++ red_drop_line packet fate) }
{
    let RedFate::Dropped { pipe, tick, cause } = fate else {
        return Ok(());
    };
    let cause = cause_text(cause);
    writeln!(text, "drop {packet} pipe {pipe} tick {tick} cause {cause}")?;
    Ok(())
}

fn cause_text(cause: RedCause) -> &'static str
    ensures { result.now ≡ red_cause_word cause }
{
    match cause {
        RedCause::Loss => "loss",
        RedCause::Early => "early",
        RedCause::Full => "full",
    }
}
