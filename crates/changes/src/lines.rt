ghost use Rattle.std.specs.Prelude.{◌≡◌, ◌≤◌, ◌<◌, ◌^◌, ◌==◌, ◌&&◌, nat_le, IfSome, true, option_copied, option_map, Some, None};
ghost use Rattle.std.specs.Option.{option_map_or};
ghost use Rattle.mn_base.specs.declared.limits.TheConstants.{CHANGES_MAX};
ghost use Rattle.changes.specs.declared.split.Change.{Change};
ghost use Rattle.changes.specs.Changes.{change_of, is_change, precedes_change};
ghost use Rattle.changes.specs.Faults.{count_of};
ghost use Rattle.changes.specs.Answers.{ReadsChangeLine, numbers_as_change};

use crate::faults::ChangesFault;
use crate::split::Change;
use mn_base::limits::{CHANGE_TICK_MAX, CHANGES_MAX};
use mn_base::{field, is_bandwidth, is_latency, is_loss, is_queue_limit};

/// The number of changes that a head line says, where it is one of these cores and pipes.
#[tactic(auto, unfolding(crate::specs::Faults::count_of, crate::specs::Faults::second_head_labels))]
pub(crate) fn change_count(line: &[u8], cores: u32, pipes: u32) -> Option<usize>
    ensures value { result ≡ count_of cores pipes line.now }
    ensures few { IfSome result (λ count. count ≤ CHANGES_MAX) }
{
    let (head_cores, rest) = field(line, "modelnet-directory 2 cores ")?;
    let (head_pipes, rest) = field(rest, " pipes ")?;
    let (count, rest) = field(rest, " changes ")?;
    if !rest.is_empty() {
        return None;
    }
    is_head(head_cores, head_pipes, count, cores, pipes).then_some(count as usize)
}

/// Whether the numbers of a head line are those of these cores and pipes, with no more changes than the limit.
fn is_head(head_cores: u64, head_pipes: u64, count: u64, cores: u32, pipes: u32) -> bool
    ensures { result ≡ ((head_cores == cores) && (head_pipes == pipes) && nat_le count CHANGES_MAX) }
{
    head_cores == u64::from(cores) && head_pipes == u64::from(pipes) && count <= CHANGES_MAX as u64
}

/// The numbers of a line of a change, as they stand there.
#[derive(Clone, Copy)]
pub(crate) struct ChangeLine {
    pub tick: u64,
    pub pipe: u64,
    pub bps: u64,
    pub latency_us: u64,
    pub queue: u64,
    pub ppm: u64,
}

/// The numbers of a line, where it is the line of a change.
#[tactic(auto, unfolding(crate::specs::Changes::change_of, crate::specs::Changes::change_labels))]
fn numbers_of(line: &[u8]) -> Option<ChangeLine>
    ensures value { option_map numbers_as_change result ≡ change_of line.now }
{
    let (tick, rest) = field(line, "change tick ")?;
    let (pipe, rest) = field(rest, " pipe ")?;
    let (bps, rest) = field(rest, " bps ")?;
    let (latency_us, rest) = field(rest, " us ")?;
    let (queue, rest) = field(rest, " queue ")?;
    let (ppm, rest) = field(rest, " ppm ")?;
    rest.is_empty().then_some(ChangeLine {
        tick,
        pipe,
        bps,
        latency_us,
        queue,
        ppm,
    })
}

/// Whether each number but the pipe's is in its range.
fn are_in_range(numbers: ChangeLine) -> bool
    ensures value { result ≡ is_change (numbers_as_change numbers) }
{
    numbers.tick <= CHANGE_TICK_MAX
        && is_bandwidth(numbers.bps)
        && is_latency(numbers.latency_us)
        && is_queue_limit(numbers.queue)
        && is_loss(numbers.ppm)
}

/// Whether a change comes after the last one, if there is one, by tick and then by pipe.
fn comes_after(change: &Change, last: Option<&Change>) -> bool
    ensures { result ≡ option_map_or (λ earlier. precedes_change earlier change.now) (option_copied last.entry) true }
{
    match last {
        Some(earlier) => {
            earlier.tick < change.tick
                || (earlier.tick == change.tick && earlier.pipe < change.pipe)
        }
        None => true,
    }
}

/// The change that line `number` says, which comes after the change `last`, if there is one.
pub(crate) fn read_line(
    line: &[u8],
    pipes: u32,
    number: u32,
    last: Option<&Change>,
) -> Result<Change, ChangesFault>
    ensures { ReadsChangeLine pipes number (option_copied last.entry) line.now result }
{
    let Some(numbers) = numbers_of(line) else {
        return Err(ChangesFault::Line(number));
    };
    if numbers.pipe >= u64::from(pipes) {
        return Err(ChangesFault::Line(number));
    }
    if !are_in_range(numbers) {
        return Err(ChangesFault::Range(number));
    }
    let change = Change {
        tick: numbers.tick,
        pipe: numbers.pipe as u32,
        bps: numbers.bps,
        latency_us: numbers.latency_us as u32,
        queue: numbers.queue as u32,
        ppm: numbers.ppm as u32,
    };
    if !comes_after(&change, last) {
        return Err(ChangesFault::Order(number));
    }
    Ok(change)
}
