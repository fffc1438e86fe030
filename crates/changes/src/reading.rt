ghost use Rattle.std.specs.Prelude.{◌≡◌, ◌+◌, ◌*◌, ◌≤◌, ◌<◌, ◌^◌, ◌∷◌, ◌++◌, [], length, take, drop, true, Some, None, IfOk, IfErr, OnOk};
ghost use Rattle.mn_base.specs.declared.limits.TheConstants.{DIRECTORY_BYTES_MAX, CORES_MAX, PIPES_MAX, CHANGES_MAX};
ghost use Rattle.mn_base.specs.Refused.{IfFault, Gives, Refuses};
ghost use Rattle.mn_base.specs.Lines.{lines_of, text_of_lines, first_line_fault};
ghost use Rattle.changes.specs.Head.{directory_head};
ghost use Rattle.changes.specs.declared.faults.ChangesFault.{ChangesFault};
ghost use Rattle.changes.specs.SplitView.{SplitView};
ghost use Rattle.changes.specs.Splits.{AreChangeLines, IsSecond, SplitsTo};
ghost use Rattle.changes.specs.Faults.{change_fault, is_second, ChangesFirst};

use crate::faults::ChangesFault;
use crate::head::directory_head;
use crate::lines::{change_count, read_line};
use crate::split::{Change, Split};
use mn_base::{Bytes, NoMemory, Refusal, count_lines, split_line};
use std::alloc::Global;

/// What a text of the second version begins with.
const SECOND_MARK: &[u8] = b"modelnet-directory 2 ";

/// Splits a directory text into a directory text of the first version and changes of pipes' parameters.
///
/// A text of the second version has a head line, a line for each pipe, and then a line for each change:
///
/// ```text
/// modelnet-directory 2 cores K pipes P changes C
/// pipe Q core I
/// change tick N pipe Q bps B us U queue E ppm X
/// ```
///
/// K and P are the cores and the pipes of the run, and C is at most `CHANGES_MAX`. The lines of pipes aren't looked at: they
/// come back, each with a line feed, after the head line of the first version. Ticks are at most `CHANGE_TICK_MAX`, and the other
/// numbers in the ranges of a link's. The changes rise strictly by tick and then by pipe. The last line may lack its line feed.
/// Every text that doesn't begin with `modelnet-directory 2 ` comes back as it is, without changes.
///
/// The faults, first the earliest, are those of `ChangesFault` in their order: `Head`, `Count`, and then line by line of the
/// changes `Line`, `Range` and `Order`.
pub fn read_changes(
    alloc: Global,
    text: &[u8],
    cores: u32,
    pipes: u32,
) -> Result<Split, Refusal<ChangesFault>>
    requires bytes { length text.now ≤ DIRECTORY_BYTES_MAX }
    requires some_core { 1 ≤ cores }
    requires few_cores { cores ≤ CORES_MAX }
    requires few_pipes { pipes ≤ PIPES_MAX }
    ensures found { IfOk result (λ split. SplitsTo text.now cores pipes split) }
    ensures no_longer { IfOk result (λ split. length split.directory ≤ length text.now) }
    ensures fault { IfErr result (λ refusal. IfFault refusal (ChangesFirst text.now cores pipes)) }
    ensures only_split { (split : SplitView) → SplitsTo text.now cores pipes split → Gives split result }
    ensures only_fault { (fault : ChangesFault) → ChangesFirst text.now cores pipes fault → Refuses fault result }
{
    split_text(alloc, text, cores, pipes)
}

fn split_text(
    alloc: Global,
    text: &[u8],
    cores: u32,
    pipes: u32,
) -> Result<Split, Refusal<ChangesFault>>
    requires bytes { length text.now ≤ DIRECTORY_BYTES_MAX }
    requires few_pipes { pipes ≤ PIPES_MAX }
    ensures found { IfOk result (λ split. SplitsTo text.now cores pipes split) }
    ensures fault { IfErr result (λ refusal. IfFault refusal (ChangesFirst text.now cores pipes)) }
{
    if text.starts_with(SECOND_MARK) {
        return split_second(alloc, text, cores, pipes);
    }
    let directory = Bytes::copy(alloc, text)?;
    Ok(Split {
        directory,
        changes: Vec::new(alloc),
    })
}

/// Splits a text of the second version.
fn split_second(
    alloc: Global,
    text: &[u8],
    cores: u32,
    pipes: u32,
) -> Result<Split, Refusal<ChangesFault>>
    requires begins { is_second text.now ≡ true }
    requires some { 0 < length text.now }
    requires bytes { length text.now ≤ DIRECTORY_BYTES_MAX }
    requires few_pipes { pipes ≤ PIPES_MAX }
    ensures found { IfOk result (λ split. IsSecond text.now cores pipes split) }
    ensures fault { IfErr result (λ refusal. IfFault refusal (ChangesFirst text.now cores pipes)) }
{
    let (head, body) = split_line(text);
    let Some(count) = change_count(head, cores, pipes) else {
        return Err(Refusal::Fault(ChangesFault::Head));
    };
    if count_lines(body) != pipes as usize + count {
        return Err(Refusal::Fault(ChangesFault::Count));
    }
    let changes = read_lines(alloc, skip_lines(body, pipes as usize), pipes)?;
    let directory = first_version(alloc, body, cores, pipes)?;
    Ok(Split { directory, changes })
}

/// What follows the first lines of a text.
fn skip_lines(text: &[u8], count: usize) -> &[u8]
    requires { count ≤ length (lines_of text.now) }
    ensures lines { lines_of result.now ≡ drop count (lines_of text.now) }
{
    let mut rest = text;
    'lines: for done in 0..count {
        let (_, after) = split_line(rest);
        rest = after;
    }
    rest
}

/// The changes that lines say, which stand after the lines of so many pipes.
fn read_lines(alloc: Global, text: &[u8], pipes: u32) -> Result<Vec<Change>, Refusal<ChangesFault>>
    requires few_pipes { pipes ≤ PIPES_MAX }
    requires few { length (lines_of text.now) ≤ CHANGES_MAX }
    ensures found { IfOk result (λ changes. AreChangeLines pipes (lines_of text.now) changes.items) }
    ensures fault { IfErr result
        (λ refusal. IfFault refusal (λ fault. first_line_fault (change_fault pipes) [] (lines_of text.now) ≡ Some fault)) }
{
    let mut changes = Vec::new(alloc);
    let mut rest = text;
    let mut number = pipes + 2;
    'lines: while !rest.is_empty() {
        let (line, after) = split_line(rest);
        let change = match read_line(line, pipes, number, changes.as_slice().last()) {
            Ok(change) => change,
            Err(fault) => return Err(Refusal::Fault(fault)),
        };
        changes.push(change)?;
        rest = after;
        number += 1;
    }
    Ok(changes)
}

/// The directory text of the first version, of which so many lines are the lines of pipes.
fn first_version(alloc: Global, body: &[u8], cores: u32, pipes: u32) -> Result<Bytes, NoMemory>
    requires { pipes ≤ length (lines_of body.now) }
    ensures { IfOk result
        (λ text. text ≡ text_of_lines (directory_head cores pipes ∷ take pipes (lines_of body.now))) }
{
    let mut text = directory_head(alloc, cores, pipes as usize)?.into_bytes();
    copy_lines(&mut text, body, pipes as usize)?;
    Ok(Bytes::from_vec(text))
}

/// Adds the first lines of a text, each with a line feed.
fn copy_lines(to: &mut Vec<u8>, text: &[u8], count: usize) -> Result<(), NoMemory>
    requires { count ≤ length (lines_of text.now) }
    ensures { OnOk result (to.new.items ≡ to.old.items ++ text_of_lines (take count (lines_of text.now))) }
{
    let mut rest = text;
    'lines: for done in 0..count {
        let (line, after) = split_line(rest);
        to.extend_from_slice(line)?;
        to.push(b'\n')?;
        rest = after;
    }
    Ok(())
}
