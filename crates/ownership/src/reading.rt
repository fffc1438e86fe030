ghost use Rattle.std.specs.Prelude.{◌≡◌, ◌+◌, ◌==◌, ◌&&◌, ◌≤◌, ◌<◌, ◌^◌, [], false, length, map, option_map, unwrap_or, None, Some, IfOk, IfErr};
ghost use Rattle.mn_base.specs.declared.limits.TheConstants.{CORES_MAX, DIRECTORY_BYTES_MAX, PIPES_MAX};
ghost use Rattle.mn_base.specs.Refused.{IfFault, Gives, Refuses};
ghost use Rattle.mn_base.specs.Lines.{lines_of, first_line_fault};
ghost use Rattle.ownership.specs.declared.faults.AssignFault.{AssignFault};
ghost use Rattle.ownership.specs.Directory.{DirectoryView};
ghost use Rattle.ownership.specs.Owned.{Owned};
ghost use Rattle.ownership.specs.Texts.{owned_of};
ghost use Rattle.ownership.specs.Reading.{Directs};
ghost use Rattle.ownership.specs.Faults.{DirectoryFirst, is_head, owner_fault};
ghost use Rattle.ownership.specs.Owners.{ReadsOwnerLine, SayOwners, Misses, numbers_as_owned};

use crate::directory::Directory;
use crate::faults::AssignFault;
use distill::Distilled;
use mn_base::{Refusal, field, split_line};
use std::alloc::Global;

/// Reads a directory text of the first version for a distilled topology on so many cores.
///
/// ```text
/// modelnet-directory 1 cores K pipes P
/// pipe Q core C
/// ```
///
/// K and P are the cores and the pipes. There is one line for each pipe, in any order, which names the core that owns it. The last line
/// may lack its line feed. Entry cores follow from the owners, as in an assignment.
///
/// The faults, first the earliest: `Head`; then line by line `Line`, `Core` and `Twice`; last `Missing` for the least pipe without a
/// line.
pub fn read_directory(
    alloc: Global,
    text: &[u8],
    distilled: &Distilled,
    cores: u32,
) -> Result<Directory, Refusal<AssignFault>>
    requires bytes { length text.now ≤ DIRECTORY_BYTES_MAX }
    requires some_core { 1 ≤ cores }
    requires few_cores { cores ≤ CORES_MAX }
    ensures found { IfOk result (λ directory. Directs text.now distilled.now cores directory) }
    ensures fault { IfErr result (λ refusal. IfFault refusal (DirectoryFirst text.now distilled.now cores)) }
    ensures only_directory { (directory : DirectoryView) → Directs text.now distilled.now cores directory → Gives directory result }
    ensures only_fault { (fault : AssignFault) → DirectoryFirst text.now distilled.now cores fault → Refuses fault result }
{
    read_text(alloc, text, distilled, cores)
}

fn read_text(
    alloc: Global,
    text: &[u8],
    distilled: &Distilled,
    cores: u32,
) -> Result<Directory, Refusal<AssignFault>>
    requires bytes { length text.now ≤ DIRECTORY_BYTES_MAX }
    requires some_core { 1 ≤ cores }
    requires few_cores { cores ≤ CORES_MAX }
    ensures found { IfOk result (λ directory. Directs text.now distilled.now cores directory) }
    ensures fault { IfErr result (λ refusal. IfFault refusal (DirectoryFirst text.now distilled.now cores)) }
{
    if text.is_empty() {
        return Err(Refusal::Fault(AssignFault::Head));
    }
    let (head, body) = split_line(text);
    let pipes = distilled.pipes().len();
    if !is_head(head, cores, pipes) {
        return Err(Refusal::Fault(AssignFault::Head));
    }
    let said = read_lines(alloc, body, pipes, cores)?;
    let owners = all_owned(alloc, &said)?;
    let directory = Directory::of_owners(alloc, distilled, cores, owners)?;
    Ok(directory)
}

/// Whether a line is the head line of these cores and pipes.
fn is_head(line: &[u8], cores: u32, pipes: usize) -> bool
    ensures { result ≡ is_head cores pipes line.now }
{
    head_test(line, cores, pipes).unwrap_or(false)
}

/// Whether the numbers of a line are those of the head line, where it has two numbers.
#[tactic(auto, unfolding(crate::specs::Faults::is_head, changes::specs::Head::first_head_labels))]
fn head_test(line: &[u8], cores: u32, pipes: usize) -> Option<bool>
    ensures value { unwrap_or result false ≡ is_head cores pipes line.now }
{
    let (head_cores, rest) = field(line, "modelnet-directory 1 cores ")?;
    let (head_pipes, rest) = field(rest, " pipes ")?;
    Some(are_head(rest, head_cores, head_pipes, cores, pipes))
}

fn are_head(rest: &[u8], head_cores: u64, head_pipes: u64, cores: u32, pipes: usize) -> bool
    ensures { result ≡ ((length rest.now == 0) && (head_cores == cores) && (head_pipes == pipes)) }
{
    rest.is_empty() && head_cores == u64::from(cores) && head_pipes == pipes as u64
}

/// A line of a pipe: its number, and the core that owns it.
#[derive(Clone, Copy)]
pub(crate) struct OwnerLine {
    pub pipe: u32,
    pub core: u32,
}

/// The numbers of a line of a pipe, as they stand there.
#[derive(Clone, Copy)]
pub(crate) struct OwnerNumbers {
    pub pipe: u64,
    pub core: u64,
}

/// The numbers of a line, where it is the line of a pipe.
#[tactic(auto, unfolding(crate::specs::Texts::owned_of, crate::specs::Texts::pipe_labels))]
fn numbers_of(line: &[u8]) -> Option<OwnerNumbers>
    ensures value { option_map numbers_as_owned result ≡ owned_of line.now }
{
    let (pipe, rest) = field(line, "pipe ")?;
    let (core, rest) = field(rest, " core ")?;
    rest.is_empty().then_some(OwnerNumbers { pipe, core })
}

/// The pipe and the core that line `number` says, which names a pipe without an owner.
fn read_line(
    line: &[u8],
    number: u32,
    owners: &[Option<u32>],
    cores: u32,
) -> Result<OwnerLine, AssignFault>
    requires { length owners.now ≤ PIPES_MAX }
    ensures { ReadsOwnerLine cores number owners.now line.now result }
{
    let Some(numbers) = numbers_of(line) else {
        return Err(AssignFault::Line(number));
    };
    if numbers.pipe >= owners.len() as u64 {
        return Err(AssignFault::Line(number));
    }
    if numbers.core >= u64::from(cores) {
        return Err(AssignFault::Core(number));
    }
    if owners[numbers.pipe as usize].is_some() {
        return Err(AssignFault::Twice(number));
    }
    Ok(OwnerLine {
        pipe: numbers.pipe as u32,
        core: numbers.core as u32,
    })
}

/// The owners that the lines of pipes say, by the numbers of the pipes.
fn read_lines(
    alloc: Global,
    text: &[u8],
    pipes: usize,
    cores: u32,
) -> Result<Vec<Option<u32>>, Refusal<AssignFault>>
    requires few_pipes { pipes ≤ PIPES_MAX }
    requires bytes { length text.now ≤ DIRECTORY_BYTES_MAX }
    ensures found { IfOk result (λ owners. SayOwners pipes cores (lines_of text.now) owners.items) }
    ensures fault { IfErr result
        (λ refusal. IfFault refusal (λ fault. first_line_fault (owner_fault pipes cores) [] (lines_of text.now) ≡ Some fault)) }
{
    let mut owners = vec![in alloc; None; pipes]?;
    let mut rest = text;
    let mut number = 2;
    'lines: while !rest.is_empty() {
        let (line, after) = split_line(rest);
        let said = match read_line(line, number, &owners, cores) {
            Ok(said) => said,
            Err(fault) => return Err(Refusal::Fault(fault)),
        };
        owners[said.pipe as usize] = Some(said.core);
        rest = after;
        number += 1;
    }
    Ok(owners)
}

/// The owners, where each pipe has one.
fn all_owned(alloc: Global, owners: &[Option<u32>]) -> Result<Vec<u32>, Refusal<AssignFault>>
    requires { length owners.now ≤ PIPES_MAX }
    ensures all { IfOk result (λ v. map (λ core. Some core) v.items ≡ owners.now) }
    ensures missed { IfErr result (λ refusal. IfFault refusal (Misses owners.now)) }
{
    let mut cores = Vec::new(alloc);
    for (pipe, owner) in owners.iter().enumerate() {
        let Some(core) = owner else {
            return Err(Refusal::Fault(AssignFault::Missing(pipe as u32)));
        };
        cores.push(*core)?;
    }
    Ok(cores)
}
