ghost use Rattle.std.specs.Prelude.{◌≡◌, ◌≤◌, [], length, IfOk, IfErr};
ghost use Rattle.std.specs.Option.{ForSome};
ghost use Rattle.mn_base.specs.declared.limits.TheConstants.{CORES_MAX, DIRECTORY_BYTES_MAX};
ghost use Rattle.mn_base.specs.Refused.{IfFault};
ghost use Rattle.ownership.specs.Assignment.{assignment};
ghost use Rattle.plan.specs.Setups.{AreDirected, IsDirectedBy, given_text};
ghost use Rattle.plan.specs.Grounds.{AreFit};
ghost use Rattle.plan.specs.Faults.{DirectingFirst, TextFirst};

use crate::faults::PlanFault;
use changes::{Change, read_changes};
use distill::Distilled;
use mn_base::Refusal;
use ownership::{Directory, assign, read_directory};
use std::alloc::Global;

/// Who owns which pipe, where packets enter, and which pipes change when.
#[derive(Drop)]
pub(crate) struct Directed {
    pub directory: Directory,
    pub changes: Vec<Change>,
}

/// By a directory text, or by assignment and without changes.
pub(crate) fn direct(
    alloc: Global,
    distilled: &Distilled,
    cores: u32,
    text: Option<&[u8]>,
) -> Result<Directed, Refusal<PlanFault>>
    requires some_core { 1 ≤ cores }
    requires few_cores { cores ≤ CORES_MAX }
    requires bytes { ForSome text (λ t. length t.now ≤ DIRECTORY_BYTES_MAX) }
    ensures directed { IfOk result (λ made. IsDirectedBy distilled.now cores (given_text text.entry) made.directory made.changes.items) }
    ensures fit { IfOk result (λ made. AreFit distilled.now cores made.directory made.changes.items) }
    ensures fault { IfErr result (λ refusal. IfFault refusal (DirectingFirst distilled.now cores (given_text text.entry))) }
{
    match text {
        Some(text) => by_text(alloc, distilled, cores, text),
        None => by_assignment(alloc, distilled, cores),
    }
}

fn by_assignment(
    alloc: Global,
    distilled: &Distilled,
    cores: u32,
) -> Result<Directed, Refusal<PlanFault>>
    requires some_core { 1 ≤ cores }
    requires few_cores { cores ≤ CORES_MAX }
    ensures directory { IfOk result (λ made. made.directory ≡ assignment distilled.now cores) }
    ensures changes { IfOk result (λ made. made.changes.items ≡ []) }
    ensures no_fault { IfErr result (λ refusal. IfFault refusal (λ fault. ⊥)) }
{
    Ok(Directed {
        directory: assign(alloc, distilled, cores)?,
        changes: Vec::new(alloc),
    })
}

fn by_text(
    alloc: Global,
    distilled: &Distilled,
    cores: u32,
    text: &[u8],
) -> Result<Directed, Refusal<PlanFault>>
    requires some_core { 1 ≤ cores }
    requires few_cores { cores ≤ CORES_MAX }
    requires bytes { length text.now ≤ DIRECTORY_BYTES_MAX }
    ensures directed { IfOk result (λ made. AreDirected distilled.now cores text.now made.directory made.changes.items) }
    ensures fault { IfErr result (λ refusal. IfFault refusal (TextFirst distilled.now cores text.now)) }
{
    let pipes = distilled.pipes().len() as u32;
    let split = read_changes(alloc, text, cores, pipes).map_err(|e| e.map_fault(
        PlanFault::Changes,
    ))?;
    let directory = read_directory(alloc, split.directory.as_slice(), distilled, cores).map_err(
        |e| e.map_fault(PlanFault::Assign),
    )?;
    Ok(Directed {
        directory,
        changes: split.changes,
    })
}
