ghost use Rattle.std.specs.Prelude.{◌≡◌, ◌≤◌, ◌<◌, All, IfOk, OnOk, length};
ghost use Rattle.distill.specs.Distilled.{KeepsPipeLimits};
ghost use Rattle.ownership.specs.Entries.{entries_of};

use distill::Distilled;
use mn_base::NoMemory;
use std::alloc::Global;

/// The entry core of each node: the owner of the least-numbered pipe that leaves it, or core 0 where none does.
pub(crate) fn entries_of(
    alloc: Global,
    distilled: &Distilled,
    cores: u32,
    owners: &[u32],
) -> Result<Vec<u32>, NoMemory>
    requires some_core { 1 ≤ cores }
    requires owners { All (λ core. core < cores) owners.now }
    requires len { length owners.now ≡ length distilled.now.pipes }
    ensures entries { IfOk result (λ v. v.items ≡ entries_of distilled.now owners.now) }
    ensures below { IfOk result (λ v. All (λ core. core < cores) v.items) }
    ensures valid { OnOk result (KeepsPipeLimits distilled.now) }
    ensures few { IfOk result (λ v. length v.items ≡ distilled.now.nodes) }
{
    let pipes = distilled.pipes();
    let mut entries = vec![in alloc; 0; distilled.nodes() as usize]?;
    let mut pipe = pipes.len();
    // From the last pipe to the first, so that the first that leaves a node stays.
    'pipes: while pipe > 0 {
        pipe -= 1;
        entries[pipes[pipe].from as usize] = owners[pipe];
    }
    Ok(entries)
}
