ghost use Rattle.std.specs.Prelude.{◌≡◌, ◌≤◌, IfOk, map, unwrap_or};
ghost use Rattle.mn_base.specs.declared.limits.TheConstants.{CORES_MAX};
ghost use Rattle.ownership.specs.Assignment.{assignment};

use crate::directory::Directory;
use crate::incidence::Incidence;
use crate::turns::Turns;
use distill::Distilled;
use mn_base::NoMemory;
use std::alloc::Global;

/// Assigns the pipes of a distilled topology to cores, turn by turn.
///
/// With m edge nodes and k cores, core i starts with the node set that holds edge node number i * m / k, or nothing where there are
/// no edge nodes. Cores 0 to k - 1 take pipes in turn, again and again, until every pipe is owned. The core in turn takes the
/// least-numbered unowned pipe with an end in its node set, or the least-numbered unowned pipe where there is none, and adds both ends
/// to its set.
///
/// A pipe is put once into the ordered set of a core for each of its ends that the core comes to reach, so it takes time in
/// O(k * p * log p) for p pipes, and memory in O(k * p).
pub fn assign(alloc: Global, distilled: &Distilled, cores: u32) -> Result<Directory, NoMemory>
    requires some_core { 1 ≤ cores }
    requires few_cores { cores ≤ CORES_MAX }
    ensures assigned { IfOk result (λ directory. directory ≡ assignment distilled.now cores) }
{
    let incidence = Incidence::new(alloc, distilled)?;
    let mut turns = Turns::new(alloc, distilled, &incidence, cores)?;
    for turn in 0..distilled.pipes().len() {
        turns.take(distilled, &incidence, cores, turn)?;
    }
    let owners = settled(alloc, &turns.owners)?;
    Directory::of_owners(alloc, distilled, cores, owners)
}

/// The owners, or core 0 where there is none.
fn settled(alloc: Global, owners: &[Option<u32>]) -> Result<Vec<u32>, NoMemory>
    ensures { IfOk result (λ v. v.items ≡ map (λ owner. unwrap_or owner 0) owners.now) }
{
    let owners = owners
        .iter()
        .map(|owner| owner.unwrap_or(0))
        .collect(alloc)?;
    Ok(owners)
}
