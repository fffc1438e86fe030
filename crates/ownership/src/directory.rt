ghost use Rattle.std.specs.Prelude.{◌≡◌, ◌≤◌, ◌<◌, All, IfOk, length, vec_len, slice_index};
ghost use Rattle.mn_base.specs.declared.limits.TheConstants.{CORES_MAX};
ghost use Rattle.ownership.specs.Directory.{IsDirectory};
ghost use Rattle.ownership.specs.Entries.{entries_of};

use crate::entries::entries_of;
use distill::Distilled;
use mn_base::NoMemory;
use std::alloc::Global;
use std::marker::Model;

/// The core that owns each pipe of a distilled topology, and the entry core of each of its nodes.
#[derive(Debug, Drop)]
pub struct Directory {
    pub(crate) cores: u32,
    pub(crate) owners: Vec<u32>,
    pub(crate) entries: Vec<u32>,
}

impl Model for Directory {
    ghost use Rattle.ownership.specs.Directory.{DirectoryView, IsDirectory};

    ghost Value = { DirectoryView };

    ghost view = { λ d. record { cores = d.cores; owners = d.owners.items; entries = d.entries.items } };

    ghost invariant = { λ d. IsDirectory (record { cores = d.cores; owners = d.owners.items; entries = d.entries.items }) };
}

impl Directory {
    /// The core that owns a pipe.
    pub fn owner(&self, pipe: u32) -> u32
        requires { pipe < length self.now.owners }
        ensures value { result ≡ slice_index self.now.owners pipe }
        ensures below { result < self.now.cores }
        ensures valid { IsDirectory self.now }
    {
        self.owners[pipe as usize]
    }

    /// The core at which packets from a node begin.
    pub fn entry(&self, node: u32) -> u32
        requires { node < length self.now.entries }
        ensures value { result ≡ slice_index self.now.entries node }
        ensures below { result < self.now.cores }
        ensures valid { IsDirectory self.now }
    {
        self.entries[node as usize]
    }

    /// The directory of these owners, one for each pipe.
    pub(crate) fn of_owners(
        alloc: Global,
        distilled: &Distilled,
        cores: u32,
        owners: Vec<u32>,
    ) -> Result<Directory, NoMemory>
        requires some_core { 1 ≤ cores }
        requires few_cores { cores ≤ CORES_MAX }
        requires owners { All (λ core. core < cores) owners.items }
        requires len { vec_len owners ≡ length distilled.now.pipes }
        ensures { IfOk result (λ d. d ≡ record { cores = cores; owners = owners.items; entries = entries_of distilled.now owners.items }) }
    {
        let entries = entries_of(alloc, distilled, cores, &owners)?;
        Ok(Directory {
            cores,
            owners,
            entries,
        })
    }
}
