ghost use Rattle.std.specs.Prelude.{◌≡◌, ◌≢◌, ◌⊎◌, ◌↔◌, ◌<◌, ℕ, [], None, Some, MatchOption, OnOk, length, slice_index_or};
ghost use Rattle.mn_base.specs.Among.{Among};
ghost use Rattle.ownership.specs.Turning.{AreEmpty, PopsLeast, AddsIfFree, FindsNone, FindsLeast};

use mn_base::NoMemory;
use std::alloc::Global;
use std::collections::BTreeSet;
use std::marker::Model;

/// Pipes that a core may take, by their numbers; some of them may have an owner by now.
#[derive(Drop)]
pub(crate) struct NearPipes {
    pipes: BTreeSet<u32>,
}

impl Model for NearPipes {
    ghost use Rattle.std.specs.Prelude.{ℕ, List};

    ghost Value = { List ℕ };

    ghost view = { λ n. n.pipes.keys };
}

impl NearPipes {
    pub(crate) fn new(alloc: Global) -> NearPipes
        ensures { result ≡ [] }
    {
        NearPipes {
            pipes: BTreeSet::new(alloc),
        }
    }

    fn insert(&mut self, pipe: u32) -> Result<(), NoMemory>
        ensures { OnOk result ((k : ℕ) → Among k self.new ↔ ((pipe ≡ k) ⊎ Among k self.old)) }
    {
        self.pipes.insert(pipe)?;
        Ok(())
    }

    /// Puts in a pipe that has no owner.
    pub(crate) fn insert_unowned(
        &mut self,
        pipe: u32,
        owners: &[Option<u32>],
    ) -> Result<(), NoMemory>
        requires { pipe < length owners.now }
        ensures { OnOk result (AddsIfFree owners.now pipe self.old self.new) }
    {
        if owners[pipe as usize].is_some() {
            return Ok(());
        }
        self.insert(pipe)
    }

    /// Takes out the least.
    fn pop(&mut self) -> Option<u32>
        ensures { MatchOption result (AreEmpty self.old self.new) (λ first. PopsLeast self.old first self.new) }
    {
        self.pipes.pop_first()
    }

    /// Takes out the least that has no owner, and each below it.
    pub(crate) fn take_unowned(&mut self, owners: &[Option<u32>]) -> Option<u32>
        requires { (k : ℕ) → Among k self.old → k < length owners.now }
        ensures { MatchOption result (FindsNone owners.now self.old self.new) (λ pipe. FindsLeast owners.now self.old pipe self.new) }
    {
        'owned: while let Some(pipe) = self.pop() {
            if owners[pipe as usize].is_none() {
                return Some(pipe);
            }
        }
        None
    }
}
