ghost use Rattle.std.specs.Prelude.{◌≡◌, ◌⊎◌, ◌↔◌, ℕ, ◌<◌, false, slice_index_or};
ghost use Rattle.mn_base.specs.declared.limits.TheConstants.{PIPES_MAX};
ghost use Rattle.parcel.specs.PipeSets.{Has};

use mn_base::limits::PIPES_MAX;
use std::marker::Model;

/// A set of pipes: a mark for each number that a pipe may have, on the stack.
#[derive(Drop)]
pub(crate) struct PipeSet {
    marks: [bool; PIPES_MAX],
}

impl Model for PipeSet {
    ghost use Rattle.std.specs.Prelude.{Bool, List};

    ghost Value = { List Bool };

    ghost view = { λ s. s.marks };
}

impl PipeSet {
    /// The set without pipes.
    pub(crate) fn empty() -> PipeSet
        ensures { (pipe : ℕ) → Has result pipe → ⊥ }
    {
        PipeSet {
            marks: [false; PIPES_MAX],
        }
    }

    /// Adds a pipe.
    pub(crate) fn add(&mut self, pipe: u32)
        requires { pipe < PIPES_MAX }
        ensures { (q : ℕ) → Has self.new q ↔ (Has self.old q ⊎ (pipe ≡ q)) }
    {
        self.marks[pipe as usize] = true;
    }

    /// Whether a pipe is in the set.
    pub(crate) fn has(&self, pipe: u32) -> bool
        requires { pipe < PIPES_MAX }
        ensures { result ≡ slice_index_or self.now pipe false }
    {
        self.marks[pipe as usize]
    }
}
