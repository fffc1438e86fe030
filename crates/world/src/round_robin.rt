ghost use Rattle.std.specs.Prelude.{◌≡◌, ◌<◌, ◌≤◌, true, false, IfOk, OnOk, OnErr, MatchBool};
ghost use Rattle.world.specs.Worlds.{WorldStillStands, IsWorldDone};
ghost use Rattle.world.specs.Steps.{total_steps, most_steps};
ghost use Rattle.world.specs.Rounds.{still_all};

use crate::whole::World;
use core_loop::Turn;
use mn_base::NoMemory;
use std::alloc::Global;

/// Turns of all cores of a world, again and again.
impl<'s> World<'s> {
    /// Turns core 0, 1 and so on, again and again, until all are done. It comes to an end: where not all are done, some core can post,
    /// take or run.
    pub fn run_round_robin(&mut self, alloc: Global) -> Result<(), NoMemory>
        ensures setup { self.new.setup ≡ self.old.setup }
        ensures done { OnOk result (IsWorldDone self.new) }
        ensures stands { WorldStillStands self.old self.new }
        ensures failed { OnErr result (self.new.failed ≡ true) }
        ensures failed_before { self.old.failed ≡ true → OnOk result ⊥ }
    {
        if self.failed {
            return Err(NoMemory);
        }
        loop {
            if self.round(alloc)? {
                return Ok(());
            }
        }
    }

    /// Turns each core once, in core order, and tells whether all were done. Where they were not, something has moved.
    fn round(&mut self, alloc: Global) -> Result<bool, NoMemory>
        requires works { self.old.failed ≡ false }
        ensures setup { self.new.setup ≡ self.old.setup }
        ensures stands { WorldStillStands self.old self.new }
        ensures rises { IfOk result (λ all. MatchBool all (IsWorldDone self.new) (total_steps self.old < total_steps self.new)) }
        ensures few { OnOk result (total_steps self.new ≤ most_steps self.new.setup) }
        ensures works { OnOk result (self.new.failed ≡ false) }
        ensures failed { OnErr result (self.new.failed ≡ true) }
    {
        let mut all_done = true;
        for core in 0..self.setup.parts().cores {
            let turn = self.turn(alloc, core);
            if self.failed {
                return Err(NoMemory);
            }
            all_done = still_done(all_done, turn);
        }
        Ok(all_done)
    }
}

/// Whether all are done still, when a core has answered this.
fn still_done(all_done: bool, turn: Turn) -> bool
    ensures { result ≡ still_all all_done turn }
{
    match turn {
        Turn::Done => all_done,
        Turn::Moved => false,
        Turn::Waiting { on: _ } => false,
        Turn::NoMemory => false,
    }
}
