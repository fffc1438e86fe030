ghost use Rattle.std.specs.Prelude.{◌≡◌, ◌≢◌, ◌<◌, ℕ, true, false, All, OnOk, OnErr, slice_get};
ghost use Rattle.core_loop.specs.CoreView.{CoreView};
ghost use Rattle.core_loop.specs.Turns.{HasMoved, OwesPost, OwesTake, Owes, IsCoreDone, HasEnded, IfWaiting, MayFail};
ghost use Rattle.parcel.specs.PlainBoxesView.{box_at, HasParcel, HasNoParcel};
ghost use Rattle.world.specs.WorldView.{IsCoreOf};
ghost use Rattle.world.specs.Worlds.{WorldStillStands, Turned, TurnedBy, IsWorldDone};

use crate::whole::World;
use core_loop::Turn;
use mn_base::NoMemory;
use std::alloc::Global;

/// The turns of a world.
impl<'s> World<'s> {
    /// One turn of a core over the boxes.
    pub fn turn(&mut self, alloc: Global, core: u32) -> Turn
        requires core { core < self.old.setup.cores }
        ensures setup { self.new.setup ≡ self.old.setup }
        ensures stands { WorldStillStands self.old self.new }
        ensures turned { result ≢ Turn.NoMemory → Turned core self.old self.new }

        // The core has moved and isn't done, or it waits: then nothing has changed, each box to which it still owes a post is full, and
        // each from which it owes a take is empty. Or it is done.
        ensures moved { result ≡ Turn.Moved → (c d : CoreView) → IsCoreOf self.old core c → IsCoreOf self.new core d
            → HasMoved c d × (IsCoreDone d → ⊥) }
        ensures waits { IfWaiting result (λ on. (c : CoreView) → IsCoreOf self.old core c → Owes c on) }
        ensures same { IfWaiting result (λ on. self.new.cores ≡ self.old.cores) }
        ensures posts { IfWaiting result (λ on. (c : CoreView) (other : ℕ) → IsCoreOf self.old core c → OwesPost c other
            → HasParcel (box_at self.old.boxes core other)) }
        ensures takes { IfWaiting result (λ on. (c : CoreView) (other : ℕ) → IsCoreOf self.old core c → OwesTake c other
            → HasNoParcel (box_at self.old.boxes other core)) }
        ensures done { result ≡ Turn.Done → (d : CoreView) → IsCoreOf self.new core d → IsCoreDone d × HasEnded d }

        // Out of memory: no run goes on. The core had failed before, or took a parcel, ran a window or was to run one.
        ensures failed { result ≡ Turn.NoMemory → self.new.failed ≡ true }
        ensures works { result ≢ Turn.NoMemory → self.new.failed ≡ self.old.failed }
        ensures may_fail { result ≡ Turn.NoMemory → (c d : CoreView) → IsCoreOf self.old core c → IsCoreOf self.new core d
            → MayFail c d }

        // Whatever it answers, the other cores are as they were.
        ensures others { (other : ℕ) → other ≢ core → slice_get self.new.cores other ≡ slice_get self.old.cores other }
    {
        self.boxes.serve(core);
        let turn = self.cores[core as usize].turn(alloc, &mut self.boxes);
        if let Turn::NoMemory = turn {
            self.failed = true;
            return Turn::NoMemory;
        }
        turn
    }

    /// Turns the named cores in this order.
    pub fn run_order(&mut self, alloc: Global, order: &[u32]) -> Result<(), NoMemory>
        requires cores { All (λ core. core < self.old.setup.cores) order.now }
        ensures setup { self.new.setup ≡ self.old.setup }
        ensures turned { OnOk result (TurnedBy order.now self.old self.new) }
        ensures stands { WorldStillStands self.old self.new }
        ensures works { OnOk result (self.new.failed ≡ false) }
        ensures failed { OnErr result (self.new.failed ≡ true) }
        ensures failed_before { self.old.failed ≡ true → OnOk result ⊥ }
    {
        if self.failed {
            return Err(NoMemory);
        }
        for core in order {
            let _turn = self.turn(alloc, *core);
            if self.failed {
                return Err(NoMemory);
            }
        }
        Ok(())
    }
}
