ghost use Rattle.std.specs.Prelude.{◌≡◌, ℕ, true, false};
ghost use Rattle.core_loop.specs.WorldState.{IsInStep};
ghost use Rattle.core_loop.specs.Turns.{StandAt, NoCountFalls, HasMoved, StillStands, OwesPost, OwesTake, Owes, HasTradedAll, IsCoreDone, HasEnded, RefusedBetween, IfWaiting, MayFail};
ghost use Rattle.core_loop.specs.Trading.{LeastSays, TurnComesTo};

use crate::handing::earlier;
use crate::one_core::Core;
use crate::round::Round;
use crate::turn::Turn;
use parcel::Ports;
use std::alloc::Global;

/// The turns of a core.
impl<'s> Core<'s> {
    /// One pass for each round over these ports: it posts what is owed where a port takes it, and takes what is there. Where all is posted and taken it
    /// runs the window and goes on with the next round; it ends where a post or take is missing, or all is done. It waits for nothing.
    pub fn turn<P: Ports>(&mut self, alloc: Global, ports: &mut P) -> Turn
        // The ports are of this setup and core, and stand where the core's own counts stand.
        requires { StandAt P.setup P.core P.posted P.taken ports.old self.old }
        ensures keeps { P.keeps ports.old ports.new }
        ensures stand { StandAt P.setup P.core P.posted P.taken ports.new self.new }
        ensures rises { NoCountFalls self.old self.new }
        ensures stands { StillStands self.old self.new }
        ensures in_step { self.new.failed ≡ false → IsInStep self.new }

        // A parcel was posted or taken or a window run, and the core isn't done.
        ensures moved { result ≡ Turn.Moved → HasMoved self.old self.new }
        ensures not_done { result ≡ Turn.Moved → IsCoreDone self.new → ⊥ }

        // Nothing has changed, and each post and take that is still owed was refused in this turn.
        ensures waits { IfWaiting result (λ on. Owes self.old on) }
        ensures same { IfWaiting result (λ on. self.new ≡ self.old) }
        ensures posts { IfWaiting result (λ on. (other : ℕ) → OwesPost self.old other
            → RefusedBetween P.keeps P.busy ports.old other ports.new) }
        ensures takes { IfWaiting result (λ on. (other : ℕ) → OwesTake self.old other
            → RefusedBetween P.keeps P.empty ports.old other ports.new) }

        // Done exactly where the core is done at the turn's end.
        ensures done { result ≡ Turn.Done → IsCoreDone self.new }
        ensures ended { result ≡ Turn.Done → HasEnded self.new }
        ensures is_done { self.new.failed ≡ false → IsCoreDone self.new → result ≡ Turn.Done }

        // Out of memory: the core has failed, and stays so.
        ensures failed { result ≡ Turn.NoMemory → self.new.failed ≡ true }
        ensures no_memory { self.new.failed ≡ true → result ≡ Turn.NoMemory }
        ensures failed_before { self.old.failed ≡ true → (self.new ≡ self.old) × (ports.new ≡ ports.old) }
        ensures may_fail { result ≡ Turn.NoMemory → MayFail self.old self.new }
    {
        if self.failed {
            return Turn::NoMemory;
        }
        match self.trade(alloc, ports) {
            Round::NoMemory => Turn::NoMemory,
            Round::Owing { on, moved } => {
                if moved {
                    return Turn::Moved;
                }
                Turn::Waiting { on }
            }
            Round::Complete => self.go_on(alloc, ports),
        }
    }

    /// Runs the window of the round, whose posts and takes are all made, and goes on with the next rounds until a post or take of one is
    /// missing, or all is done.
    fn go_on<P: Ports>(&mut self, alloc: Global, ports: &mut P) -> Turn
        requires stand { StandAt P.setup P.core P.posted P.taken ports.old self.old }
        requires works { self.old.failed ≡ false }
        requires traded { HasTradedAll self.old }
        ensures keeps { P.keeps ports.old ports.new }
        ensures stand { StandAt P.setup P.core P.posted P.taken ports.new self.new }
        ensures rises { NoCountFalls self.old self.new }
        ensures stands { StillStands self.old self.new }
        ensures comes { TurnComesTo self.old result self.new }
    {
        loop {
            let Some(start) = self.least() else {
                return Turn::Done;
            };
            let Ok(()) = self.run_window(alloc, start) else {
                return Turn::NoMemory;
            };
            match self.trade(alloc, ports) {
                Round::NoMemory => return Turn::NoMemory,
                Round::Owing { on: _, moved: _ } => return Turn::Moved,
                Round::Complete => {}
            }
        }
    }

    /// The least of the least ticks of all cores; none where all are none. Where all posts and takes of the round are made, the next
    /// window starts there.
    fn least(&self) -> Option<u64>
        requires works { self.now.failed ≡ false }
        requires traded { HasTradedAll self.now }
        ensures { LeastSays self.now result }
    {
        let mut least = None;
        for peer in &self.peers {
            least = earlier(least, peer.least);
        }
        least
    }
}
