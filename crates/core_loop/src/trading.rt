ghost use Rattle.std.specs.Prelude.{◌≡◌, ℕ, ◌<◌, ◌≤◌, true, false, IfOk, OnOk, OnErr, MatchBool};
ghost use Rattle.parcel.specs.Windows.{window_count};
ghost use Rattle.core_loop.specs.CoreView.{windows_of, taken_of, IsOtherCore};
ghost use Rattle.core_loop.specs.WorldState.{IsInStep};
ghost use Rattle.core_loop.specs.Turns.{StandAt, NoCountFalls, StillStands, OwesPost, OwesTake, RefusedBetween};
ghost use Rattle.core_loop.specs.Trading.{posted_once, TakesIn, OnlyTakes, TradeComesTo, Swept, RoundComesTo};

use crate::one_core::Core;
use crate::round::{Round, Sweep, Trade};
use crate::turn::PortName;
use mn_base::NoMemory;
use parcel::Ports;
use std::alloc::Global;

/// The posts and takes of a round.
impl<'s> Core<'s> {
    /// Makes the posts and takes of the round that are still to be made, as far as the ports let it.
    pub(crate) fn trade<P: Ports>(&mut self, alloc: Global, ports: &mut P) -> Round
        requires stand { StandAt P.setup P.core P.posted P.taken ports.old self.old }
        requires works { self.old.failed ≡ false }
        ensures keeps { P.keeps ports.old ports.new }
        ensures stand { StandAt P.setup P.core P.posted P.taken ports.new self.new }
        ensures rises { NoCountFalls self.old self.new }
        ensures stands { StillStands self.old self.new }
        ensures comes { RoundComesTo self.old result self.new }
        ensures posts { self.new.failed ≡ false → (other : ℕ) → OwesPost self.new other
            → RefusedBetween P.keeps P.busy ports.old other ports.new }
        ensures takes { self.new.failed ≡ false → (other : ℕ) → OwesTake self.new other
            → RefusedBetween P.keeps P.empty ports.old other ports.new }
    {
        let posts = self.post_all(ports);
        let Ok(takes) = self.take_all(alloc, ports) else {
            return Round::NoMemory;
        };
        posts.and_takes(takes)
    }

    /// Makes the posts of the round that are still to be made, as far as the ports let it.
    fn post_all<P: Ports>(&mut self, ports: &mut P) -> Sweep
        requires stand { StandAt P.setup P.core P.posted P.taken ports.old self.old }
        requires works { self.old.failed ≡ false }
        ensures stand { StandAt P.setup P.core P.posted P.taken ports.new self.new }
        ensures swept { Swept P.keeps P.busy OwesPost ports.old self.old ports.new self.new self.old.setup.cores result }
    {
        let mut sweep = Sweep::begin();
        for other in 0..self.setup.parts().cores {
            sweep = sweep.and(self.post_one(ports, other), other);
        }
        sweep
    }

    /// Posts the parcel that is owed to a core, if one is.
    fn post_one<P: Ports>(&mut self, ports: &mut P, other: u32) -> Trade
        requires stand { StandAt P.setup P.core P.posted P.taken ports.old self.old }
        requires works { self.old.failed ≡ false }
        requires known { other < self.old.setup.cores }
        ensures keeps { P.keeps ports.old ports.new }
        ensures stand { StandAt P.setup P.core P.posted P.taken ports.new self.new }
        ensures comes { TradeComesTo P.busy OwesPost ports.old self.old ports.new self.new other result }
    {
        if !self.owes_post(other) {
            return Trade::Past;
        }
        let peer = &mut self.peers[other as usize];
        let Some(parcel) = peer.owed.take() else {
            unreachable!();
        };
        match ports.try_post(other, parcel) {
            Ok(()) => {
                peer.posted += 1;
                Trade::Made
            }
            Err(busy) => {
                peer.owed = Some(busy.parcel);
                Trade::Refused
            }
        }
    }

    /// Whether the post of the round to a core is still to be made.
    fn owes_post(&self, other: u32) -> bool
        requires known { other < self.now.setup.cores }
        ensures { MatchBool result (OwesPost self.now other) (OwesPost self.now other → ⊥) }
    {
        other != self.number && self.peers[other as usize].posted == self.work.windows()
    }

    /// Makes the takes of the round that are still to be made, as far as the ports let it.
    fn take_all<P: Ports>(&mut self, alloc: Global, ports: &mut P) -> Result<Sweep, NoMemory>
        requires stand { StandAt P.setup P.core P.posted P.taken ports.old self.old }
        requires works { self.old.failed ≡ false }
        ensures keeps { P.keeps ports.old ports.new }
        ensures stand { StandAt P.setup P.core P.posted P.taken ports.new self.new }
        ensures only { OnlyTakes self.old self.new }
        ensures swept { IfOk result (Swept P.keeps P.empty OwesTake ports.old self.old ports.new self.new self.old.setup.cores) }
        ensures in_step { OnOk result (IsInStep self.new) }
        ensures err { OnErr result (self.new.failed ≡ true) }
        ensures taken { OnErr result ((other : ℕ) × IsOtherCore self.old other × (taken_of self.old other < taken_of self.new other)) }
    {
        let mut sweep = Sweep::begin();
        for other in 0..self.setup.parts().cores {
            sweep = sweep.and(self.take_one(alloc, ports, other)?, other);
        }
        Ok(sweep)
    }

    /// Takes the parcel of a core, if it isn't taken yet.
    fn take_one<P: Ports>(
        &mut self,
        alloc: Global,
        ports: &mut P,
        other: u32,
    ) -> Result<Trade, NoMemory>
        requires stand { StandAt P.setup P.core P.posted P.taken ports.old self.old }
        requires works { self.old.failed ≡ false }
        requires known { other < self.old.setup.cores }
        ensures keeps { P.keeps ports.old ports.new }
        ensures stand { StandAt P.setup P.core P.posted P.taken ports.new self.new }
        ensures comes { IfOk result (TradeComesTo P.empty OwesTake ports.old self.old ports.new self.new other) }
        ensures only { OnlyTakes self.old self.new }
        ensures err { OnErr result (OwesTake self.old other × TakesIn self.old other self.new × (self.new.failed ≡ true)) }
    {
        if !self.owes_take(other) {
            return Ok(Trade::Past);
        }
        match ports.try_take(other) {
            Ok(parcel) => {
                self.take_in(other, parcel)?;
                Ok(Trade::Made)
            }
            Err(_empty) => Ok(Trade::Refused),
        }
    }

    /// Whether the take of the round from a core is still to be made.
    fn owes_take(&self, other: u32) -> bool
        requires works { self.now.failed ≡ false }
        requires known { other < self.now.setup.cores }
        ensures owed { MatchBool result (OwesTake self.now other) (OwesTake self.now other → ⊥) }
        ensures within { windows_of self.now ≤ window_count self.now.setup }
    {
        other != self.number && self.peers[other as usize].taken == self.work.windows()
    }
}
