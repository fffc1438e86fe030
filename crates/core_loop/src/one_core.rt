ghost use Rattle.std.specs.Prelude.{◌≡◌, ℕ, ◌+◌, ◌<◌, ◌≤◌, true, false, List, length, replicate, IfOk, OnOk, OnErr};
ghost use Rattle.parcel.specs.Results.{IsResult};
ghost use Rattle.parcel.specs.Parcels.{IsParcel};
ghost use Rattle.parcel.specs.Windows.{window_count};
ghost use Rattle.parcel.specs.Laws.{Starts};
ghost use Rattle.core_loop.specs.CoreView.{windows_of, no_peer, posted_of, taken_of};
ghost use Rattle.core_loop.specs.Stocked.{HoldsEntrants, AreBytesOf};
ghost use Rattle.core_loop.specs.WorldState.{IsInStep, CoreStands};
ghost use Rattle.core_loop.specs.Turns.{StillStands, OwesTake, HasTradedAll, IsCoreDone, own_visit_count};
ghost use Rattle.core_loop.specs.Trading.{TakesIn, SameTrades};
ghost use Rattle.core_loop.specs.TallyView.{added};

use crate::entering::{count_entrants, enter_all};
use crate::entrants::Entrants;
use crate::handing::{hand_out, take_notes};
use crate::peer::Peer;
use crate::tally::Tally;
use crate::work::Work;
use journal::Setup;
use mn_base::NoMemory;
use parcel::{CoreResult, Parcel, lookahead};
use payload_store::Store;
use std::alloc::Global;
use std::marker::Model;

/// One core of a setup, from its start to its result.
///
/// It goes on in rounds. In round n it posts its parcel n to each other core and takes parcel n of each; then it knows where
/// window n starts, runs its own visits in it, and makes its parcels n + 1. What it does follows from the setup, its own state and
/// the parcels alone, whatever ports they come through.
#[derive(Drop)]
pub struct Core<'s> {
    pub(crate) setup: &'s Setup,
    pub(crate) number: u32,
    /// The length of windows, in ticks.
    lookahead: u64,
    pub(crate) peers: Vec<Peer>,
    pub(crate) work: Work<'s>,
    entrants: Entrants,
    /// It found no memory; what else it holds is in no order. It is set, too, while a window is run or a parcel is taken in.
    pub(crate) failed: bool,
}

impl<'s> Model for Core<'s> {
    ghost use Rattle.core_loop.specs.CoreView.{CoreView};

    ghost Value = { CoreView };

    ghost use Rattle.std.specs.Coded.{codes, coded_ℕ, coded_list};
    ghost use Rattle.std.specs.FinMap as map;
    ghost use Rattle.std.specs.Ordering.{nat_cmp};

    ghost coded = { Prim.hlevel (codes, map.code {R = nat_cmp} coded_ℕ (coded_list coded_ℕ)) };

    ghost use Rattle.core_loop.specs.Inside.{core_view, IsCore};

    ghost view = { core_view };

    ghost invariant = { IsCore };
}

impl<'s> Core<'s> {
    /// A core of a setup, with the store that holds the payloads of the packets that enter there. It has run no window, and has
    /// posted and taken nothing.
    pub fn start(
        alloc: Global,
        setup: &'s Setup,
        core: u32,
        store: Store,
    ) -> Result<Core<'s>, NoMemory>
        requires core { core < setup.now.cores }
        requires store { HoldsEntrants setup.now core store }
        ensures setup { IfOk result (λ c. c.setup ≡ setup.now) }
        ensures number { IfOk result (λ c. c.number ≡ core) }
        ensures stands { IfOk result (λ c. (bytes : List (List ℕ)) → AreBytesOf setup.now core store bytes → CoreStands bytes c) }
        ensures windows { IfOk result (λ c. windows_of c ≡ 0) }
        ensures posted { IfOk result (λ c. (other : ℕ) → posted_of c other ≡ 0) }
        ensures taken { IfOk result (λ c. (other : ℕ) → taken_of c other ≡ 0) }
        ensures works { IfOk result (λ c. c.failed ≡ false) }
        ensures in_step { IfOk result IsInStep }
    {
        let _parts = setup.parts();
        let mut entrants = Entrants::of_store(alloc, store)?;
        let mut work = Work::idle(alloc, setup, core, count_entrants(setup, core))?;
        let mut peers = idle_peers(alloc, setup)?;
        enter_all(alloc, setup, &mut work, &mut entrants)?;
        hand_out(alloc, &mut work, &mut entrants, &mut peers)?;
        Ok(Core {
            setup,
            number: core,
            lookahead: lookahead(setup),
            peers,
            work,
            entrants,
            failed: false,
        })
    }

    /// Its number.
    pub fn number(&self) -> u32
        ensures { result ≡ self.now.number }
    {
        self.number
    }

    /// Takes in a parcel of a core: what arrives is due, and what is settled is settled.
    pub(crate) fn take_in(&mut self, other: u32, parcel: Parcel) -> Result<(), NoMemory>
        requires works { self.old.failed ≡ false }
        requires owed { OwesTake self.old other }
        requires parcel { IsParcel self.old.setup other self.old.number (windows_of self.old) parcel }
        ensures takes { TakesIn self.old other self.new }
        ensures works { OnOk result (self.new.failed ≡ false) }
        ensures stands { OnOk result (StillStands self.old self.new) }
        ensures err { OnErr result (self.new.failed ≡ true) }
    {
        self.failed = true;
        let peer = &mut self.peers[other as usize];
        peer.taken += 1;
        peer.least = parcel.least;
        take_notes(&mut self.work, &mut self.entrants, &parcel.notes)?;
        self.failed = false;
        Ok(())
    }

    /// Runs the window that starts at this tick, and makes the parcels of the next round.
    pub(crate) fn run_window(&mut self, alloc: Global, start: u64) -> Result<(), NoMemory>
        requires works { self.old.failed ≡ false }
        requires traded { HasTradedAll self.old }
        requires starts { Starts self.old.setup (windows_of self.old) start }
        ensures same { SameTrades self.old self.new }
        ensures rises { windows_of self.old ≤ windows_of self.new }
        ensures windows { OnOk result (windows_of self.new ≡ windows_of self.old + 1) }
        ensures works { OnOk result (self.new.failed ≡ false) }
        ensures stands { OnOk result (StillStands self.old self.new) }
        ensures failed { OnErr result (self.new.failed ≡ true) }
    {
        self.failed = true;
        self.work.run(alloc, start + self.lookahead)?;
        self.work.end_window();
        hand_out(alloc, &mut self.work, &mut self.entrants, &mut self.peers)?;
        self.failed = false;
        Ok(())
    }

    /// Its result at the end of the run, when its last turn has answered `Done`; it counts in the tally.
    pub fn finish(self, tally: &mut Tally) -> CoreResult
        requires done { IsCoreDone self }
        requires works { self.failed ≡ false }
        ensures result { (bytes : List (List ℕ)) → CoreStands bytes self.entry → IsResult self.entry.setup bytes self.entry.number result }
        ensures tally { tally.new ≡ added tally.old 1 (window_count self.entry.setup) (own_visit_count self.entry.setup self.entry.number) }
    {
        let Core {
            setup: _,
            number: _,
            lookahead: _,
            peers: _,
            work,
            entrants,
            failed: _,
        } = self;
        let counts = work.counts();
        tally.add_core(counts.windows, counts.visits);
        CoreResult {
            settled: entrants.into_settled(),
            pipe_counts: work.into_counts(),
            counts,
        }
    }

    /// Gives up its store and its parcels.
    pub fn abandon(self) {
        let _ = self;
    }
}

/// What a core keeps of each core at its start.
fn idle_peers(alloc: Global, setup: &Setup) -> Result<Vec<Peer>, NoMemory>
    ensures { IfOk result (λ peers. peers.items ≡ replicate setup.now.cores no_peer) }
{
    let mut peers = Vec::new(alloc);
    for _core in 0..setup.parts().cores {
        peers.push(Peer {
            posted: 0,
            taken: 0,
            owed: None,
            least: None,
        })?;
    }
    Ok(peers)
}

/// A core may move to a thread of its own: this needs the bound.
fn moved(core: Core) -> Core {
    through(core)
}

fn through<T: Send>(value: T) -> T {
    value
}
