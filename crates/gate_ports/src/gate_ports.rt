ghost use Rattle.std.specs.Prelude.{◌≡◌, ◌≢◌, ◌⊎◌, ℕ, ◌+◌, ◌-◌, ◌*◌, ◌<◌, ◌≤◌, slice_index, OnOk, OnErr, IfOk, IfErr};
ghost use Rattle.journal.specs.IsSetup.{IsSetup};
ghost use Rattle.parcel.specs.Windows.{window_count};
ghost use Rattle.parcel.specs.Parcels.{IsParcel};
ghost use Rattle.gate_ports.specs.GatePortsView.{IsFresh, NothingFalls, PostMissed, TakeMissed, lane_posted, lane_taken};
ghost use Rattle.gate_ports.specs.Building.{HasSenders, HasReceivers, HasLanes};

use crate::lane_name::Parcels;
use gate_box::{LaneBusy, LaneEmpty, Receiver, Sender};
use journal::Setup;
use parcel::laws::windows_are_few;
use parcel::{Busy, Empty, Parcel, Ports};
use std::marker::Model;

/// The ports of one core, whose other cores may be on other threads: the sender of a lane to each core and the receiver of a lane
/// from each. Those of its own index are never used.
#[derive(Drop)]
pub struct GatePorts<'s> {
    setup: &'s Setup,
    core: u32,
    senders: Vec<Sender<Parcels<'s>>>,
    receivers: Vec<Receiver<Parcels<'s>>>,
}

impl<'s> Model for GatePorts<'s> {
    ghost use Rattle.gate_ports.specs.GatePortsView.{GatePortsView};

    ghost Value = { GatePortsView };

    ghost use Rattle.gate_ports.specs.GatePorts.{ports_view, AreEnds};

    ghost view = { ports_view };

    ghost invariant = { AreEnds };
}

impl<'s> GatePorts<'s> {
    /// The ports of a core by its ends, of which none was used.
    pub(crate) fn of(
        setup: &'s Setup,
        core: u32,
        senders: Vec<Sender<Parcels<'s>>>,
        receivers: Vec<Receiver<Parcels<'s>>>,
    ) -> GatePorts<'s>
        requires setup { IsSetup setup.now }
        requires core { core < setup.now.cores }
        requires senders { HasSenders setup.now setup.now.cores core senders }
        requires receivers { HasReceivers setup.now setup.now.cores core receivers }
        ensures fresh { IsFresh setup.now core result }
        ensures lanes { HasLanes senders.entry receivers.entry result }
    {
        windows_are_few(setup);
        GatePorts {
            setup,
            core,
            senders,
            receivers,
        }
    }
}

impl<'s> Ports for GatePorts<'s> {
    ghost use Rattle.gate_ports.specs.GatePortsView.{NothingFalls, PostMissed, TakeMissed, lane_posted, lane_taken};
    ghost use Rattle.gate_ports.specs.GatePortsLaws as laws;

    ghost setup = { λ p. p.setup };

    ghost core = { λ p. p.core };

    ghost posted = { lane_posted };

    ghost taken = { lane_taken };

    ghost keeps = { NothingFalls };

    ghost busy = { PostMissed };

    ghost empty = { TakeMissed };

    ghost keeps_refl = { laws.falls_nowhere };

    ghost keeps_trans = { laws.falls_nowhere_between };

    ghost keeps_setup = { λ p q kept. kept.setup };

    ghost keeps_core = { λ p q kept. kept.core };

    ghost keeps_posted = { λ p q j kept. kept.posts j };

    ghost keeps_taken = { λ p q j kept. kept.takes j };

    /// Posts the next parcel, where its box is free. `Busy` comes only where the count of misses at this end of the lane rose.
    fn try_post(&mut self, to: u32, parcel: Parcel) -> Result<(), Busy>
        requires known { to < self.old.setup.cores }
        requires other { to ≢ self.old.core }
        requires room { lane_posted self.old to ≤ window_count self.old.setup }
        requires parcel { IsParcel self.old.setup self.old.core to (lane_posted self.old to) parcel }
        ensures keeps { NothingFalls self.old self.new }
        ensures same_setup { self.new.setup ≡ self.old.setup }
        ensures same_core { self.new.core ≡ self.old.core }
        ensures ok { OnOk result (lane_posted self.new to ≡ lane_posted self.old to + 1) }
        ensures err { OnErr result (lane_posted self.new to ≡ lane_posted self.old to) }
        ensures others { (j : ℕ) → j ≢ to → lane_posted self.new j ≡ lane_posted self.old j }
        ensures taken { (j : ℕ) → lane_taken self.new j ≡ lane_taken self.old j }
        ensures busy { OnErr result (PostMissed self.old to self.new) }
        ensures parcel { IfErr result (λ busy. busy.parcel ≡ parcel) }
        ensures posted_before { OnErr result (0 < lane_posted self.old to) }
        ensures seen { IfErr result (λ busy. (busy.seen ≡ 4 * (lane_posted self.old to - 1) + 2)
            ⊎ (busy.seen ≡ 4 * (lane_posted self.old to - 1) + 3)) }

        // Of these ports it is known, too: it is the word that this miss read.
        ensures word { IfErr result (λ busy. busy.seen ≡ slice_index self.new.post_words to) }
    {
        let lane = &mut self.senders[to as usize];
        let Err(LaneBusy { item, seen }) = lane.try_post(parcel) else {
            return Ok(());
        };
        Err(Busy { parcel: item, seen })
    }

    /// Takes the next parcel, where it is there. `Empty` comes only where the count of misses at this end of the lane rose.
    fn try_take(&mut self, from: u32) -> Result<Parcel, Empty>
        requires known { from < self.old.setup.cores }
        requires other { from ≢ self.old.core }
        requires room { lane_taken self.old from ≤ window_count self.old.setup }
        ensures keeps { NothingFalls self.old self.new }
        ensures same_setup { self.new.setup ≡ self.old.setup }
        ensures same_core { self.new.core ≡ self.old.core }
        ensures parcel { IfOk result (IsParcel self.old.setup from self.old.core (lane_taken self.old from)) }
        ensures ok { OnOk result (lane_taken self.new from ≡ lane_taken self.old from + 1) }
        ensures err { OnErr result (lane_taken self.new from ≡ lane_taken self.old from) }
        ensures others { (j : ℕ) → j ≢ from → lane_taken self.new j ≡ lane_taken self.old j }
        ensures posted { (j : ℕ) → lane_posted self.new j ≡ lane_posted self.old j }
        ensures empty { OnErr result (TakeMissed self.old from self.new) }
        ensures seen { IfErr result (λ empty. empty.seen < 4 * lane_taken self.old from + 2) }

        // Of these ports it is known, too: it is the word that this miss read.
        ensures word { IfErr result (λ empty. empty.seen ≡ slice_index self.new.take_words from) }
    {
        let lane = &mut self.receivers[from as usize];
        match lane.try_take() {
            Ok(parcel) => return Ok(parcel),
            Err(LaneEmpty { seen }) => return Err(Empty { seen }),
        }
    }
}
