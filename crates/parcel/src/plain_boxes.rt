ghost use Rattle.std.specs.Prelude.{◌≡◌, ◌≢◌, ◌⊎◌, ℕ, ◌+◌, ◌-◌, ◌*◌, ◌<◌, ◌≤◌, OnOk, OnErr, IfOk, IfErr};
ghost use Rattle.parcel.specs.Windows.{window_count};
ghost use Rattle.parcel.specs.Parcels.{IsParcel};
ghost use Rattle.parcel.specs.PlainBoxesView.{Keeps, AreInStep, HasNoParcel, HasParcel, box_at, idle_box, posted_to, taken_from};

use crate::parcel::Parcel;
use crate::ports::{Busy, Empty, Ports};
use journal::Setup;
use mn_base::NoMemory;
use mn_base::limits::CORES_MAX;
use std::alloc::Global;
use std::marker::Model;

/// Boxes have room for so many senders, and for so many receivers of each.
const ROW: usize = CORES_MAX as usize;

/// One box, from its sender to its receiver.
#[derive(Drop)]
struct PlainBox {
    /// How many parcels its receiver has taken.
    taken: u64,
    /// The parcel of that number, if it is posted.
    parcel: Option<Parcel>,
}

/// The boxes of all ordered pairs of cores on one thread, and the ports of one core at a time.
///
/// The box from core i to core j stands at `16 i + j`.
#[derive(Drop)]
pub struct PlainBoxes<'s> {
    setup: &'s Setup,
    core: u32,
    boxes: Vec<PlainBox>,
}

impl<'s> Model for PlainBoxes<'s> {
    ghost use Rattle.parcel.specs.PlainBoxesView.{PlainBoxesView};

    ghost Value = { PlainBoxesView };

    ghost use Rattle.parcel.specs.PlainBoxes.{boxes_view, AreBoxes};

    ghost view = { boxes_view };

    ghost invariant = { AreBoxes };
}

/// Where the box from one core to another stands.
fn place_of(sender: u32, receiver: u32) -> usize
    requires sender { sender < CORES_MAX }
    requires receiver { receiver < CORES_MAX }
    ensures { result ≡ CORES_MAX * sender + receiver }
{
    ROW * sender as usize + receiver as usize
}

impl<'s> PlainBoxes<'s> {
    /// Empty boxes of a setup, which serve core 0. Nothing is posted or taken.
    pub fn new(alloc: Global, setup: &'s Setup) -> Result<PlainBoxes<'s>, NoMemory>
        ensures setup { IfOk result (λ boxes. boxes.setup ≡ setup.now) }
        ensures core { IfOk result (λ boxes. boxes.core ≡ 0) }
        ensures idle { IfOk result (λ boxes. (sender receiver : ℕ) → box_at boxes sender receiver ≡ idle_box) }
    {
        let _parts = setup.parts();
        let mut boxes = Vec::with_capacity(alloc, ROW * ROW)?;
        for _place in 0..ROW * ROW {
            boxes.push(PlainBox {
                taken: 0,
                parcel: None,
            })?;
        }
        Ok(PlainBoxes {
            setup,
            core: 0,
            boxes,
        })
    }

    /// Serves another core from now on. Nothing else changes.
    pub fn serve(&mut self, core: u32)
        requires { core < self.old.setup.cores }
        ensures serves { self.new ≡ record self.old { core = core } }
        ensures in_step { AreInStep self.new }
    {
        self.core = core;
    }
}

impl<'s> Ports for PlainBoxes<'s> {
    ghost use Rattle.parcel.specs.PlainBoxesView.{Keeps, WasFull, WasEmpty, posted_to, taken_from};
    ghost use Rattle.parcel.specs.PlainBoxesLaws as laws;

    ghost setup = { λ b. b.setup };

    ghost core = { λ b. b.core };

    ghost posted = { posted_to };

    ghost taken = { taken_from };

    ghost keeps = { Keeps };

    ghost busy = { WasFull };

    ghost empty = { WasEmpty };

    ghost keeps_refl = { laws.keeps_refl };

    ghost keeps_trans = { laws.keeps_trans };

    ghost keeps_setup = { λ p q kept. kept.setup };

    ghost keeps_core = { λ p q kept. kept.core };

    ghost keeps_posted = { λ p q j kept. kept.posts j };

    ghost keeps_taken = { λ p q j kept. kept.takes j };

    /// Posts the next parcel, where the box to that core is empty. Exactly where it is full the answer is `Busy`.
    fn try_post(&mut self, to: u32, parcel: Parcel) -> Result<(), Busy>
        requires known { to < self.old.setup.cores }
        requires other { to ≢ self.old.core }
        requires room { posted_to self.old to ≤ window_count self.old.setup }
        requires parcel { IsParcel self.old.setup self.old.core to (posted_to self.old to) parcel }
        ensures keeps { Keeps self.old self.new }
        ensures same_setup { self.new.setup ≡ self.old.setup }
        ensures same_core { self.new.core ≡ self.old.core }
        ensures ok { OnOk result (posted_to self.new to ≡ posted_to self.old to + 1) }
        ensures err { OnErr result (posted_to self.new to ≡ posted_to self.old to) }
        ensures others { (j : ℕ) → j ≢ to → posted_to self.new j ≡ posted_to self.old j }
        ensures taken { (j : ℕ) → taken_from self.new j ≡ taken_from self.old j }
        ensures busy { OnErr result (HasParcel (box_at self.old self.old.core to)) }
        ensures parcel { IfErr result (λ busy. busy.parcel ≡ parcel) }
        ensures posted_before { OnErr result (0 < posted_to self.old to) }
        ensures seen { IfErr result (λ busy. (busy.seen ≡ 4 * (posted_to self.old to - 1) + 2)
            ⊎ (busy.seen ≡ 4 * (posted_to self.old to - 1) + 3)) }

        // Of these boxes it is known, too: it is posted where the box is empty, and all the state is told.
        ensures free { OnOk result (HasNoParcel (box_at self.old self.old.core to)) }
        ensures same { OnErr result (self.new ≡ self.old) }
        ensures word { IfErr result (λ busy. busy.seen ≡ 4 * (box_at self.old self.old.core to).taken + 2) }
    {
        let place = place_of(self.core, to);
        let a_box = &mut self.boxes[place];
        if a_box.parcel.is_some() {
            return Err(Busy {
                parcel,
                seen: 4 * a_box.taken + 2,
            });
        }
        a_box.parcel = Some(parcel);
        Ok(())
    }

    /// Takes the next parcel, where the box from that core is full. Exactly where it is empty the answer is `Empty`.
    fn try_take(&mut self, from: u32) -> Result<Parcel, Empty>
        requires known { from < self.old.setup.cores }
        requires other { from ≢ self.old.core }
        requires room { taken_from self.old from ≤ window_count self.old.setup }
        ensures keeps { Keeps self.old self.new }
        ensures same_setup { self.new.setup ≡ self.old.setup }
        ensures same_core { self.new.core ≡ self.old.core }
        ensures parcel { IfOk result (IsParcel self.old.setup from self.old.core (taken_from self.old from)) }
        ensures ok { OnOk result (taken_from self.new from ≡ taken_from self.old from + 1) }
        ensures err { OnErr result (taken_from self.new from ≡ taken_from self.old from) }
        ensures others { (j : ℕ) → j ≢ from → taken_from self.new j ≡ taken_from self.old j }
        ensures posted { (j : ℕ) → posted_to self.new j ≡ posted_to self.old j }
        ensures empty { OnErr result (HasNoParcel (box_at self.old from self.old.core)) }
        ensures seen { IfErr result (λ empty. empty.seen < 4 * taken_from self.old from + 2) }

        // Of these boxes it is known, too: it is taken where the box is full, and all the state is told.
        ensures full { OnOk result (HasParcel (box_at self.old from self.old.core)) }
        ensures same { OnErr result (self.new ≡ self.old) }
        ensures word { IfErr result (λ empty. empty.seen ≡ 4 * taken_from self.old from) }
    {
        let place = place_of(from, self.core);
        let a_box = &mut self.boxes[place];
        let Some(parcel) = a_box.parcel.take() else {
            return Err(Empty {
                seen: 4 * a_box.taken,
            });
        };
        a_box.taken += 1;
        Ok(parcel)
    }
}
