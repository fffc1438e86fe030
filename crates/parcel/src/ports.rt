ghost use Rattle.std.specs.Prelude.{◌≡◌, ◌≢◌, ◌⊎◌, ℕ, ◌+◌, ◌-◌, ◌*◌, ◌<◌, ◌≤◌, OnOk, OnErr, IfOk, IfErr};
ghost use Rattle.journal.specs.SetupView.{SetupView};
ghost use Rattle.parcel.specs.Windows.{window_count};
ghost use Rattle.parcel.specs.Parcels.{IsParcel};

use crate::parcel::Parcel;

/// The box to that core isn't free: the parcel comes back, with the gate word that was read.
#[derive(Drop)]
pub struct Busy {
    pub parcel: Parcel,
    pub seen: u64,
}

/// No parcel of that core is there yet: the gate word that was read.
#[derive(Clone, Copy, Debug, PartialEq, Eq)]
pub struct Empty {
    pub seen: u64,
}

/// A core's ways to and from the other cores: a box for each way, which holds one parcel at most.
///
/// The parcels of each ordered pair of cores are numbered from 0. Each is posted once and taken once, in order. The gate word of a
/// pair is `4n` where its box is empty and parcel n is wanted, and `4n + 2` where parcel n is in it; while an end holds the box, it
/// is one more.
pub trait Ports {
    /// The setup whose parcels go through.
    ghost setup: { Self → SetupView };

    /// The core that is served.
    ghost core: { Self → ℕ };

    /// How many parcels this core has posted to another.
    ghost posted: { Self → ℕ → ℕ };

    /// How many parcels this core has taken from another.
    ghost taken: { Self → ℕ → ℕ };

    /// What holds between any two states of the ports while they serve this core.
    ghost keeps: { Self → Self → Type 0 };

    /// What holds between the states before and after a post to a core that found its box not free.
    ghost busy: { Self → ℕ → Self → Type 0 };

    /// What holds between the states before and after a take from a core that found no parcel.
    ghost empty: { Self → ℕ → Self → Type 0 };

    /// Posts the next parcel to another core, where its box is free. It waits for nothing and takes no memory.
    fn try_post(&mut self, to: u32, parcel: Parcel) -> Result<(), Busy>
        requires known { to < (setup self.old).cores }
        requires other { to ≢ core self.old }
        requires room { posted self.old to ≤ window_count (setup self.old) }
        requires parcel { IsParcel (setup self.old) (core self.old) to (posted self.old to) parcel }
        ensures keeps { keeps self.old self.new }
        ensures same_setup { setup self.new ≡ setup self.old }
        ensures same_core { core self.new ≡ core self.old }
        ensures ok { OnOk result (posted self.new to ≡ posted self.old to + 1) }
        ensures err { OnErr result (posted self.new to ≡ posted self.old to) }
        ensures others { (j : ℕ) → j ≢ to → posted self.new j ≡ posted self.old j }
        ensures taken { (j : ℕ) → taken self.new j ≡ taken self.old j }
        ensures busy { OnErr result (busy self.old to self.new) }
        ensures parcel { IfErr result (λ busy. busy.parcel ≡ parcel) }
        ensures posted_before { OnErr result (0 < posted self.old to) }
        ensures seen { IfErr result (λ busy. (busy.seen ≡ 4 * (posted self.old to - 1) + 2)
            ⊎ (busy.seen ≡ 4 * (posted self.old to - 1) + 3)) };

    /// Takes the next parcel of another core, where it is there. It waits for nothing and takes no memory.
    fn try_take(&mut self, from: u32) -> Result<Parcel, Empty>
        requires known { from < (setup self.old).cores }
        requires other { from ≢ core self.old }
        requires room { taken self.old from ≤ window_count (setup self.old) }
        ensures keeps { keeps self.old self.new }
        ensures same_setup { setup self.new ≡ setup self.old }
        ensures same_core { core self.new ≡ core self.old }
        ensures parcel { IfOk result (IsParcel (setup self.old) from (core self.old) (taken self.old from)) }
        ensures ok { OnOk result (taken self.new from ≡ taken self.old from + 1) }
        ensures err { OnErr result (taken self.new from ≡ taken self.old from) }
        ensures others { (j : ℕ) → j ≢ from → taken self.new j ≡ taken self.old j }
        ensures posted { (j : ℕ) → posted self.new j ≡ posted self.old j }
        ensures empty { OnErr result (empty self.old from self.new) }
        ensures seen { IfErr result (λ empty. empty.seen < 4 * taken self.old from + 2) };

    ghost keeps_refl: { (p : Self) → keeps p p };

    ghost keeps_trans: { (p q r : Self) → keeps p q → keeps q r → keeps p r };

    ghost keeps_setup: { (p q : Self) → keeps p q → setup q ≡ setup p };

    ghost keeps_core: { (p q : Self) → keeps p q → core q ≡ core p };

    ghost keeps_posted: { (p q : Self) (j : ℕ) → keeps p q → posted p j ≤ posted q j };

    ghost keeps_taken: { (p q : Self) (j : ℕ) → keeps p q → taken p j ≤ taken q j };
}
