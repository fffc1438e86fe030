ghost use Rattle.std.specs.Prelude.{◌≡◌, ◌∷◌, ◌++◌, [], IsSome, IfOk, IfErr, OnErr};
ghost use Rattle.std.specs.FinMap as map;
ghost use Rattle.parcel.specs.Results.{bytes_by_fate};
ghost use Rattle.core_loop.specs.Work.{Settling};

use journal::Fate;
use mn_base::{Bytes, NoMemory};
use parcel::Settled;
use payload_store::{Payload, Store};
use std::alloc::Global;
use std::marker::Model;

/// The packets that entered at a core: those that are settled, and the payloads of the others.
#[derive(Drop)]
pub(crate) struct Entrants {
    settled: Vec<Settled>,
    store: Store,
}

impl Model for Entrants {
    ghost use Rattle.core_loop.specs.Work.{EntrantsView};

    ghost Value = { EntrantsView };

    ghost use Rattle.std.specs.Coded.{codes, coded_ℕ, coded_list};
    ghost use Rattle.std.specs.FinMap as map;
    ghost use Rattle.std.specs.Ordering.{nat_cmp};

    ghost coded = { Prim.hlevel (codes, map.code {R = nat_cmp} coded_ℕ (coded_list coded_ℕ)) };

    ghost use Rattle.std.specs.Prelude.{vec_len, vec_capacity, ◌+◌, ◌≤◌};

    ghost view = { λ e. record { settled = e.settled.items; store = e.store } };

    ghost invariant = { λ e. vec_len e.settled + map.len e.store.held ≤ vec_capacity e.settled };
}

impl Entrants {
    /// None is settled yet. There is room to settle each packet whose payload is held.
    pub(crate) fn of_store(alloc: Global, store: Store) -> Result<Entrants, NoMemory>
        ensures { IfOk result (λ e. e ≡ record { settled = []; store = store }) }
    {
        let settled = Vec::with_capacity(alloc, store.len())?;
        Ok(Entrants { settled, store })
    }

    /// How many payloads are held.
    pub(crate) fn held(&self) -> usize
        ensures { result ≡ map.len self.now.store.held }
    {
        self.store.len()
    }

    /// Settles a packet whose payload is held. One that is dropped gives its payload up.
    pub(crate) fn settle(&mut self, packet: u32, fate: Fate)
        requires { IsSome (map.get self.old.store.held packet) }
        ensures { Settling self.old packet fate self.new }
    {
        let payload = self.store.release(packet);
        let bytes = spend(payload, fate);
        self.settled.push_reserved(Settled {
            packet,
            fate,
            bytes,
        });
    }

    /// Those that are settled, at the end.
    pub(crate) fn into_settled(self) -> Vec<Settled>
        ensures { result.items ≡ self.settled }
    {
        let Entrants { settled, store: _ } = self;
        settled
    }
}

/// Spends a payload: the bytes of a packet that left go with its fate, and those of a packet that was dropped are given up.
fn spend(payload: Payload, fate: Fate) -> Option<Bytes>
    ensures { result ≡ bytes_by_fate fate payload.bytes }
{
    match fate {
        Fate::Left { tick: _ } => Some(payload.into_bytes()),
        Fate::Dropped {
            pipe: _,
            tick: _,
            cause: _,
        } => {
            payload.discard();
            None
        }
    }
}
