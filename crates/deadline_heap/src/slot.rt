ghost use Rattle.std.specs.Prelude.{◌≡◌, ◌∷◌, [], ◌==◌, length, MatchOption, OnOk, OnErr, slice_get};
ghost use Rattle.deadline_heap.specs.Entries.{entered, HasNoEntry};

use mn_base::NoMemory;
use std::alloc::Global;
use std::collections::BTreeMap;
use std::marker::Model;

/// The visits of one tick, as pairs of packet and hop, by packet.
#[derive(Drop)]
pub(crate) struct Slot {
    hops: BTreeMap<u32, u32>,
}

impl Model for Slot {
    ghost use Rattle.std.specs.Prelude.{List, ℕ};

    ghost Value = { List (ℕ × ℕ) };

    ghost view = { λ s. s.hops.entries };
}

impl Slot {
    pub(crate) fn new(alloc: Global) -> Slot
        ensures { result ≡ [] }
    {
        Slot {
            hops: BTreeMap::new(alloc),
        }
    }

    pub(crate) fn is_empty(&self) -> bool
        ensures { result ≡ (length self.now == 0) }
    {
        self.hops.is_empty()
    }

    /// The pair of the least packet.
    pub(crate) fn first(&self) -> Option<(u32, u32)>
        ensures { result ≡ slice_get self.now 0 }
    {
        let (packet, hop) = self.hops.first_key_value()?;
        Some((*packet, *hop))
    }

    /// Takes the pair of the least packet out.
    pub(crate) fn pop(&mut self) -> Option<(u32, u32)>
        ensures { MatchOption result (self.old ≡ []) (λ entry. self.old ≡ entry ∷ self.new) }
    {
        self.hops.pop_first()
    }

    /// Puts in a packet that isn't there.
    pub(crate) fn put(&mut self, packet: u32, hop: u32) -> Result<(), NoMemory>
        requires { HasNoEntry packet self.old }
        ensures ok { OnOk result (self.new ≡ entered (packet, hop) self.old) }
        ensures err { OnErr result (self.new ≡ self.old) }
    {
        self.hops.insert(packet, hop)?;
        Ok(())
    }
}
