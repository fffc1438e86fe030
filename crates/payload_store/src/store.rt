ghost use Rattle.std.specs.Prelude.{◌≡◌, ◌∷◌, ◌++◌, ◌↔◌, [], None, Some, IsSome, IsTrue, IfErr, OnOk};
ghost use Rattle.std.specs.FinMap as map;
ghost use Rattle.mn_base.specs.Among.{Among};
ghost use Rattle.payload_store.specs.StoreView.{ReleasesOnce};

use crate::payload::Payload;
use mn_base::{Bytes, NoMemory};
use std::alloc::Global;
use std::collections::HashMap;
use std::marker::Model;

/// The payloads of one core's packets, by packet number, and the packets whose payload was handed out, in order.
///
/// A look-up costs the same whatever is held, and the memory is in proportion to what was put: a hash map. `released` has
/// room for every packet that is held, so a release takes no memory.
#[derive(Drop)]
pub struct Store {
    payloads: HashMap<u32, Bytes>,
    released: Vec<u32>,
}

impl Model for Store {
    ghost use Rattle.std.specs.Prelude.{vec_len, vec_capacity};
    ghost use Rattle.std.specs.FinMap as map;
    ghost use Rattle.payload_store.specs.StoreView.{StoreView, IsStore, store_code};

    ghost Value = { StoreView };

    ghost coded = { store_code };

    ghost view = { λ s. record { held = map.from_entries s.payloads.entries; released = s.released.items } };

    ghost invariant = { λ s. IsStore s.payloads.entries s.released.items (vec_len s.released) (vec_capacity s.released) };
}

impl Store {
    /// Nothing is held and nothing was released.
    pub fn new(alloc: Global) -> Store
        ensures { result ≡ record { held = map.empty; released = [] } }
    {
        Store {
            payloads: HashMap::new(alloc),
            released: Vec::new(alloc),
        }
    }

    /// Takes a packet's bytes in, and makes the room that its release needs. Where memory is refused, the bytes come back.
    pub fn put(&mut self, packet: u32, bytes: Bytes) -> Result<(), (NoMemory, Bytes)>
        requires not_held { map.get self.old.held packet ≡ None }
        requires not_released { Among packet self.old.released → ⊥ }
        ensures held { OnOk result (self.new.held ≡ map.insert self.old.held packet bytes) }
        ensures released { self.new.released ≡ self.old.released }
        ensures err { IfErr result (λ refused. (refused.1 ≡ bytes) × (self.new ≡ self.old)) }
    {
        if self.released.reserve(self.payloads.len() + 1).is_err() {
            return Err((NoMemory, bytes));
        }
        match self.payloads.insert(packet, bytes) {
            Ok(_) => Ok(()),
            Err(refused) => Err((NoMemory, refused.value.1)),
        }
    }

    /// Hands a held packet's bytes out.
    pub fn release(&mut self, packet: u32) -> Payload
        requires { IsSome (map.get self.old.held packet) }
        ensures packet { result.packet ≡ packet }
        ensures bytes { map.get self.old.held packet ≡ Some result.bytes }
        ensures held { self.new.held ≡ map.remove self.old.held packet }
        ensures released { self.new.released ≡ self.old.released ++ packet ∷ [] }
    {
        match self.payloads.remove(&packet) {
            Some(bytes) => {
                self.released.push_reserved(packet);
                Payload::new(packet, bytes)
            }
            None => unreachable!(),
        }
    }

    /// How many packets are held.
    pub fn len(&self) -> usize
        ensures held { result ≡ map.len self.now.held }
        ensures once { ReleasesOnce self.now }
    {
        self.payloads.len()
    }

    /// Whether no packet is held.
    pub fn is_empty(&self) -> bool
        ensures { IsTrue result ↔ (map.len self.now.held ≡ 0) }
    {
        self.len() == 0
    }
}
