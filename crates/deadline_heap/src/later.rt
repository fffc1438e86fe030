ghost use Rattle.std.specs.Prelude.{◌≡◌, ◌∷◌, [], MatchOption, OnOk, OnErr, slice_get};
ghost use Rattle.deadline_heap.specs.Canonical.{placed, HasNoneOf};

use mn_base::{Due, NoMemory};
use std::alloc::Global;
use std::collections::BTreeMap;
use std::marker::Model;

/// The visits that had no slot in the wheel when they were inserted, in canonical order.
#[derive(Drop)]
pub(crate) struct Later {
    hops: BTreeMap<(u64, u32), u32>,
}

impl Model for Later {
    ghost use Rattle.std.specs.Prelude.{List};
    ghost use Rattle.mn_base.specs.declared.due.Due.{Due};

    ghost Value = { List Due };

    ghost use Rattle.deadline_heap.specs.Entries.{visits_of_entries};

    ghost view = { λ l. visits_of_entries l.hops.entries };
}

impl Later {
    pub(crate) fn new(alloc: Global) -> Later
        ensures { result ≡ [] }
    {
        Later {
            hops: BTreeMap::new(alloc),
        }
    }

    pub(crate) fn first(&self) -> Option<Due>
        ensures { result ≡ slice_get self.now 0 }
    {
        let ((tick, packet), hop) = self.hops.first_key_value()?;
        Some(Due {
            tick: *tick,
            packet: *packet,
            hop: *hop,
        })
    }

    /// Takes the first out.
    pub(crate) fn pop(&mut self) -> Option<Due>
        ensures { MatchOption result (self.old ≡ []) (λ due. self.old ≡ due ∷ self.new) }
    {
        let ((tick, packet), hop) = self.hops.pop_first()?;
        Some(Due { tick, packet, hop })
    }

    /// Puts in a visit of a packet that isn't there.
    pub(crate) fn insert(&mut self, due: Due) -> Result<(), NoMemory>
        requires { HasNoneOf due.packet self.old }
        ensures ok { OnOk result (self.new ≡ placed due self.old) }
        ensures err { OnErr result (self.new ≡ self.old) }
    {
        self.hops.insert((due.tick, due.packet), due.hop)?;
        Ok(())
    }
}
