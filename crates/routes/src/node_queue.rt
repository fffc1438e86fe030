ghost use Rattle.std.specs.Prelude.{◌≡◌, ◌≢◌, ◌⊎◌, ◌↔◌, ◌<◌, ◌≤◌, List, [], OnOk, IfSome, IfNone};
ghost use Rattle.mn_base.specs.Among.{Among};
ghost use Rattle.routes.specs.NodeQueue.{Entry, IsUpTo};

use mn_base::NoMemory;
use std::alloc::Global;
use std::collections::BTreeSet;
use std::marker::Model;

/// The nodes that are still to be settled, each as its weight, its number of arcs and its own number.
#[derive(Drop)]
pub(crate) struct NodeQueue {
    entries: BTreeSet<(u64, u32, u32)>,
}

impl Model for NodeQueue {
    ghost use Rattle.std.specs.Prelude.{ℕ, List};

    ghost Value = { List (ℕ × ℕ × ℕ) };

    ghost view = { λ q. q.entries.keys };
}

impl NodeQueue {
    pub(crate) fn new(alloc: Global) -> NodeQueue
        ensures { result ≡ [] }
    {
        NodeQueue {
            entries: BTreeSet::new(alloc),
        }
    }

    pub(crate) fn push(&mut self, entry: (u64, u32, u32)) -> Result<(), NoMemory>
        ensures { OnOk result ((k : Entry) → Among k self.new ↔ ((entry ≡ k) ⊎ Among k self.old)) }
    {
        self.entries.insert(entry)?;
        Ok(())
    }

    pub(crate) fn remove(&mut self, entry: (u64, u32, u32))
        ensures { (k : Entry) → Among k self.new ↔ (Among k self.old × (k ≢ entry)) }
    {
        let _ = self.entries.remove(&entry);
    }

    /// Takes an entry of the least weight, and of the least number of arcs among those.
    pub(crate) fn pop(&mut self) -> Option<(u64, u32, u32)>
        ensures there { IfSome result (λ first. Among first self.old) }
        ensures rest { IfSome result (λ first. (k : Entry) → Among k self.new ↔ (Among k self.old × (k ≢ first))) }
        ensures least { IfSome result (λ first. (k : Entry) → Among k self.old → IsUpTo first k) }
        ensures none { IfNone result (self.old ≡ []) }
    {
        self.entries.pop_first()
    }
}
