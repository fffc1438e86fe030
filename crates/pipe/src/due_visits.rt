ghost use Rattle.std.specs.Prelude.{◌≡◌, ◌⊎◌, ◌↔◌, ◌<◌, [], AllPairs, IfNone, IfSome, OnOk, OnErr};
ghost use Rattle.mn_base.specs.Among.{Among};
ghost use Rattle.pipe.specs.declared.due_visits.DueVisit.{DueVisit};
ghost use Rattle.pipe.specs.VisitEntries.{due_from_entry, comes_first, early_of};
ghost use Rattle.pipe.specs.HeldVisits.{HasNone, TakesVisit};

use mn_base::{Due, NoMemory};
use std::alloc::Global;
use std::cmp::Reverse;
use std::collections::BinaryHeap;
use std::marker::Model;

/// A due visit, and where its packet stands.
#[derive(Clone, Copy, Debug, PartialEq, Eq)]
pub struct DueVisit {
    /// When the packet comes to which hop, in ticks.
    pub due: Due,
    /// The index of the packet among those that its maker was given, by which it is found without a search.
    pub index: u32,
}

/// A due visit as it is ordered: tick and packet, then hop and index.
type HeapEntry = ((u64, u32), (u32, u32));

/// The due visits that aren't made yet, taken out in canonical order: by tick, then by packet number. Of each packet there is
/// one at most.
///
/// The first visits of packets are sorted once and taken one after the other. Beside them stands a heap of the later ones,
/// which holds the packets that are on their way: it stays small where a trace is long.
///
/// Of first visits of packets 1 and 2 at ticks 5 and 3, packet 2's comes first. If packet 2 is then due at its next hop at
/// tick 5, packet 1's comes before it.
#[derive(Drop)]
pub struct DueVisits {
    firsts: Vec<DueVisit>,
    next: usize,
    laters: BinaryHeap<Reverse<HeapEntry>>,
}

impl Model for DueVisits {
    ghost use Rattle.std.specs.Prelude.{List};
    ghost use Rattle.pipe.specs.declared.due_visits.DueVisit.{DueVisit};

    ghost Value = { List DueVisit };

    ghost use Rattle.pipe.specs.VisitEntries.{held_visits, AreOrdered};

    ghost view = { held_visits };

    ghost invariant = { AreOrdered };
}

impl DueVisits {
    /// These first visits, whose packets' numbers rise. They are sorted where they stand, and no memory is asked for.
    pub fn of_firsts(alloc: Global, mut firsts: Vec<DueVisit>) -> DueVisits
        requires { AllPairs (λ v w. v.due.packet < w.due.packet) firsts.items }
        ensures { (w : DueVisit) → Among w result ↔ Among w firsts.items }
    {
        firsts.sort_unstable_by_key(|first| (first.due.tick, first.due.packet));
        DueVisits {
            firsts,
            next: 0,
            laters: BinaryHeap::new(alloc),
        }
    }

    /// Takes out the first in canonical order, none where nothing is held.
    pub fn pop(&mut self) -> Option<DueVisit>
        ensures none { IfNone result (self.old ≡ []) }
        ensures kept { IfNone result (self.new ≡ self.old) }
        ensures first { IfSome result (λ first. TakesVisit self.old first self.new) }
    {
        let first = self.firsts.get(self.next).copied();
        let later = self.laters.peek().copied();
        if let Some(first) = early(first, later) {
            self.next += 1;
            return Some(first);
        }
        let Reverse(entry) = self.laters.pop()?;
        Some(visit_of_entry(entry))
    }

    /// Puts in a visit of a packet of which there is none. `NoMemory` says that the heap couldn't grow, and leaves what is
    /// held as it was.
    pub fn add(&mut self, next: DueVisit) -> Result<(), NoMemory>
        requires { HasNone self.old next.due.packet }
        ensures added { OnOk result ((w : DueVisit) → Among w self.new ↔ ((next ≡ w) ⊎ Among w self.old)) }
        ensures err { OnErr result (self.new ≡ self.old) }
    {
        let Due { tick, packet, hop } = next.due;
        self.laters
            .push(Reverse(((tick, packet), (hop, next.index))))?;
        Ok(())
    }
}

fn visit_of_entry(entry: HeapEntry) -> DueVisit
    ensures { result ≡ due_from_entry entry }
{
    let ((tick, packet), (hop, index)) = entry;
    DueVisit {
        due: Due { tick, packet, hop },
        index,
    }
}

/// The next first visit, if it is made before the least of the later ones.
fn early(first: Option<DueVisit>, later: Option<Reverse<HeapEntry>>) -> Option<DueVisit>
    ensures { result ≡ early_of first later }
{
    let first = first?;
    if comes_first(first, later) {
        Some(first)
    } else {
        None
    }
}

/// Whether a first visit is made before the least of the later ones, if there is any.
fn comes_first(first: DueVisit, later: Option<Reverse<HeapEntry>>) -> bool
    ensures { result ≡ comes_first first later }
{
    let Some(Reverse(((tick, packet), _))) = later else {
        return true;
    };
    !(tick < first.due.tick || tick == first.due.tick && packet < first.due.packet)
}
