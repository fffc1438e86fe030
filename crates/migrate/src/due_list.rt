ghost use Rattle.std.specs.Prelude.{◌≡◌, ◌≢◌, ◌⊎◌, All, AllPairs, ◌↔◌, ◌∷◌, ◌^◌, ◌-◌, ◌<◌, [], IfOk, IfSome, MatchOption, OnOk, slice_get};
ghost use Rattle.mn_base.specs.Among.{Among};
ghost use Rattle.mn_base.specs.declared.due.Due.{Due};
ghost use Rattle.mn_base.specs.Canonical.{is_before};
ghost use Rattle.deadline_heap.specs.Canonical.{HasNoneOf, IsCanonical};

use deadline_heap::Heap;
use mn_base::{Due, NoMemory};
use std::alloc::Global;
use std::marker::Model;
use std::mem;

/// The due visits of a core, in canonical order, of which the first is in sight.
#[derive(Drop)]
pub(crate) struct DueList {
    first: Option<Due>,
    /// Those after the first one.
    later: Heap,
}

impl Model for DueList {
    ghost use Rattle.std.specs.Prelude.{List};
    ghost use Rattle.mn_base.specs.declared.due.Due.{Due};

    ghost Value = { List Due };

    ghost use Rattle.std.specs.List.{cons_option};
    ghost use Rattle.migrate.specs.Inside.{AreInSight};

    ghost view = { λ d. cons_option d.first d.later };

    ghost invariant = { λ d. AreInSight d.first d.later };
}

impl DueList {
    /// Nothing is due.
    pub(crate) fn new(alloc: Global) -> Result<DueList, NoMemory>
        ensures { IfOk result (λ due. due ≡ []) }
    {
        Ok(DueList {
            first: None,
            later: Heap::new(alloc)?,
        })
    }

    /// The first one.
    pub(crate) fn first(&self) -> Option<Due>
        ensures first { result ≡ slice_get self.now 0 }
        ensures canonical { IsCanonical self.now }
    {
        self.first
    }

    /// Takes the first one out.
    pub(crate) fn pop(&mut self) -> Option<Due>
        ensures first { MatchOption result ((self.old ≡ []) × (self.new ≡ [])) (λ due. self.old ≡ due ∷ self.new) }
        ensures canonical { IsCanonical self.old }
        ensures tick { IfSome result (λ due. due.tick < 2 ^ 64 - 1) }
    {
        let next = self.later.pop_before(u64::MAX);
        mem::replace(&mut self.first, next)
    }

    /// Puts in a visit of a packet that isn't there.
    pub(crate) fn insert(&mut self, due: Due) -> Result<(), NoMemory>
        requires alone { HasNoneOf due.packet self.old }
        requires tick { due.tick < 2 ^ 64 - 1 }
        ensures members { OnOk result ((other : Due) → Among other self.new ↔ ((due ≡ other) ⊎ Among other self.old)) }
        ensures canonical { IsCanonical self.new }
    {
        match self.first {
            None => {
                self.first = Some(due);
                Ok(())
            }
            Some(first) if comes_before(due, first) => {
                self.later.insert(first)?;
                self.first = Some(due);
                Ok(())
            }
            Some(_) => {
                self.later.insert(due)?;
                Ok(())
            }
        }
    }

    /// Puts in visits of packets that aren't there, one of each.
    pub(crate) fn insert_all(&mut self, all: Vec<Due>) -> Result<(), NoMemory>
        requires alone { All (λ x. HasNoneOf x.packet self.old) all.items }
        requires apart { AllPairs (λ x y. x.packet ≢ y.packet) all.items }
        requires ticks { All (λ x. x.tick < 2 ^ 64 - 1) all.items }
        ensures members { OnOk result ((other : Due) → Among other self.new ↔ (Among other all.items ⊎ Among other self.old)) }
        ensures canonical { OnOk result (IsCanonical self.new) }
    {
        let _first = self.first();
        for due in all {
            self.insert(due)?;
        }
        Ok(())
    }
}

/// Whether a due visit is before another one, by tick and then by packet number.
pub(crate) fn comes_before(x: Due, y: Due) -> bool
    ensures { result ≡ is_before x y }
{
    x.tick < y.tick || x.tick == y.tick && x.packet < y.packet
}
