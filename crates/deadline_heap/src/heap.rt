ghost use Rattle.std.specs.Prelude.{◌≡◌, ◌≢◌, ◌⊎◌, ◌∷◌, ◌<◌, ◌≤◌, ◌↔◌, [], IfOk, IfSome, IfNone, MatchOption, OnOk, OnErr, option_map, slice_get};
ghost use Rattle.mn_base.specs.Among.{Among};
ghost use Rattle.mn_base.specs.declared.due.Due.{Due};
ghost use Rattle.mn_base.specs.Canonical.{Before};
ghost use Rattle.deadline_heap.specs.Canonical.{placed, HasNoneOf, IsCanonical};
ghost use Rattle.deadline_heap.specs.HeapParts.{LeadsBoth};

use crate::later::Later;
use crate::wheel::Wheel;
use mn_base::{Due, NoMemory};
use std::alloc::Global;
use std::marker::Model;

/// The visits that are due, of each packet one at most, which contracts see as a list in canonical order.
#[derive(Drop)]
pub struct Heap {
    wheel: Wheel,
    /// What the wheel had no slot for when it was inserted. It stays here until it is taken out.
    later: Later,
}

impl Model for Heap {
    ghost use Rattle.std.specs.Prelude.{List};
    ghost use Rattle.mn_base.specs.declared.due.Due.{Due};
    ghost use Rattle.deadline_heap.specs.HeapParts.{merged, AreApart};

    ghost Value = { List Due };

    ghost view = { λ h. merged h.wheel.visits h.later };

    ghost invariant = { λ h. AreApart h.wheel.visits h.later };
}

/// The first visit of both parts, and whether it is the wheel's.
#[derive(Clone, Copy)]
pub(crate) struct Lead {
    pub due: Due,
    pub is_near: bool,
}

/// The earlier of two visits.
fn leading(near: Option<Due>, far: Option<Due>) -> Option<Lead>
    ensures { LeadsBoth near far result }
{
    match (near, far) {
        (Some(near), Some(far)) => {
            if (near.tick, near.packet) < (far.tick, far.packet) {
                Some(Lead {
                    due: near,
                    is_near: true,
                })
            } else {
                Some(Lead {
                    due: far,
                    is_near: false,
                })
            }
        }
        (Some(near), None) => Some(Lead {
            due: near,
            is_near: true,
        }),
        (None, Some(far)) => Some(Lead {
            due: far,
            is_near: false,
        }),
        (None, None) => None,
    }
}

impl Heap {
    /// Nothing is due.
    pub fn new(alloc: Global) -> Result<Heap, NoMemory>
        ensures { IfOk result (λ heap. heap ≡ []) }
    {
        Ok(Heap {
            wheel: Wheel::new(alloc)?,
            later: Later::new(alloc),
        })
    }

    /// Puts in a visit of a packet that isn't there.
    pub fn insert(&mut self, due: Due) -> Result<(), NoMemory>
        requires { HasNoneOf due.packet self.old }
        ensures placed { OnOk result (self.new ≡ placed due self.old) }
        ensures members { OnOk result ((other : Due) → Among other self.new ↔ ((due ≡ other) ⊎ Among other self.old)) }
        ensures err { OnErr result (self.new ≡ self.old) }
    {
        if self.wheel.covers(due.tick) {
            self.wheel.insert(due)
        } else {
            self.later.insert(due)
        }
    }

    /// Takes the first visit out, where one is due before `limit`.
    pub fn pop_before(&mut self, limit: u64) -> Option<Due>
        ensures none { IfNone result ((self.new ≡ self.old) × ((other : Due) → Among other self.old → limit ≤ other.tick)) }
        ensures first { IfSome result (λ due. (self.old ≡ due ∷ self.new) × (due.tick < limit)) }
        ensures canonical { IsCanonical self.old }
    {
        let lead = leading(self.wheel.first(), self.later.first())?;
        if lead.due.tick >= limit {
            return None;
        }
        if lead.is_near {
            self.wheel.pop()
        } else {
            self.wheel.rise(lead.due.tick);
            self.later.pop()
        }
    }

    /// The tick of the first visit.
    pub fn least(&self) -> Option<u64>
        ensures first { result ≡ option_map (λ due. due.tick) (slice_get self.now 0) }
        ensures least { IfSome result (λ tick. (other : Due) → Among other self.now → tick ≤ other.tick) }
        ensures canonical { IsCanonical self.now }
    {
        let lead = leading(self.wheel.first(), self.later.first())?;
        Some(lead.due.tick)
    }
}
