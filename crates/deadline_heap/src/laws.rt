//! What holds of every heap, and of the definitions. These functions compute nothing: their clauses are the facts.
ghost use Rattle.deadline_heap.specs.Canonical.{IsCanonical};
ghost use Rattle.deadline_heap.specs.Laws.{MembersNameTheList};

use crate::heap::Heap;

/// A heap is a list in canonical order, in which each packet has one visit at most.
pub fn heap_is_canonical(heap: &Heap)
    ensures { IsCanonical heap.now }
{
    let _least = heap.least();
}

/// Two lists in canonical order with the same members are one list.
pub fn members_name_the_list()
    ensures { MembersNameTheList }
{}
