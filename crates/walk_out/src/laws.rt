//! What follows from the definitions alone. These functions compute nothing.
ghost use Rattle.walk_out.specs.Laws.{IsWalkInWithoutCore};

/// Where the core is empty, walk-out keeps what walk-in keeps, and has its border.
pub fn without_a_core_it_is_walk_in()
    ensures { IsWalkInWithoutCore }
{}
