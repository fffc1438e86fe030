//! What holds of every setup's windows and parcels. A law computes nothing: its clause is the fact.

ghost use Rattle.parcel.specs.Lookahead.{lookahead_of, IsLookahead};
ghost use Rattle.parcel.specs.Laws.{WindowsHold, WindowsAreFew, LookaheadHolds, LeastHolds, NotesDiffer, ParcelsAreOne};

use journal::Setup;

/// The lookahead is the least latency, over first parameters and all changes, of a pipe that the route of some packet leaves for
/// a pipe of another core; it is `LOOKAHEAD_MAX` where there is no such pipe.
pub fn lookahead_is_least(setup: &Setup)
    ensures { IsLookahead setup.now (lookahead_of setup.now) }
{
    let _parts = setup.parts();
}

/// The first window starts at the least tick of all visits, and each other at the least tick at the end of the one before it or
/// later; each visit is in exactly one window, and each window has a visit.
pub fn windows_hold(setup: &Setup)
    ensures { WindowsHold setup.now }
{
    let _parts = setup.parts();
}

/// There are no more windows than visits, and fewer than 2^28 of both.
pub fn windows_are_few(setup: &Setup)
    ensures { WindowsAreFew setup.now }
{
    let _parts = setup.parts();
}

/// A visit of another core than its predecessor's is in no window before the parcel that tells of it.
pub fn lookahead_holds(setup: &Setup)
    ensures { LookaheadHolds setup.now }
{
    let _parts = setup.parts();
}

/// Each visit in sight is known to exactly one core; the least of the cores' least ticks starts the next window, and none has
/// one exactly where all windows are run.
pub fn least_holds(setup: &Setup)
    ensures { LeastHolds setup.now }
{
    let _parts = setup.parts();
}

/// A packet has at most one note in a parcel, so no two notes are at one place of the canonical order.
pub fn notes_differ(setup: &Setup)
    ensures { NotesDiffer setup.now }
{
    let _parts = setup.parts();
}

/// There is at most one parcel of each number from one core to another.
pub fn parcels_are_one(setup: &Setup)
    ensures { ParcelsAreOne setup.now }
{
    let _parts = setup.parts();
}
