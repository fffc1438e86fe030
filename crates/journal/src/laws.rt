//! What holds of every setup. A law computes nothing: its clause is the fact.

ghost use Rattle.journal.specs.IsJournal.{IsJournal};
ghost use Rattle.journal.specs.Journal.{journal_of};
ghost use Rattle.journal.specs.Laws.{HasOneJournal, VisitsRise, HopsDiffer, HopsAreLater, WaysEnd, FatesHold, VisitsAreFew, TimesFit, OutputsFit, UsualDelaysFit, HopsWait, GrowsToJournal, CoresDoNotMatter, ArrivalBlind};

use crate::Setup;

/// Two lists that are a journal of the setup are equal.
pub fn journal_unique(setup: &Setup)
    ensures { HasOneJournal setup.now }
{
    let _parts = setup.parts();
}

/// The list that is grown by the least visit that is due, again and again, is a journal of the setup.
pub fn journal_meets(setup: &Setup)
    ensures { IsJournal setup.now (journal_of setup.now) }
{
    let _parts = setup.parts();
}

/// The journal rises strictly by tick, then by packet number.
pub fn visits_rise(setup: &Setup)
    ensures { VisitsRise setup.now }
{
    let _parts = setup.parts();
}

/// No packet visits a hop of its route twice.
pub fn hops_differ(setup: &Setup)
    ensures { HopsDiffer setup.now }
{
    let _parts = setup.parts();
}

/// A later hop of a packet stands at a later tick.
pub fn hops_are_later(setup: &Setup)
    ensures { HopsAreLater setup.now }
{
    let _parts = setup.parts();
}

/// The next hop of a packet is later by at least the latency that the pipe has at the tick of the visit.
pub fn hops_wait(setup: &Setup)
    ensures { HopsWait setup.now }
{
    let _parts = setup.parts();
}

/// A list that grows into the journal, visit by visit, is a front of it.
pub fn grows_to_journal(setup: &Setup)
    ensures { GrowsToJournal setup.now }
{
    let _parts = setup.parts();
}

/// Each packet with a nonempty route has exactly one visit that ends its way.
pub fn ways_end(setup: &Setup)
    ensures { WaysEnd setup.now }
{
    let _parts = setup.parts();
}

/// A packet with an empty route leaves at its entry tick; the fate of any other is read off the visit that ends its way.
pub fn fates_hold(setup: &Setup)
    ensures { FatesHold setup.now }
{
    let _parts = setup.parts();
}

/// There are at most as many visits as the lengths of the packets' routes add up to, each packet counted by itself.
pub fn visits_are_few(setup: &Setup)
    ensures { VisitsAreFew setup.now }
{
    let _parts = setup.parts();
}

/// Every time since the base in the journal is below `TIME_NS_END`, which is 2^62 ns.
pub fn times_fit(setup: &Setup)
    ensures { TimesFit setup.now }
{
    let _parts = setup.parts();
}

/// A packet that leaves does so at a time below 2^32 s.
pub fn outputs_fit(setup: &Setup)
    ensures { OutputsFit setup.now }
{
    let _parts = setup.parts();
}

/// Setups that differ in cores, owners and entry cores alone have one journal and the same fates.
pub fn cores_do_not_matter()
    ensures { CoresDoNotMatter }
{}

/// By arrival, lists of visits to one pipe with equal ticks and lengths have equal steps, whatever the numbers of their packets
/// are.
pub fn arrival_blind()
    ensures { ArrivalBlind }
{}

/// Pipes whose latency in ticks is that of their microseconds meet the condition of a setup on delays, on each route of at most
/// 255 of them.
pub fn usual_delays_fit()
    ensures { UsualDelaysFit }
{}
