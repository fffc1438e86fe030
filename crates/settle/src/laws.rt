//! What holds of the definitions. These functions compute nothing: their clauses are the facts.
ghost use Rattle.settle.specs.Laws.{OutcomesAgree, PacketsAreCounted, OutcomesReadNoCore};

/// A setup, the list of its visits and the bytes of its packets have one outcome.
pub fn one_outcome()
    ensures { OutcomesAgree }
{}

/// The packets that left and those that were dropped are together as many as the setup has.
pub fn packets_are_counted()
    ensures { PacketsAreCounted }
{}

/// What leaves, what is dropped and what pipes did depend on no core: setups that differ in cores, owners and entry cores alone
/// have one outcome.
pub fn outcomes_read_no_core()
    ensures { OutcomesReadNoCore }
{}
