//! What holds of the definitions. A law computes nothing: its clause is the fact.

ghost use Rattle.plan.specs.Laws.{NeverBoth, OneFault, OnePlan};

/// An input with a plan has no fault.
pub fn never_both()
    ensures { NeverBoth }
{}

/// An input has one first fault at most.
pub fn one_fault()
    ensures { OneFault }
{}

/// An input has one plan at most.
pub fn one_plan()
    ensures { OnePlan }
{}
