//! What holds of the definitions. A law computes nothing: its clause is the fact.

ghost use Rattle.changes.specs.Laws.{EachTextIsAnswered, NeverBoth, OneReading, OneFault};

/// Each text says something or has a first fault.
pub fn each_text_is_answered()
    ensures { EachTextIsAnswered }
{}

/// A text that says something has no fault.
pub fn never_both()
    ensures { NeverBoth }
{}

/// A text says one thing at most.
pub fn one_reading()
    ensures { OneReading }
{}

/// A text has one first fault at most.
pub fn one_fault()
    ensures { OneFault }
{}
