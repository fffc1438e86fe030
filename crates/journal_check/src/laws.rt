//! What holds of the definitions. A law computes nothing: its clause is the fact.

ghost use Rattle.journal_check.specs.Laws.{EachTextIsAnswered, NeverBoth, OneFault};

/// Each text is that of the visits, or it has a first fault.
pub fn each_text_is_answered()
    ensures { EachTextIsAnswered }
{}

/// The text of the visits has no fault.
pub fn never_both()
    ensures { NeverBoth }
{}

/// A text has one first fault at most.
pub fn one_fault()
    ensures { OneFault }
{}
