//! What holds of the definitions. A law computes nothing: its clause is the fact.

ghost use Rattle.ownership.specs.Laws.{OneOwner, PrintedReadsBack, EachTextIsAnswered, NeverBoth, OneReading, OneFault};

/// The assignment gives each pipe one owner, below the number of cores.
pub fn one_owner()
    ensures { OneOwner }
{}

/// What is printed of a directory whose entry cores are those of its owners says that directory.
pub fn printed_reads_back()
    ensures { PrintedReadsBack }
{}

/// Each text says a directory or has a first fault.
pub fn each_text_is_answered()
    ensures { EachTextIsAnswered }
{}

/// A text that says a directory has no fault.
pub fn never_both()
    ensures { NeverBoth }
{}

/// A text says one directory at most.
pub fn one_reading()
    ensures { OneReading }
{}

/// A text has one first fault at most.
pub fn one_fault()
    ensures { OneFault }
{}
