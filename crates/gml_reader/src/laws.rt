//! Laws of the definitions. A law computes nothing; its clause is a fact.

ghost use Rattle.gml_reader.specs.Laws.{EachTextIsAnswered, NeverBoth, OneFault, OneReading};

/// Each text reads to a topology or has a first fault; so it reads to one if and only if it has no fault.
pub fn each_text_is_answered()
    ensures { EachTextIsAnswered }
{}

/// No text both reads to a topology and has a first fault.
pub fn never_both()
    ensures { NeverBoth }
{}

/// No text reads to two topologies.
pub fn one_reading()
    ensures { OneReading }
{}

/// No text has two first faults.
pub fn one_fault()
    ensures { OneFault }
{}
