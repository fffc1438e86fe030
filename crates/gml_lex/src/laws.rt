//! Laws of the definitions. A law computes nothing; its clause is a fact.

ghost use Rattle.gml_lex.specs.Tokens.{EachTextIsAnswered, NeverBoth, OneFault, OneReading, SpansInOrder};

/// No text has both tokens and a fault.
pub fn never_both()
    ensures { NeverBoth }
{}

/// No text has two lists of tokens.
pub fn one_reading()
    ensures { OneReading }
{}

/// No text has two faults.
pub fn one_fault()
    ensures { OneFault }
{}

/// Each text has tokens or a fault; so it has tokens if and only if it has no fault.
pub fn each_text_is_answered()
    ensures { EachTextIsAnswered }
{}

/// The spans of a text's tokens stand in order, and no two share a byte.
pub fn spans_in_order()
    ensures { SpansInOrder }
{}
