//! Laws of the definitions. Each computes nothing: its clause is the law.

ghost use Rattle.pcapng_in.specs.Laws.{OneReading, NeverBoth, OneFault, EachTextIsAnswered, SaysTheSameAsPcap};

/// A file says one trace at most, though several files may say it.
pub fn one_reading()
    ensures { OneReading }
{}

/// A file that says a trace has no first fault.
pub fn never_both()
    ensures { NeverBoth }
{}

/// A file has one first fault at most.
pub fn one_fault()
    ensures { OneFault }
{}

/// Each file says a trace or has a first fault, so it says a trace if and only if it has no fault.
pub fn each_text_is_answered()
    ensures { EachTextIsAnswered }
{}

/// What `write_pcap` writes of the trace of a pcapng file is read to that trace. So whatever is made of the trace that a
/// file says is the same for the pcapng file and for its classic copy.
pub fn says_the_same_as_pcap()
    ensures { SaysTheSameAsPcap }
{}
