//! Laws of the definitions. Each computes nothing: its clause is the law.

ghost use Rattle.pcap_io.specs.Laws.{ReadsBack, OneReading, NeverBoth, OneFault, EachTextIsAnswered};

/// What `write_pcap` writes of a trace reads to that trace, if no second is above `RECORD_SECONDS_MAX`.
pub fn written_reads_back()
    ensures { ReadsBack }
{}

/// A file says one trace at most, though several files may say it.
pub fn one_reading()
    ensures { OneReading }
{}

/// A file that says a trace has no first fault.
pub fn never_both()
    ensures { NeverBoth }
{}

/// A file has one first fault at most.
pub fn one_fault()
    ensures { OneFault }
{}

/// Each file says a trace or has a first fault, so it says a trace if and only if it has no fault.
pub fn each_text_is_answered()
    ensures { EachTextIsAnswered }
{}
