//! What holds of the two outputs. A law computes nothing: its clause is the fact.
ghost use Rattle.report.specs.Laws.{OutputsReadNoCore};

/// The output trace and the report depend on no core: setups that differ in cores, owners and entry cores alone have the same.
pub fn outputs_read_no_core()
    ensures { OutputsReadNoCore }
{}
