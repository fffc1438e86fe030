use changes::ChangesFault;
use ownership::AssignFault;

/// Why an input has no plan.
#[derive(Clone, Copy, Debug, PartialEq, Eq)]
pub enum PlanFault {
    /// The distilled topology has so many pipes, more than `PIPES_MAX`.
    TooManyPipes(u64),
    /// The directory text is one of the second version, and has this fault in its head or its changes.
    Changes(ChangesFault),
    /// The directory text has this fault in its owners; those of the second version are read as a text of the first.
    Assign(AssignFault),
}
