/// What is wrong with a directory text of the second version, first the earliest. Lines are numbered from 1.
#[derive(Clone, Copy, Debug, PartialEq, Eq)]
pub enum ChangesFault {
    /// Line 1 isn't the head line with the cores and pipes of the run and at most `CHANGES_MAX` changes.
    Head,
    /// There are more or fewer lines than the head line says.
    Count,
    /// This line isn't the line of a change, or it names a pipe that there isn't.
    Line(u32),
    /// This line has a number out of its range.
    Range(u32),
    /// This line doesn't come after the line before it, by tick and then by pipe.
    Order(u32),
}
