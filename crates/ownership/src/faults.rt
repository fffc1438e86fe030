use thiserror::Error;

/// What is wrong with a directory text, first the earliest. Lines are numbered from 1, pipes from 0.
#[derive(Clone, Copy, Debug, PartialEq, Eq, Error)]
pub enum AssignFault {
    /// Line 1 isn't the head line with the cores and the pipes of the run.
    #[error("bad head")]
    Head,
    /// This line isn't of the form `pipe Q core C`, or it names a pipe that there isn't.
    #[error("bad line {0}")]
    Line(u32),
    /// This line names a core that there isn't.
    #[error("bad core in line {0}")]
    Core(u32),
    /// This line names a pipe that an earlier line names.
    #[error("second owner in line {0}")]
    Twice(u32),
    /// No line names this pipe, the least of which that is so.
    #[error("no owner of pipe {0}")]
    Missing(u32),
}
