ghost use Rattle.std.specs.Prelude.{◌≡◌};
ghost use Rattle.modelnet.specs.TheCommands.{usual_limits};

use mn_base::limits::{
    DIRECTORY_BYTES_MAX, JOURNAL_BYTES_MAX, TOPOLOGY_BYTES_MAX, TRACE_BYTES_MAX,
};

/// The most bytes that are read of each role.
#[derive(Clone, Copy)]
pub struct ReadLimits {
    pub topology: usize,
    pub trace: usize,
    pub directory: usize,
    pub journal: usize,
}

/// The limits of the program.
pub fn usual_limits() -> ReadLimits
    ensures { result ≡ usual_limits }
{
    ReadLimits {
        topology: TOPOLOGY_BYTES_MAX,
        trace: TRACE_BYTES_MAX,
        directory: DIRECTORY_BYTES_MAX,
        journal: JOURNAL_BYTES_MAX,
    }
}
