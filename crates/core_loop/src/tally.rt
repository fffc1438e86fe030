ghost use Rattle.std.specs.Prelude.{◌≡◌};
ghost use Rattle.core_loop.specs.TallyView.{added};

use std::marker::Model;

/// How many cores have come to their end, with how many windows and visits. Each number stops at 2^64 - 1.
#[derive(Debug, Drop)]
pub struct Tally {
    cores: u64,
    windows: u64,
    visits: u64,
}

impl Model for Tally {
    ghost use Rattle.core_loop.specs.TallyView.{TallyView};

    ghost Value = { TallyView };

    ghost view = { λ t. record { cores = t.cores; windows = t.windows; visits = t.visits } };
}

impl Tally {
    /// No core yet.
    pub fn new() -> Tally
        ensures { result ≡ record { cores = 0; windows = 0; visits = 0 } }
    {
        Tally {
            cores: 0,
            windows: 0,
            visits: 0,
        }
    }

    /// One core more, with its windows and visits.
    pub(crate) fn add_core(&mut self, windows: u64, visits: u64)
        ensures { self.new ≡ added self.old 1 windows visits }
    {
        self.cores = self.cores.saturating_add(1);
        self.windows = self.windows.saturating_add(windows);
        self.visits = self.visits.saturating_add(visits);
    }
}
