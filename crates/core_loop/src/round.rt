ghost use Rattle.std.specs.Prelude.{◌≡◌, false, None};
ghost use Rattle.core_loop.specs.Trading.{and_trade, both_swept};

use crate::turn::PortName;

/// What comes of the posts and takes of a round.
pub(crate) enum Round {
    /// All are made.
    Complete,
    /// This one is still to be made, and its port refused; `moved` says whether any was made.
    Owing { on: PortName, moved: bool },
    NoMemory,
}

/// What comes of the posts, or the takes, of a round.
#[derive(Clone, Copy)]
pub(crate) struct Sweep {
    /// Some were made.
    pub moved: bool,
    /// The first core whose port refused.
    pub refused: Option<u32>,
}

/// What comes of one post or take.
pub(crate) enum Trade {
    /// It was made before.
    Past,
    Made,
    Refused,
}

impl Sweep {
    /// Nothing is made or refused yet.
    pub(crate) fn begin() -> Sweep
        ensures { result ≡ record { moved = false; refused = None } }
    {
        Sweep {
            moved: false,
            refused: None,
        }
    }

    /// The same with one more post or take.
    pub(crate) fn and(self, trade: Trade, other: u32) -> Sweep
        ensures { result ≡ and_trade self trade other }
    {
        match trade {
            Trade::Past => self,
            Trade::Made => Sweep {
                moved: true,
                refused: self.refused,
            },
            Trade::Refused => Sweep {
                moved: self.moved,
                refused: Some(self.refused.unwrap_or(other)),
            },
        }
    }

    /// What these posts and the takes after them make of the round.
    pub(crate) fn and_takes(self, takes: Sweep) -> Round
        ensures { result ≡ both_swept self takes }
    {
        let moved = self.moved || takes.moved;
        if let Some(other) = self.refused {
            return Round::Owing {
                on: PortName::Post(other),
                moved,
            };
        }
        if let Some(other) = takes.refused {
            return Round::Owing {
                on: PortName::Take(other),
                moved,
            };
        }
        Round::Complete
    }
}
