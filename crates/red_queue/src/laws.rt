//! What holds of all pipes in a row and their packets. A law computes nothing: its clause is the fact.

ghost use Rattle.red_queue.specs.SetupView.{IsRedSetup};
ghost use Rattle.red_queue.specs.Journal.{IsRedJournal, red_journal_of};
ghost use Rattle.red_queue.specs.Laws.{HasOneRedJournal};

use crate::setup::RedSetup;

/// The list that is grown by the least visit that is due, again and again, is a journal of the setup.
pub fn red_meets(setup: &RedSetup)
    requires { IsRedSetup setup.now }
    ensures { IsRedJournal setup.now (red_journal_of setup.now) }
{}

/// Two lists that are a journal of the setup are equal.
pub fn red_unique(setup: &RedSetup)
    requires { IsRedSetup setup.now }
    ensures { HasOneRedJournal setup.now }
{}
