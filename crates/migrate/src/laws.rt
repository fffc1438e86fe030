//! What holds of the windows of a run with moves. A law computes nothing: its clause is the fact.
ghost use Rattle.migrate.specs.Moves.{MovesAreOne};

use journal::Setup;

/// A setup and a list of moves have one number of windows, one number of moves made, and one number of visits for each core.
pub fn moves_are_one(setup: &Setup)
    ensures { MovesAreOne setup.now }
{
    let _parts = setup.parts();
}
