ghost use Rattle.std.specs.Prelude.{◌≡◌, ◌≤◌, ◌*◌, [], length, vec_capacity};
ghost use Rattle.std.specs.List.{AllZip};
ghost use Rattle.journal.specs.Journal.{journal_of};
ghost use Rattle.parcel.specs.Windows.{window_count};
ghost use Rattle.core_loop.specs.TallyView.{added};
ghost use Rattle.workers.specs.Places.{AreEnded, IsRanAt};

use crate::place::Place;
use crate::ran::Ran;
use crate::station::Station;
use core_loop::Tally;
use journal::Setup;

/// Finishes the cores of a setup, which are all here and done, in core order. They count in the tally.
pub(crate) fn finish_all<'s>(
    setup: &Setup,
    places: Vec<Place<'s>>,
    room: Vec<Ran<'s>>,
    tally: &mut Tally,
) -> Vec<Ran<'s>>
    requires ended { AreEnded setup.now places.items }
    requires none { room.items ≡ [] }
    requires room { length places.items ≤ vec_capacity room }
    ensures ran { AllZip IsRanAt places.entry.items result.items }
    ensures tally { tally.new ≡ added tally.old setup.now.cores
        (setup.now.cores * window_count setup.now) (length (journal_of setup.now)) }
{
    let _parts = setup.parts();
    let mut all = room;
    for place in places {
        let Place::Here(station) = place else {
            unreachable!()
        };
        let Station { core, ports } = station;
        let result = core.finish(tally);
        all.push_reserved(Ran { result, ports });
    }
    all
}
