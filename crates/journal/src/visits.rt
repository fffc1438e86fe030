ghost use Rattle.std.specs.Prelude.{◌≡◌, ◌∷◌, ◌++◌, [], IfNone, IfOk, IfSome};
ghost use Rattle.journal.specs.Journal.{journal_of};
ghost use Rattle.journal.specs.VisitsView.{GoesOnWith};

use crate::maker::Maker;
use crate::setup::Setup;
use crate::visit::Visit;
use mn_base::NoMemory;
use std::alloc::Global;
use std::marker::Model;

/// The visits of a setup's journal, made one after the other. None of them is kept.
#[derive(Drop)]
pub struct Visits<'s> {
    setup: &'s Setup,
    maker: Maker,
    /// A call found no memory; what the maker holds is in no order.
    failed: bool,
}

impl<'s> Model for Visits<'s> {
    ghost use Rattle.journal.specs.VisitsView.{VisitsView};

    ghost Value = { VisitsView };

    ghost use Rattle.journal.specs.MadeVisits.{visits_view, MakesFront};

    ghost view = { visits_view };

    ghost invariant = { MakesFront };
}

impl<'s> Visits<'s> {
    /// Before any visit.
    pub fn start(alloc: Global, setup: &'s Setup) -> Result<Visits<'s>, NoMemory>
        ensures setup { IfOk result (λ visits. visits.setup ≡ setup.now) }
        ensures none_made { IfOk result (λ visits. visits.made ≡ []) }
    {
        let _parts = setup.parts();
        let maker = Maker::start(alloc, setup)?;
        Ok(Visits {
            setup,
            maker,
            failed: false,
        })
    }

    /// Makes the next visit of the journal; none where all are made. A call that finds no memory ends it: all later ones answer the
    /// same.
    pub fn next(&mut self, alloc: Global) -> Result<Option<Visit>, NoMemory>
        ensures setup { self.new.setup ≡ self.old.setup }
        ensures made { IfOk result (λ next. IfSome next (λ visit. self.new.made ≡ self.old.made ++ visit ∷ [])) }
        ensures goes_on { IfOk result (λ next. IfSome next (GoesOnWith self.old.setup self.old.made)) }
        ensures whole { IfOk result (λ next. IfNone next (self.old.made ≡ journal_of self.old.setup)) }
        ensures kept { IfOk result (λ next. IfNone next (self.new ≡ self.old)) }
    {
        if self.failed {
            return Err(NoMemory);
        }
        let Some(next) = self.maker.due.pop() else {
            return Ok(None);
        };
        self.failed = true;
        let visit = self.maker.make(alloc, self.setup, next)?;
        self.failed = false;
        Ok(Some(visit))
    }
}
