ghost use Rattle.std.specs.Prelude.{◌≡◌};
ghost use Rattle.workers.specs.Standing.{ComesBack};

use crate::station::Station;
use core_loop::Core;
use std::snapshot::Snapshot;
use std::thread::{Promise, PromisedHandle, Threads};

/// What a worker promises of the core that it was given: what it gives back is that core, as its turns left it.
#[derive(Drop)]
pub(crate) struct Given<'s>(pub(crate) Snapshot<Core<'s>>);

impl<'s> Promise<Station<'s>> for Given<'s> {
    ghost kept_by = { λ p r. ComesBack p.0.value r.core };
}

/// Where a core is while all of them run.
#[derive(Drop)]
pub(crate) enum Place<'s> {
    /// Here: the caller turns it.
    Here(Station<'s>),
    /// On a thread of its own.
    There(PromisedHandle<Station<'s>, Given<'s>>),
}

impl<'s> Place<'s> {
    ghost use Rattle.workers.specs.Places.{ComesHere};

    /// Waits for the worker, if there is one, and takes back its core.
    pub(crate) fn come_here<R: Threads>(self, rt: &R) -> Place<'s>
        ensures { ComesHere self.entry result }
    {
        match self {
            Place::Here(station) => Place::Here(station),
            Place::There(handle) => Place::Here(handle.join(rt)),
        }
    }
}
