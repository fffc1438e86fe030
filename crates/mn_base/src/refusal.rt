ghost use Rattle.std.specs.Prelude.{◌≡◌};

use std::alloc::{AllocError, AllocFailed};

/// Out of memory, the one answer that may come at any call that allocates.
#[derive(Clone, Copy, Debug, PartialEq, Eq)]
pub struct NoMemory;

impl From<AllocError> for NoMemory {
    fn from(_: AllocError) -> Self {
        NoMemory
    }
}

impl<T: Drop> From<AllocFailed<T>> for NoMemory {
    fn from(_: AllocFailed<T>) -> Self {
        NoMemory
    }
}

/// Why a call that allocates and reads gives no answer.
#[derive(Clone, Copy, Debug, PartialEq, Eq)]
pub enum Refusal<F> {
    /// Memory was refused.
    NoMemory,
    /// What was read has this fault.
    Fault(F),
}

impl<F> Refusal<F> {
    ghost use Rattle.mn_base.specs.Refused.{IfFault, MapsFault};

    /// The same refusal with its fault mapped. `NoMemory` stays `NoMemory`.
    pub fn map_fault<G, M: FnOnce(F) -> G>(self, map: M) -> Refusal<G>
        requires { IfFault self (M.pre map) }
        ensures { MapsFault (M.post map) self result }
    {
        match self {
            Refusal::NoMemory => Refusal::NoMemory,
            Refusal::Fault(fault) => Refusal::Fault(map(fault)),
        }
    }
}

impl<F> From<NoMemory> for Refusal<F> {
    ghost use Rattle.mn_base.specs.declared.refusal.Refusal.TheVariants as refusal;

    ghost from_gives = { λ _ e. e ≡ refusal.NoMemory };

    fn from(_: NoMemory) -> Self {
        Refusal::NoMemory
    }
}

impl<F> From<AllocError> for Refusal<F> {
    ghost use Rattle.mn_base.specs.declared.refusal.Refusal.TheVariants as refusal;

    ghost from_gives = { λ _ e. e ≡ refusal.NoMemory };

    fn from(_: AllocError) -> Self {
        Refusal::NoMemory
    }
}

impl<F, T: Drop> From<AllocFailed<T>> for Refusal<F> {
    ghost use Rattle.mn_base.specs.declared.refusal.Refusal.TheVariants as refusal;

    ghost from_gives = { λ _ e. e ≡ refusal.NoMemory };

    fn from(_: AllocFailed<T>) -> Self {
        Refusal::NoMemory
    }
}
