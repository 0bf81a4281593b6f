//! Why a call makes nothing of what it is given.

ghost use Rattle.std.specs.Prelude.{◌≡◌};
ghost use Rattle.sv_base.specs.declared.fault.Fault.TheVariants.{NoMemory};

use crate::refusal::Refusal;
use std::alloc::{AllocError, AllocFailed};

/// Why a call makes nothing of a source, its tokens or its tree. Each crate that refuses has it under a name
/// of its own, and says which kinds of refusal it gives.
#[derive(Debug, Drop)]
pub enum Fault {
    /// What was given is refused, at one place.
    Refused(Refusal),
    /// There was not memory enough.
    NoMemory,
}

impl From<AllocError> for Fault {
    ghost from_gives = { λ _ fault. fault ≡ NoMemory };

    fn from(_error: AllocError) -> Fault {
        Fault::NoMemory
    }
}

impl<T: Drop> From<AllocFailed<T>> for Fault {
    ghost from_gives = { λ _ fault. fault ≡ NoMemory };

    fn from(_error: AllocFailed<T>) -> Fault {
        Fault::NoMemory
    }
}
