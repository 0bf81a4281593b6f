//! What cuts the program short.

use std::alloc::{AllocError, AllocFailed};

/// Why a run ends before its outcome is whole.
#[derive(Clone, Copy, Debug, PartialEq, Eq)]
pub enum Stop {
    /// A read of the outside failed.
    ReadFault,
    /// A write to the outside failed.
    WriteFault,
    /// There was not memory enough.
    NoMemory,
}

impl From<AllocError> for Stop {
    ghost use Rattle.std.specs.Prelude.{◌≡◌};
    ghost use Rattle.lib_create.specs.declared.stop.Stop.TheVariants.{NoMemory};

    ghost from_gives = { λ error stop. stop ≡ NoMemory };

    fn from(_error: AllocError) -> Stop {
        Stop::NoMemory
    }
}

impl<T: Drop> From<AllocFailed<T>> for Stop {
    ghost use Rattle.std.specs.Prelude.{◌≡◌};
    ghost use Rattle.lib_create.specs.declared.stop.Stop.TheVariants.{NoMemory};

    ghost from_gives = { λ error stop. stop ≡ NoMemory };

    fn from(_error: AllocFailed<T>) -> Stop {
        Stop::NoMemory
    }
}
