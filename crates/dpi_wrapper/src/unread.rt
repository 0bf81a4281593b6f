//! Why no face was read.

ghost use Rattle.std.specs.Prelude.{◌≡◌};
ghost use Rattle.dpi_wrapper.specs.declared.unread.Unread.TheVariants.{NoMemory};

use std::alloc::{AllocError, AllocFailed};

/// Why a part of a wrapper's text was not read.
#[derive(Debug, Drop)]
pub enum Unread {
    NoMemory,
    /// The bytes do not begin with the part.
    NoFace,
}

impl From<AllocError> for Unread {
    ghost from_gives = { λ _ e. e ≡ NoMemory };

    fn from(_e: AllocError) -> Unread {
        Unread::NoMemory
    }
}

impl<T: Drop> From<AllocFailed<T>> for Unread {
    ghost from_gives = { λ _ e. e ≡ NoMemory };

    fn from(_e: AllocFailed<T>) -> Unread {
        Unread::NoMemory
    }
}
