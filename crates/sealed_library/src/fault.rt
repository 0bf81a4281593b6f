//! Why bytes are no library.

ghost use Rattle.std.specs.Prelude.{◌≡◌};

use code_isa::CodeFault;
use std::alloc::{AllocError, AllocFailed};

/// Why bytes are not the library of a checked machine: the first refusal from the left.
#[derive(Clone, Copy, Debug, PartialEq, Eq)]
pub enum LibFault {
    /// The bytes do not begin with the name of the format, which has seven.
    BadMagic,
    /// The version is none that is read here.
    BadVersion,
    /// The bytes end inside a field.
    Truncated,
    /// A field's value is outside its range: a name's length or form, the count of ports, a class, a sign,
    /// a width, an initial word or a constant that its width does not hold, the chain, an edge, or an
    /// operation.
    BadField,
    /// Bytes stand behind the last field.
    Trailing,
    /// Of the faults that the machine has, the one with the least number.
    Code(CodeFault),
    /// Memory ran out.
    NoMemory,
}

/// The first field that the format refuses, by what is wrong with it.
#[derive(Clone, Copy, Debug, PartialEq, Eq)]
pub enum FormatFault {
    BadMagic,
    BadVersion,
    Truncated,
    BadField,
    Trailing,
}

/// Why a field was not read.
#[derive(Debug, Drop)]
pub enum Unread {
    Memory,
    Refused(FormatFault),
}

impl From<AllocError> for Unread {
    ghost use Rattle.sealed_library.specs.declared.fault.Unread.TheVariants.{Memory};

    ghost from_gives = { λ _ e. e ≡ Memory };

    fn from(_e: AllocError) -> Unread {
        Unread::Memory
    }
}

impl<T: Drop> From<AllocFailed<T>> for Unread {
    ghost use Rattle.sealed_library.specs.declared.fault.Unread.TheVariants.{Memory};

    ghost from_gives = { λ _ e. e ≡ Memory };

    fn from(_e: AllocFailed<T>) -> Unread {
        Unread::Memory
    }
}
