//! Why a machine was not taken as a checked one.

ghost use Rattle.std.specs.Prelude.{◌≡◌};
ghost use Rattle.code_check.specs.declared.fault.CheckFault.TheVariants.{NoMemory};

use code_isa::CodeFault;
use std::alloc::AllocError;

/// Why a machine was not taken as a checked one.
#[derive(Clone, Copy, Debug, PartialEq, Eq)]
pub enum CheckFault {
    /// Of the faults that the machine has, the one with the least number.
    Bad(CodeFault),
    /// Memory ran out.
    NoMemory,
}

impl From<AllocError> for CheckFault {
    ghost from_gives = { λ _ fault. fault ≡ NoMemory };

    fn from(_error: AllocError) -> CheckFault {
        CheckFault::NoMemory
    }
}
