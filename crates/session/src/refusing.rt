//! The line at which a run is refused.

ghost use Rattle.std.specs.Prelude.{◌≡◌, true, false, ◌&&◌, not, []};
ghost use Rattle.stimulus_reader.specs.declared.reason.Reason.TheVariants.{TooManySteps};
ghost use Rattle.stimulus_reader.specs.Reading.{passes_limit, word_of};
ghost use Rattle.session.specs.Playing.{IsRefusedAs};

use crate::fault::PlayFault;
use std::alloc::Global;
use stimulus_reader::{Reason, StepReader};

/// The line of this number is one step too many. Takes no memory.
pub fn too_many(alloc: Global, line: u64) -> PlayFault
    ensures { IsRefusedAs result line TooManySteps [] }
{
    PlayFault::Stimulus {
        line,
        reason: Reason::TooManySteps,
        word: Vec::new(alloc),
    }
}

/// Whether a line with this reason passes a limit of bytes.
fn passes_limit(reason: Reason) -> bool
    ensures { result ≡ passes_limit reason }
{
    matches!(reason, Reason::LineTooLong | Reason::FileTooLong)
}

/// The line of this number is bad for this reason; where no step more is allowed, it is one step too many, unless it
/// passes a limit of bytes. Takes no memory.
pub fn refuse(alloc: Global, reader: StepReader, line: u64, reason: Reason, full: bool) -> PlayFault
    ensures many { (full && not (passes_limit reason)) ≡ true
        → IsRefusedAs result line TooManySteps [] }
    ensures bad { (full && not (passes_limit reason)) ≡ false
        → IsRefusedAs result line reason (word_of reader.bad) }
{
    if full && !passes_limit(reason) {
        return too_many(alloc, line);
    }
    PlayFault::Stimulus {
        line,
        reason,
        word: reader.into_word(),
    }
}
