//! Concatenations and replications (IEEE 1800-2017, 11.4.12).

ghost use Rattle.std.specs.Prelude.{◌≡◌, ◌≤◌, ◌*◌, ◌++◌, List, [], ◌∷◌};
ghost use Rattle.bit_ops.specs.declared.value.TheConstants.{MAX_WIDTH};
ghost use Rattle.const_eval.specs.Meaning as meaning;
ghost use Rattle.const_eval.specs.Meaning.{Meaning, own};
ghost use Rattle.const_eval.specs.Selects as selects;
ghost use Rattle.const_eval.specs.Expressions as spec;
ghost use Rattle.const_eval.specs.code.Agreeing.{Agrees, Matches, IsJoined};

use crate::fault::ConstFault;
use crate::joined::Joined;
use crate::measured::Measured;
use crate::own::alone;
use crate::refuse::unnamed_at;
use bit_ops::{Bits, MAX_WIDTH, Word};
use std::alloc::Global;
use sv_base::{Kind, Place};

impl Joined {
    /// One part more, which stands below the others.
    pub fn with(self, part: Bits) -> Joined
        ensures { (ms : List Meaning) (m : Meaning) → IsJoined self ms
            → part.width ≡ m.size → part.word ≡ own m
            → IsJoined result (ms ++ m ∷ []) }
    {
        match self {
            Joined::Nothing => Joined::Whole(part),
            Joined::Whole(above) if above.width + part.width <= MAX_WIDTH => {
                Joined::Whole(bit_ops::concat(above, part))
            }
            _ => Joined::TooWide,
        }
    }
}

/// What is made of parts, where their width is one that a value may have.
pub fn concatenation(alloc: Global, place: Place, joined: Joined) -> Result<Measured, ConstFault>
    ensures { (ms : List Meaning) → IsJoined joined ms → Agrees Matches result (spec.concatenation place ms) }
{
    match joined {
        Joined::Nothing => Err(unnamed_at(alloc, Kind::BadRange, place)),
        Joined::Whole(bits) => Ok(alone(bits, false)),
        Joined::TooWide => Err(unnamed_at(alloc, Kind::TooWide, place)),
    }
}

/// So many copies of a value, at least one, joined.
pub fn copies(count: u32, bits: Bits) -> Bits
    requires some { 1 ≤ count }
    requires fits { count * bits.width ≤ MAX_WIDTH }
    ensures width { result.width ≡ count * bits.width }
    ensures word { result.word ≡ selects.copies count bits.width bits.word }
{
    let mut result = bits;
    for _ in 1..count {
        result = bit_ops::concat(result, bits);
    }
    result
}

/// So many copies of parts.
pub fn repeated(
    alloc: Global,
    place: Place,
    count: &Measured,
    joined: Joined,
) -> Result<Measured, ConstFault>
    ensures { (n : Meaning) (ms : List Meaning) → Matches count.now n → IsJoined joined ms
        → Agrees Matches result (spec.repeated place n ms) }
{
    let count = count.number().count();
    if count == 0 {
        return Err(unnamed_at(alloc, Kind::BadRange, place));
    }
    match joined {
        Joined::Nothing => Err(unnamed_at(alloc, Kind::BadRange, place)),
        Joined::Whole(bits) if count <= Word::from(MAX_WIDTH / bits.width) => {
            Ok(alone(copies(count as u32, bits), false))
        }
        _ => Err(unnamed_at(alloc, Kind::TooWide, place)),
    }
}
