//! Selects of a constant's bits (IEEE 1800-2017, 11.5.1).

ghost use Rattle.std.specs.Prelude.{◌≡◌, true, pos, ◌*◌, ◌/◌, ◌%◌, ◌^◌, ◌-ℤ◌};
ghost use Rattle.bit_ops.specs.Width.{IsWidth};
ghost use Rattle.const_eval.specs.Selects as selects;
ghost use Rattle.const_eval.specs.WholeNumbers.{integer_of};
ghost use Rattle.const_eval.specs.Constant.{constant_named};
ghost use Rattle.const_eval.specs.Expressions as spec;
ghost use Rattle.const_eval.specs.code.Agreeing.{Agrees, Matches, ArePositions};

use crate::fault::ConstFault;
use crate::measured::Measured;
use crate::name::Constant;
use crate::own::alone;
use crate::refuse::part_width;
use crate::taking::Taking;
use crate::whole_number::{WholeNumber, span};
use bit_ops::{Bits, MAX_WIDTH, Word};
use std::alloc::Global;
use sv_ast::Id;

/// The bits of a word from so many places above its lowest on; a bit that it doesn't have is 0.
fn bits_above(word: Word, places: Word, width: u32) -> Bits
    requires { IsWidth width }
    ensures width { result.width ≡ width }
    ensures word { result.word ≡ word / 2 ^ places % 2 ^ width }
{
    if places < Word::from(MAX_WIDTH) {
        Bits::truncated(width, word >> places as u32)
    } else {
        Bits::zero(width)
    }
}

/// The bits of a word from so many places below its lowest on; a bit that it doesn't have is 0.
fn bits_below(word: Word, places: Word, width: u32) -> Bits
    requires { IsWidth width }
    ensures width { result.width ≡ width }
    ensures word { result.word ≡ word * 2 ^ places % 2 ^ width }
{
    if places < Word::from(MAX_WIDTH) {
        Bits::truncated(width, word << places as u32)
    } else {
        Bits::zero(width)
    }
}

/// The bits of a word from so many places below a position on; a bit that it doesn't have is 0 (11.5.1).
pub fn bits_from(word: Word, position: WholeNumber, down: Word, width: u32) -> Bits
    requires { IsWidth width }
    ensures width { result.width ≡ width }
    ensures word { result.word ≡ selects.bits_from (integer_of position -ℤ pos down) width word }
{
    match position {
        WholeNumber::NotNegative(up) if up >= down => bits_above(word, up - down, width),
        WholeNumber::NotNegative(up) => bits_below(word, down - up, width),
        WholeNumber::Negative(n) => {
            bits_below(word, n.saturating_add(down).saturating_add(1), width)
        }
    }
}

/// So many bits of a constant, from so far below a position of its range on.
fn part(constant: Constant, position: WholeNumber, down: u32, width: u32) -> Measured
    requires { IsWidth width }
    ensures { Matches result
        (selects.part (constant_named constant.value constant.low) (integer_of position -ℤ pos down) width) }
{
    let below = Word::from(constant.low) + Word::from(down);
    alone(
        bits_from(constant.value.value.word, position, below, width),
        false,
    )
}

/// A whole constant.
pub fn whole(constant: Constant) -> Measured
    ensures { Matches result (spec.whole (constant_named constant.value constant.low)) }
{
    alone(constant.value.value, constant.value.signed)
}

/// What a select takes of a constant.
pub fn take(
    alloc: Global,
    taking: &Taking,
    constant: Constant,
    name: &Id,
) -> Result<Measured, ConstFault>
    ensures { (positions : spec.Positions) → ArePositions taking.now positions
        → Agrees Matches result
        (spec.take positions (constant_named constant.value constant.low) name.now) }
{
    match taking {
        Taking::At(at) => Ok(part(constant, at.number(), 0, 1)),
        Taking::DownTo(high, low) => {
            let low = low.number();
            let width = part_width(alloc, name, span(high.number(), low))?;
            Ok(part(constant, low, 0, width))
        }
        Taking::UpFrom(at, width) => {
            let width = part_width(alloc, name, width.number().count())?;
            Ok(part(constant, at.number(), 0, width))
        }
        Taking::DownFrom(at, width) => {
            let width = part_width(alloc, name, width.number().count())?;
            Ok(part(constant, at.number(), width - 1, width))
        }
    }
}
