//! Parts of a value and values joined (IEEE 1800-2017, clauses 11.4.12 and 11.5.1).

ghost use Rattle.std.specs.Prelude.{◌≡◌, ◌+◌, [], ◌∷◌};
ghost use Rattle.bit_ops.specs.Width.{IsWidth, WidthsFit};
ghost use Rattle.bit_ops.specs.Meaning.{slice_of, concat_of, insert_of};

use crate::operation::Op;
use crate::value::{Bits, ones};

/// The `w` bits from position `lo` on, counted from 0 at the lowest.
pub fn slice(a: Bits, lo: u32, w: u32) -> Bits
    requires width { IsWidth w }
    requires fits { WidthsFit Op.Slice w lo (a.width ∷ []) }
    ensures width { result.width ≡ w }
    ensures value { result.word ≡ slice_of lo w a.word }
{
    Bits::truncated(w, a.word >> lo)
}

/// `{a, b}`: `a` above `b`.
pub fn concat(a: Bits, b: Bits) -> Bits
    requires width { IsWidth (a.width + b.width) }
    ensures width { result.width ≡ a.width + b.width }
    ensures value { result.word ≡ concat_of b.width a.word b.word }
{
    Bits::new(a.width + b.width, (a.word << b.width) | b.word)
}

/// `a` with `b` in place of its bits from position `lo` on.
pub fn insert(a: Bits, b: Bits, lo: u32) -> Bits
    requires { WidthsFit Op.Insert a.width lo (a.width ∷ b.width ∷ []) }
    ensures width { result.width ≡ a.width }
    ensures value { result.word ≡ insert_of lo b.width a.word b.word }
{
    let field = ones(b.width) << lo;
    Bits::new(a.width, (a.word & !field) | (b.word << lo))
}
