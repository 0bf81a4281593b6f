//! Extension to a greater width (IEEE 1800-2017, clauses 10.7 and 11.8.2).

ghost use Rattle.std.specs.Prelude.{◌≡◌, [], ◌∷◌};
ghost use Rattle.bit_ops.specs.Width.{IsWidth, WidthsFit};
ghost use Rattle.bit_ops.specs.Meaning.{zext_of, sext_of};

use crate::operation::Op;
use crate::value::{Bits, ones};

/// The value at width `w`, with 0 for each new bit.
pub fn zext(a: Bits, w: u32) -> Bits
    requires width { IsWidth w }
    requires fits { WidthsFit Op.Zext w 0 (a.width ∷ []) }
    ensures width { result.width ≡ w }
    ensures value { result.word ≡ zext_of a.word }
{
    Bits::new(w, a.word)
}

/// The value at width `w`, with the sign bit for each new bit.
pub fn sext(a: Bits, w: u32) -> Bits
    requires width { IsWidth w }
    requires fits { WidthsFit Op.Sext w 0 (a.width ∷ []) }
    ensures width { result.width ≡ w }
    ensures value { result.word ≡ sext_of a.width w a.word }
{
    if a.is_negative() {
        Bits::new(w, a.word + (ones(w) - ones(a.width)))
    } else {
        Bits::new(w, a.word)
    }
}
