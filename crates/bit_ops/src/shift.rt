//! Shifts by an unsigned number of places (IEEE 1800-2017, clause 11.4.10).

ghost use Rattle.std.specs.Prelude.{◌≡◌, [], ◌∷◌};
ghost use Rattle.bit_ops.specs.Width.{WidthsFit};
ghost use Rattle.bit_ops.specs.Meaning.{shl_of, shr_u_of, shr_s_of};

use crate::extend::sext;
use crate::operation::Op;
use crate::part::slice;
use crate::value::{Bits, Word};

/// `a << b`, which is `a <<< b` too.
pub fn shl(a: Bits, b: Bits) -> Bits
    requires { WidthsFit Op.Shl a.width 0 (a.width ∷ b.width ∷ []) }
    ensures width { result.width ≡ a.width }
    ensures value { result.word ≡ shl_of a.width a.word b.word }
{
    if b.word < Word::from(a.width) {
        Bits::truncated(a.width, a.word << b.word)
    } else {
        Bits::zero(a.width)
    }
}

/// `a >> b`
pub fn shr_u(a: Bits, b: Bits) -> Bits
    requires { WidthsFit Op.ShrU a.width 0 (a.width ∷ b.width ∷ []) }
    ensures width { result.width ≡ a.width }
    ensures value { result.word ≡ shr_u_of a.width a.word b.word }
{
    if b.word < Word::from(a.width) {
        Bits::new(a.width, a.word >> b.word)
    } else {
        Bits::zero(a.width)
    }
}

/// `a >>> b` of a signed number.
pub fn shr_s(a: Bits, b: Bits) -> Bits
    requires { WidthsFit Op.ShrS a.width 0 (a.width ∷ b.width ∷ []) }
    ensures width { result.width ≡ a.width }
    ensures value { result.word ≡ shr_s_of a.width a.word b.word }
{
    let places = if b.word < Word::from(a.width) {
        b.word as u32
    } else {
        a.width - 1
    };
    sext(slice(a, places, a.width - places), a.width)
}
