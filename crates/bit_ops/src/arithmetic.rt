//! Arithmetic modulo two to the width (IEEE 1800-2017, clause 11.4.3).

ghost use Rattle.std.specs.Prelude.{◌≡◌, [], ◌∷◌};
ghost use Rattle.bit_ops.specs.Width.{WidthsFit};
ghost use Rattle.bit_ops.specs.Meaning.{neg_of, add_of, sub_of, mul_of, div_u_of, div_s_of, mod_u_of, mod_s_of, magnitude_of};

use crate::operation::Op;
use crate::value::{Bits, Word, ones};

/// `-a`
pub fn neg(a: Bits) -> Bits
    ensures width { result.width ≡ a.width }
    ensures value { result.word ≡ neg_of a.width a.word }
{
    let zero: Word = 0;
    Bits::truncated(a.width, zero.wrapping_sub(a.word))
}

/// `a + b`
pub fn add(a: Bits, b: Bits) -> Bits
    requires { WidthsFit Op.Add a.width 0 (a.width ∷ b.width ∷ []) }
    ensures width { result.width ≡ a.width }
    ensures value { result.word ≡ add_of a.width a.word b.word }
{
    Bits::truncated(a.width, a.word.wrapping_add(b.word))
}

/// `a - b`
pub fn sub(a: Bits, b: Bits) -> Bits
    requires { WidthsFit Op.Sub a.width 0 (a.width ∷ b.width ∷ []) }
    ensures width { result.width ≡ a.width }
    ensures value { result.word ≡ sub_of a.width a.word b.word }
{
    Bits::truncated(a.width, a.word.wrapping_sub(b.word))
}

/// `a * b`
pub fn mul(a: Bits, b: Bits) -> Bits
    requires { WidthsFit Op.Mul a.width 0 (a.width ∷ b.width ∷ []) }
    ensures width { result.width ≡ a.width }
    ensures value { result.word ≡ mul_of a.width a.word b.word }
{
    Bits::truncated(a.width, a.word.wrapping_mul(b.word))
}

/// `a / b` of unsigned numbers.
pub fn div_u(a: Bits, b: Bits) -> Bits
    requires { WidthsFit Op.DivU a.width 0 (a.width ∷ b.width ∷ []) }
    ensures width { result.width ≡ a.width }
    ensures value { result.word ≡ div_u_of a.word b.word }
{
    Bits::new(a.width, a.word.checked_div(b.word).unwrap_or(0))
}

/// `a % b` of unsigned numbers.
pub fn mod_u(a: Bits, b: Bits) -> Bits
    requires { WidthsFit Op.ModU a.width 0 (a.width ∷ b.width ∷ []) }
    ensures width { result.width ≡ a.width }
    ensures value { result.word ≡ mod_u_of a.word b.word }
{
    Bits::new(a.width, a.word.checked_rem(b.word).unwrap_or(0))
}

/// `a / b` of signed numbers.
pub fn div_s(a: Bits, b: Bits) -> Bits
    requires { WidthsFit Op.DivS a.width 0 (a.width ∷ b.width ∷ []) }
    ensures width { result.width ≡ a.width }
    ensures value { result.word ≡ div_s_of a.width a.word b.word }
{
    if b.word == 0 {
        return Bits::zero(a.width);
    }
    let quotient = Bits::new(a.width, magnitude(a) / magnitude(b));
    if a.is_negative() == b.is_negative() {
        quotient
    } else {
        neg(quotient)
    }
}

/// `a % b` of signed numbers.
pub fn mod_s(a: Bits, b: Bits) -> Bits
    requires { WidthsFit Op.ModS a.width 0 (a.width ∷ b.width ∷ []) }
    ensures width { result.width ≡ a.width }
    ensures value { result.word ≡ mod_s_of a.width a.word b.word }
{
    if b.word == 0 {
        return Bits::zero(a.width);
    }
    let remainder = Bits::new(a.width, magnitude(a) % magnitude(b));
    if a.is_negative() {
        neg(remainder)
    } else {
        remainder
    }
}

/// The signed number without its sign.
fn magnitude(a: Bits) -> Word
    ensures { result ≡ magnitude_of a.width a.word }
{
    if a.is_negative() {
        ones(a.width) - a.word + 1
    } else {
        a.word
    }
}
