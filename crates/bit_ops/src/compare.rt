//! Comparisons, to one bit (IEEE 1800-2017, clauses 11.4.4 and 11.4.5).

ghost use Rattle.std.specs.Prelude.{◌≡◌, [], ◌∷◌};
ghost use Rattle.bit_ops.specs.Width.{WidthsFit};
ghost use Rattle.bit_ops.specs.Meaning.{eq_of, lt_u_of, lt_s_of};

use crate::operation::Op;
use crate::value::Bits;

/// `a == b`
pub fn eq(a: Bits, b: Bits) -> Bits
    requires { WidthsFit Op.Eq 1 0 (a.width ∷ b.width ∷ []) }
    ensures width { result.width ≡ 1 }
    ensures value { result.word ≡ eq_of a.word b.word }
{
    Bits::flag(a.word == b.word)
}

/// `a < b` of unsigned numbers.
pub fn lt_u(a: Bits, b: Bits) -> Bits
    requires { WidthsFit Op.LtU 1 0 (a.width ∷ b.width ∷ []) }
    ensures width { result.width ≡ 1 }
    ensures value { result.word ≡ lt_u_of a.word b.word }
{
    Bits::flag(a.word < b.word)
}

/// `a < b` of signed numbers.
pub fn lt_s(a: Bits, b: Bits) -> Bits
    requires { WidthsFit Op.LtS 1 0 (a.width ∷ b.width ∷ []) }
    ensures width { result.width ≡ 1 }
    ensures value { result.word ≡ lt_s_of a.width a.word b.word }
{
    if a.is_negative() == b.is_negative() {
        Bits::flag(a.word < b.word)
    } else {
        Bits::flag(a.is_negative())
    }
}
