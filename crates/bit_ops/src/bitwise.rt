//! The operations that work on each bit alone (IEEE 1800-2017, clause 11.4.8).

ghost use Rattle.std.specs.Prelude.{◌≡◌, [], ◌∷◌};
ghost use Rattle.bit_ops.specs.Width.{WidthsFit};
ghost use Rattle.bit_ops.specs.Meaning.{not_of, and_of, or_of, xor_of};

use crate::operation::Op;
use crate::value::{Bits, ones};

/// `~a`
pub fn bit_not(a: Bits) -> Bits
    ensures width { result.width ≡ a.width }
    ensures value { result.word ≡ not_of a.width a.word }
{
    Bits::new(a.width, ones(a.width) - a.word)
}

/// `a & b`
pub fn bit_and(a: Bits, b: Bits) -> Bits
    requires { WidthsFit Op.And a.width 0 (a.width ∷ b.width ∷ []) }
    ensures width { result.width ≡ a.width }
    ensures value { result.word ≡ and_of a.word b.word }
{
    Bits::new(a.width, a.word & b.word)
}

/// `a | b`
pub fn bit_or(a: Bits, b: Bits) -> Bits
    requires { WidthsFit Op.Or a.width 0 (a.width ∷ b.width ∷ []) }
    ensures width { result.width ≡ a.width }
    ensures value { result.word ≡ or_of a.word b.word }
{
    Bits::new(a.width, a.word | b.word)
}

/// `a ^ b`
pub fn bit_xor(a: Bits, b: Bits) -> Bits
    requires { WidthsFit Op.Xor a.width 0 (a.width ∷ b.width ∷ []) }
    ensures width { result.width ≡ a.width }
    ensures value { result.word ≡ xor_of a.word b.word }
{
    Bits::new(a.width, a.word ^ b.word)
}
