//! The choice between two values (IEEE 1800-2017, clause 11.4.11).

ghost use Rattle.std.specs.Prelude.{◌≡◌, [], ◌∷◌};
ghost use Rattle.bit_ops.specs.Width.{WidthsFit};
ghost use Rattle.bit_ops.specs.Meaning.{mux_of};

use crate::operation::Op;
use crate::value::Bits;

/// `c ? a : b`
pub fn mux(c: Bits, a: Bits, b: Bits) -> Bits
    requires { WidthsFit Op.Mux a.width 0 (c.width ∷ a.width ∷ b.width ∷ []) }
    ensures width { result.width ≡ a.width }
    ensures value { result.word ≡ mux_of c.word a.word b.word }
{
    if c.word == 1 { a } else { b }
}
