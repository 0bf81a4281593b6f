//! Powers and logarithms.

ghost use Rattle.std.specs.Prelude.{◌≡◌, ◌^◌, ◌*◌, ◌%◌};
ghost use Rattle.const_eval.specs.Operators.{raised_to, logarithm};

use bit_ops::{Bits, MAX_WIDTH, Word};

/// `a` to a power, modulo 2 to the width.
pub fn raised_to(a: Bits, exponent: Word) -> Bits
    ensures width { result.width ≡ a.width }
    ensures word { result.word ≡ raised_to a.width a.word exponent }
{
    let mut result = Bits::truncated(a.width, 1);
    let mut base = a;
    let mut left = exponent;
    while left > 0 {
        if left % 2 == 1 {
            result = bit_ops::mul(result, base);
        }
        base = bit_ops::mul(base, base);
        left /= 2;
    }
    result
}

/// The logarithm to the base 2, rounded up: the least k with `a` at most 2 to the power k.
pub fn logarithm(a: Word) -> u32
    ensures { result ≡ logarithm a }
{
    for k in 0..MAX_WIDTH {
        if a <= (1 << k) {
            return k;
        }
    }
    MAX_WIDTH
}
