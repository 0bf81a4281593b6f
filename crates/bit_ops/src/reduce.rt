//! Reductions of a value to one bit (IEEE 1800-2017, clause 11.4.9).

ghost use Rattle.std.specs.Prelude.{◌≡◌};
ghost use Rattle.bit_ops.specs.Meaning.{red_and_of, red_or_of, red_xor_of};

use crate::value::{Bits, Word, ones};

/// `&a`
pub fn red_and(a: Bits) -> Bits
    ensures width { result.width ≡ 1 }
    ensures value { result.word ≡ red_and_of a.width a.word }
{
    Bits::flag(a.word == ones(a.width))
}

/// `|a`
pub fn red_or(a: Bits) -> Bits
    ensures width { result.width ≡ 1 }
    ensures value { result.word ≡ red_or_of a.word }
{
    Bits::flag(a.word != 0)
}

/// `^a`
pub fn red_xor(a: Bits) -> Bits
    ensures width { result.width ≡ 1 }
    ensures value { result.word ≡ red_xor_of a.word }
{
    Bits::new(1, Word::from(a.word.count_ones() % 2))
}
