//! What an expression is worth by itself, and what has a value by itself.

ghost use Rattle.std.specs.Prelude.{◌≡◌, Some, false};
ghost use Rattle.bit_ops.specs.Width.{IsWidth};
ghost use Rattle.const_eval.specs.Meaning as meaning;
ghost use Rattle.const_eval.specs.code.Waiting.{value_of};
ghost use Rattle.const_eval.specs.WholeNumbers.{integer_of};
ghost use Rattle.const_eval.specs.code.Agreeing.{Matches, number_in};

use crate::env::Const;
use crate::measured::Measured;
use crate::pending::{Pending, evaluate};
use crate::whole_number::WholeNumber;
use bit_ops::Bits;

impl Measured {
    /// The value by itself.
    pub fn own(&self) -> Bits
        ensures width { result.width ≡ self.now.size }
        ensures word { result.word ≡ value_of self.now.pending self.now.size self.now.signed }
    {
        evaluate(&self.pending, self.size, self.signed)
    }

    /// The value where it is assigned to so many bits.
    pub fn assigned(&self, width: u32) -> Bits
        requires { IsWidth width }
        ensures width { result.width ≡ width }
        ensures word { (m : meaning.Meaning) → Matches self.now m → result.word ≡ meaning.assigned (Some width) false m }
    {
        let size = self.size.max(width);
        let value = evaluate(&self.pending, size, self.signed);
        Bits::truncated(width, value.word)
    }

    /// The whole number that the value by itself stands for.
    pub fn number(&self) -> WholeNumber
        ensures { integer_of result ≡ number_in self.now }
    {
        let own = Const {
            value: self.own(),
            signed: self.signed,
        };
        own.number()
    }

    /// Whether the value is another than 0.
    pub fn holds(&self) -> bool
        ensures { (m : meaning.Meaning) → Matches self.now m → result ≡ meaning.holds m }
    {
        self.own().word != 0
    }
}

/// What has a value by itself, which a context only extends.
pub fn alone(bits: Bits, signed: bool) -> Measured
    ensures { Matches result (meaning.alone bits.width signed bits.word) }
{
    Measured {
        size: bits.width,
        signed,
        pending: Pending::Alone(bits),
    }
}

/// One bit that says whether a fact holds.
pub fn flag(holds: bool) -> Measured
    ensures { Matches result (meaning.flag holds) }
{
    alone(Bits::flag(holds), false)
}
