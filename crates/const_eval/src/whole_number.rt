//! The whole numbers that values stand for.

ghost use Rattle.std.specs.Prelude.{◌≡◌, ◌+◌, ◌-◌, ◌^◌, min, pos, ◌+ℤ◌, ◌-ℤ◌, int_lt};
ghost use Rattle.bit_ops.specs.declared.value.TheConstants.{MAX_WIDTH};
ghost use Rattle.const_eval.specs.WholeNumbers.{integer_of, count_of};

use bit_ops::Word;

/// A whole number that a value of any width stands for, signed or not.
#[derive(Clone, Copy, Debug, PartialEq, Eq)]
pub enum WholeNumber {
    /// 0 or more.
    NotNegative(Word),
    /// Below 0: -1 less this, so with 0 it is -1.
    Negative(Word),
}

impl WholeNumber {
    pub fn is_negative(self) -> bool
        ensures { result ≡ int_lt (integer_of self) (pos 0) }
    {
        match self {
            WholeNumber::NotNegative(_) => false,
            WholeNumber::Negative(_) => true,
        }
    }

    /// The number as a count, of nothing where it is below 0.
    pub fn count(self) -> Word
        ensures { result ≡ count_of (integer_of self) }
    {
        match self {
            WholeNumber::NotNegative(n) => n,
            WholeNumber::Negative(_) => 0,
        }
    }
}

/// How many positions there are from one down to another, both among them: none where the first is the lower
/// one, and no more than a word can say.
pub fn span(high: WholeNumber, low: WholeNumber) -> Word
    ensures { result ≡ min (count_of (integer_of high -ℤ integer_of low +ℤ pos 1)) (2 ^ MAX_WIDTH - 1) }
{
    match (high, low) {
        (WholeNumber::NotNegative(m), WholeNumber::NotNegative(l)) => steps(l, m),
        (WholeNumber::NotNegative(m), WholeNumber::Negative(l)) => {
            m.saturating_add(l).saturating_add(2)
        }
        (WholeNumber::Negative(_), WholeNumber::NotNegative(_)) => 0,
        (WholeNumber::Negative(m), WholeNumber::Negative(l)) => steps(m, l),
    }
}

/// How many numbers there are from one up to another, both among them, but no more than a word can say.
fn steps(from: Word, to: Word) -> Word
    ensures { result ≡ min (to + 1 - from) (2 ^ MAX_WIDTH - 1) }
{
    if from <= to {
        (to - from).saturating_add(1)
    } else {
        0
    }
}
