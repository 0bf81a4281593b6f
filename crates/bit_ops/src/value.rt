//! A value: a width and the word that holds its bits.

ghost use Rattle.std.specs.Prelude.{◌≡◌, ◌%◌, ◌-◌, ◌^◌, ◌<◌, ◌≤◌, ◌↔◌, IsTrue, if◌then◌else◌};
ghost use Rattle.bit_ops.specs.Width.{IsWidth};
ghost use Rattle.bit_ops.specs.declared.value.TheConstants.{MAX_WIDTH};

/// The greatest width of a value, in bits. A `Word` has exactly this many bits.
pub const MAX_WIDTH: u32 = 64;

/// What holds a value's bits, the lowest bit of the value as its lowest bit.
pub type Word = u64;

/// A value of 1 to `MAX_WIDTH` bits (IEEE 1800-2017, clause 6.11), with 0 and 1 as its only digits.
#[derive(Clone, Copy, Debug, PartialEq, Eq)]
pub struct Bits {
    /// How many bits the value has.
    pub width: u32,
    /// The value as an unsigned number.
    pub word: Word,
    pub ghost positive: { 1 ≤ width },
    pub ghost within: { width ≤ MAX_WIDTH },
    pub ghost fits: { word < 2 ^ width },
}

impl Bits {
    /// The value of this width and word, both of which the caller has tested.
    pub fn new(width: u32, word: Word) -> Self
        requires width { IsWidth width }
        requires word { word < 2 ^ width }
        ensures width { result.width ≡ width }
        ensures word { result.word ≡ word }
    {
        Bits { width, word }
    }

    /// The value of this width with every bit 0.
    pub fn zero(width: u32) -> Self
        requires { IsWidth width }
        ensures width { result.width ≡ width }
        ensures word { result.word ≡ 0 }
    {
        Bits { width, word: 0 }
    }

    /// The value of this width that keeps the lowest bits of a word.
    pub fn truncated(width: u32, word: Word) -> Self
        requires { IsWidth width }
        ensures width { result.width ≡ width }
        ensures word { result.word ≡ word % 2 ^ width }
    {
        Bits {
            width,
            word: word & ones(width),
        }
    }

    /// The value of one bit that says whether a fact holds.
    pub fn flag(holds: bool) -> Self
        ensures width { result.width ≡ 1 }
        ensures word { result.word ≡ (if holds then 1 else 0) }
    {
        Bits {
            width: 1,
            word: if holds { 1 } else { 0 },
        }
    }

    /// Whether the sign bit, which is the highest, is 1.
    pub fn is_negative(self) -> bool
        ensures { IsTrue result ↔ (2 ^ (self.width - 1) ≤ self.word) }
    {
        self.word >> (self.width - 1) != 0
    }
}

/// The word whose lowest `width` bits are 1.
pub(crate) fn ones(width: u32) -> Word
    requires { IsWidth width }
    ensures { result ≡ 2 ^ width - 1 }
{
    Word::MAX >> (MAX_WIDTH - width)
}
