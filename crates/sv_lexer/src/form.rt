//! The forms of pieces, and the bases of numbers.

ghost use Rattle.std.specs.Prelude.{◌≡◌, ◌≤◌};
ghost use Rattle.sv_lexer.specs.Bytes.{radix};
ghost use Rattle.sv_lexer.specs.Piece.{base_of};

use bit_ops::Word;

/// What the bytes of a piece are, by their form alone.
#[derive(Clone, Copy, Debug, PartialEq, Eq)]
pub enum Form {
    Blank,
    Comment,
    Mark,
    OpenComment,
    /// A directive that is skipped with the rest of its line.
    Directive,
    /// Another directive, which is refused.
    OtherDirective,
    Word,
    System,
    Decimal,
    Based,
    Fill,
    Sign,
}

/// The base of a number, which its base letter says (IEEE 1800-2017, 5.7.1).
#[derive(Clone, Copy, Debug, PartialEq, Eq)]
pub enum Base {
    Binary,
    Octal,
    Decimal,
    Hexadecimal,
}

impl Base {
    /// The base that a letter says, in either case.
    pub fn of(letter: u8) -> Option<Base>
        ensures { result ≡ base_of letter }
    {
        match letter {
            b'b' | b'B' => Some(Base::Binary),
            b'o' | b'O' => Some(Base::Octal),
            b'd' | b'D' => Some(Base::Decimal),
            b'h' | b'H' => Some(Base::Hexadecimal),
            _ => None,
        }
    }

    /// How many digits the base has.
    pub fn radix(self) -> Word
        ensures value { result ≡ radix self }
        ensures some { 1 ≤ result }
        ensures small { result ≤ 16 }
    {
        match self {
            Base::Binary => 2,
            Base::Octal => 8,
            Base::Decimal => 10,
            Base::Hexadecimal => 16,
        }
    }
}
