//! The words of a text.

ghost use Rattle.std.specs.Prelude.{◌≡◌, ◌<◌, ◌≤◌, ◌^◌, false, length, IfOk};
ghost use Rattle.bit_ops.specs.Width.{IsWidth};

use crate::fault::TextFault;
use bit_ops::{Bits, MAX_WIDTH, Word};

/// The words of a text that were not read yet. Blanks, ends of lines and slashes stand between them.
#[derive(Drop)]
pub struct Words<'a> {
    rest: &'a [u8],
}

fn is_blank(byte: u8) -> bool {
    matches!(byte, b' ' | b'\n' | b'/')
}

/// How many bytes at the front are blanks, or are none.
fn run_of(bytes: &[u8], blank: bool) -> usize
    ensures { result ≤ length bytes.now }
{
    for (k, byte) in bytes.iter().enumerate() {
        if is_blank(*byte) != blank {
            return k;
        }
    }
    bytes.len()
}

fn digit_of(byte: u8) -> Option<u64> {
    if byte.is_ascii_digit() {
        Some(u64::from(byte - b'0'))
    } else {
        None
    }
}

/// The decimal number that a word spells.
fn number_of(word: &[u8]) -> Option<u64> {
    if word.is_empty() {
        return None;
    }
    let mut value: u64 = 0;
    for byte in word {
        value = value.checked_mul(10)?.checked_add(digit_of(*byte)?)?;
    }
    Some(value)
}

impl<'a> Words<'a> {
    pub fn of(text: &'a str) -> Words<'a> {
        Words {
            rest: text.as_bytes(),
        }
    }

    /// The next word, which is empty where none is left.
    pub fn word(&mut self) -> &'a [u8] {
        let (_, rest) = self.rest.split_at(run_of(self.rest, true));
        let (word, rest) = rest.split_at(run_of(rest, false));
        self.rest = rest;
        word
    }

    /// The next word as a number.
    pub fn number(&mut self) -> Result<u64, TextFault> {
        number_of(self.word()).ok_or(TextFault::WrongWord)
    }

    /// The next word as a number below this one.
    pub fn below(&mut self, end: u64) -> Result<u64, TextFault>
        ensures { IfOk result (λ n. n < end) }
    {
        let number = self.number()?;
        if number < end {
            Ok(number)
        } else {
            Err(TextFault::WrongWord)
        }
    }

    /// The next word as a width.
    pub fn width(&mut self) -> Result<u32, TextFault>
        ensures { IfOk result IsWidth }
    {
        let width = self.below(u64::from(MAX_WIDTH) + 1)? as u32;
        if width == 0 {
            Err(TextFault::WrongWord)
        } else {
            Ok(width)
        }
    }

    /// The next word as a value of this width.
    pub fn value(&mut self, width: u32) -> Result<Word, TextFault>
        requires { IsWidth width }
        ensures { IfOk result (λ word. word < 2 ^ width) }
    {
        let number = self.number()?;
        let word = Bits::truncated(width, number).word;
        if word == number {
            Ok(word)
        } else {
            Err(TextFault::WrongWord)
        }
    }

    /// The next word as a number where one stands here, and else 0.
    pub fn number_if(&mut self, stands: bool) -> Result<u64, TextFault>
        ensures { IfOk result (λ n. stands ≡ false → n ≡ 0) }
    {
        if stands { self.number() } else { Ok(0) }
    }
}
