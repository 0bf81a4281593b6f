ghost use Rattle.std.specs.Prelude.{◌≡◌, ◌≢◌, ◌≤◌, ◌<◌, length, take, drop, slice_index};
ghost use Rattle.sv_lexer.specs.Bytes as bytes_spec;
ghost use Rattle.sv_lexer.specs.Bytes.{Each, Stops, is_in};

use crate::form::Base;
use bit_ops::Word;
use sv_base::spelling::continues_name;

/// The classes of bytes that runs are made of.
#[derive(Clone, Copy, Debug, PartialEq, Eq)]
pub enum Class {
    Blank,
    /// What a line has, which is any byte but LF.
    Line,
    Name,
    /// Decimal digits and `_`.
    Decimal,
    /// Digits of a base, unknown ones too, and `_`.
    Based(Base),
}

pub fn digit_value(b: u8) -> Word
    ensures value { result ≡ bytes_spec.digit_value b }
    ensures small { result ≤ 16 }
{
    match b {
        b'0'..=b'9' => (b - b'0') as Word,
        b'a'..=b'f' => (b - b'a' + 10) as Word,
        b'A'..=b'F' => (b - b'A' + 10) as Word,
        _ => 16,
    }
}

pub fn is_unknown(b: u8) -> bool
    ensures { result ≡ bytes_spec.is_unknown b }
{
    b == b'x' || b == b'X' || b == b'z' || b == b'Z' || b == b'?'
}

pub fn is_digit_of(base: Base, b: u8) -> bool
    ensures { result ≡ bytes_spec.is_digit_of base b }
{
    digit_value(b) < base.radix() || is_unknown(b)
}

pub fn is_in(class: Class, b: u8) -> bool
    ensures { result ≡ is_in class b }
{
    match class {
        Class::Blank => b == b' ' || b == b'\t' || b == b'\n' || b == 12 || b == b'\r',
        Class::Line => !(b == b'\n'),
        Class::Name => continues_name(b),
        Class::Decimal => b.is_ascii_digit() || b == b'_',
        Class::Based(base) => is_digit_of(base, b) || b == b'_',
    }
}

/// How many bytes at the front are of the class.
pub fn run_len(class: Class, bytes: &[u8]) -> usize
    ensures within { result ≤ length bytes.now }
    ensures run { Each (is_in class) (take result bytes.now) }
    ensures stops { Stops (is_in class) (drop result bytes.now) }
{
    let mut n = 0;
    while n < bytes.len() && is_in(class, bytes[n]) {
        n += 1;
    }
    n
}

/// The byte at this place, and 0 past the end.
pub fn byte_at(bytes: &[u8], at: usize) -> u8
    ensures value { result ≡ slice_index bytes.now at }
    ensures within { result ≢ 0 → at < length bytes.now }
{
    if at < bytes.len() { bytes[at] } else { 0 }
}
