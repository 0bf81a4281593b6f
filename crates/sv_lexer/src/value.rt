ghost use Rattle.std.specs.Prelude.{◌≡◌, ◌<◌, ◌≤◌, ◌+◌, ◌*◌, ◌^◌, length, MatchOption, true, false};
ghost use Rattle.bit_ops.specs.declared.value.TheConstants.{MAX_WIDTH};
ghost use Rattle.sv_lexer.specs.Bytes as bytes_spec;
ghost use Rattle.sv_lexer.specs.Piece as piece_spec;

use crate::form::Base;
use crate::run::{digit_value, is_unknown};
use bit_ops::{MAX_WIDTH, Word};
use sv_base::Kind;

/// One more digit, where a word holds the value.
fn with_digit(value: Word, radix: Word, digit: Word) -> Option<Word>
    ensures { MatchOption result (2 ^ MAX_WIDTH ≤ value * radix + digit) (λ v. v ≡ value * radix + digit) }
{
    value.checked_mul(radix)?.checked_add(digit)
}

/// The number that digits of this radix spell, with each `_` passed over, where a word holds it. No digit spells 0. A byte
/// that is no digit counts 16 (IEEE 1800-2017, 5.7.1).
pub fn value_of_digits(radix: Word, digits: &[u8]) -> Option<Word>
    requires { 1 ≤ radix }
    ensures { MatchOption
        result
        (2 ^ MAX_WIDTH ≤ bytes_spec.spelled radix digits.now)
        (λ v. v ≡ bytes_spec.spelled radix digits.now) }
{
    let mut value = 0;
    for digit in digits {
        if *digit != b'_' {
            value = with_digit(value, radix, digit_value(*digit))?;
        }
    }
    Some(value)
}

/// What is wrong with a decimal number.
pub fn decimal_fault(piece: &[u8]) -> Option<Kind>
    ensures { result ≡ piece_spec.decimal_fault piece.now }
{
    match value_of_digits(10, piece) {
        Some(value) if value <= 2147483647 => None,
        _ => Some(Kind::BadNumber),
    }
}

fn has_unknown(digits: &[u8]) -> bool
    ensures { result ≡ piece_spec.has_unknown digits.now }
{
    digits.iter().any(|digit| is_unknown(*digit))
}

/// The value of the digits, where they are allowed.
fn good_value(base: Base, digits: &[u8]) -> Option<Word>
    ensures { MatchOption result (piece_spec.has_bad_digits base digits.now ≡ true)
        (λ v. (piece_spec.has_bad_digits base digits.now ≡ false) × (v ≡ bytes_spec.spelled (bytes_spec.radix base) digits.now)) }
{
    if digits.is_empty() || has_unknown(digits) {
        None
    } else {
        value_of_digits(base.radix(), digits)
    }
}

fn size_fault(size: &[u8]) -> Option<Kind>
    ensures { result ≡ piece_spec.size_fault size.now }
{
    match value_of_digits(10, size) {
        Some(0) => Some(Kind::BadNumber),
        Some(width) if width <= Word::from(MAX_WIDTH) => None,
        _ => Some(Kind::TooWide),
    }
}

/// What is wrong with a based number of this size, base and digits. Bad digits come before a bad size.
pub fn based_fault(size: &[u8], base: Base, digits: &[u8]) -> Option<Kind>
    ensures { result ≡ piece_spec.based_fault size.now base digits.now }
{
    let Some(value) = good_value(base, digits) else {
        return Some(Kind::BadNumber);
    };
    if !size.is_empty() {
        size_fault(size)
    } else if value <= 0xffff_ffff {
        None
    } else {
        Some(Kind::BadNumber)
    }
}
