//! Numbers and fills, by their texts (IEEE 1800-2017, 5.7.1).

ghost use Rattle.std.specs.Prelude.{◌≡◌, ◌≤◌, ◌^◌, ◌==◌, MatchOption, option_map, position};
ghost use Rattle.bit_ops.specs.declared.value.TheConstants.{MAX_WIDTH};
ghost use Rattle.const_eval.specs.Literal as spec;
ghost use Rattle.const_eval.specs.code.Agreeing.{literal_of};

use crate::env::Const;
use bit_ops::{Bits, MAX_WIDTH, Word};
use sv_lexer::{Base, value_of_digits};

/// The digits of a radix cut to a size, where a value may have it.
fn cut(size: Word, signed: bool, radix: Word, digits: &[u8]) -> Option<Const>
    requires { 1 ≤ radix }
    ensures { option_map literal_of result ≡ spec.cut_to size signed radix digits.now }
{
    let word = value_of_digits(radix, digits)?;
    if size == 0 || size > Word::from(MAX_WIDTH) {
        return None;
    }
    Some(Const {
        value: Bits::truncated(size as u32, word),
        signed,
    })
}

fn with_base(size: Word, signed: bool, text: &[u8]) -> Option<Const>
    ensures { option_map literal_of result ≡ spec.with_base size signed text.now }
{
    match text {
        [] => None,
        [letter, digits @ ..] => cut(size, signed, Base::of(*letter)?.radix(), digits),
    }
}

/// What stands behind the `'` of a number of a size.
fn behind_quote(size: Word, text: &[u8]) -> Option<Const>
    ensures { option_map literal_of result ≡ spec.behind_quote size text.now }
{
    match text {
        [] => None,
        [b's' | b'S', rest @ ..] => with_base(size, true, rest),
        _ => with_base(size, false, text),
    }
}

/// The size before a `'`, where a word holds it.
fn size(digits: &[u8]) -> Option<Word>
    ensures { MatchOption result (2 ^ MAX_WIDTH ≤ spec.size_of digits.now)
        (λ v. v ≡ spec.size_of digits.now) }
{
    if digits.is_empty() {
        Some(32)
    } else {
        value_of_digits(10, digits)
    }
}

/// Where the first `'` stands.
fn first_quote(text: &[u8]) -> Option<usize>
    ensures { result ≡ position (λ b. b == 39) text.now }
{
    text.iter().position(|b| *b == b'\'')
}

/// What the text of a number means: nothing where it is no number.
pub fn number(text: &[u8]) -> Option<Const>
    ensures { option_map literal_of result ≡ spec.number_of text.now }
{
    match first_quote(text) {
        None => cut(32, true, 10, text),
        Some(quote) => behind_quote(size(&text[..quote])?, &text[quote + 1..]),
    }
}

/// Whether a fill is of 1 or of 0: nothing where the text is no fill.
pub fn fill(text: &[u8]) -> Option<bool>
    ensures { result ≡ spec.fill_of text.now }
{
    match text {
        b"'1" => Some(true),
        b"'0" => Some(false),
        _ => None,
    }
}
