ghost use Rattle.std.specs.Prelude.{◌≡◌, ◌≢◌, ◌⊎◌, ◌<◌, ◌≤◌, [], ◌∷◌, length, take, drop, MatchOption, slice_index, true, false, None, ◌+◌, ℕ};
ghost use Rattle.sv_lexer.specs.Bytes.{Stops};
ghost use Rattle.sv_lexer.specs.Piece.{base_of, IsDigits, HasNoForm};
ghost use Rattle.sv_lexer.specs.Scan.{IsFoundAt, IsTailAt, IsHeadAt, HasNoHead, DigitsStop};
ghost use Rattle.std.specs.Char.{is_ascii_digit};

use crate::form::{Base, Form};
use crate::found::Found;
use crate::run::{Class, byte_at, is_digit_of, run_len};

/// The part of a based number that says its base: `'`, an optional `s`, and the base letter.
#[derive(Clone, Copy, Debug)]
pub struct Head {
    pub base: Base,
    pub len: usize,
}

fn head_with(bytes: &[u8], letter_at: usize) -> Option<Head>
    requires { letter_at ≤ 2 }
    ensures { MatchOption result (base_of (slice_index bytes.now letter_at) ≡ None)
        (λ h. (base_of (slice_index bytes.now letter_at) ≡ Some h.base) × (h.len ≡ letter_at + 1)) }
{
    let base = Base::of(byte_at(bytes, letter_at))?;
    Some(Head {
        base,
        len: letter_at + 1,
    })
}

/// The part with the base at the front, if one begins the text.
pub fn head_at(bytes: &[u8]) -> Option<Head>
    ensures { MatchOption result (HasNoHead bytes.now) (λ h. IsHeadAt h.base h.len bytes.now) }
{
    if byte_at(bytes, 0) != b'\'' {
        return None;
    }
    let next = byte_at(bytes, 1);
    if next == b's' || next == b'S' {
        head_with(bytes, 2)
    } else {
        head_with(bytes, 1)
    }
}

fn digits_len(base: Base, bytes: &[u8]) -> usize
    ensures within { result ≤ length bytes.now }
    ensures digits { IsDigits base (take result bytes.now) }
    ensures stops { DigitsStop base (take result bytes.now) (drop result bytes.now) }
{
    if bytes.is_empty() || !is_digit_of(base, bytes[0]) {
        0
    } else {
        run_len(Class::Based(base), bytes)
    }
}

/// The length of the longest part of a based number after its size, if one begins the text.
pub fn tail_len(bytes: &[u8]) -> Option<usize>
    ensures { MatchOption result (HasNoHead bytes.now) (λ n. IsTailAt n bytes.now) }
{
    let head = head_at(bytes)?;
    Some(head.len + digits_len(head.base, &bytes[head.len..]))
}

/// The number at the front of a text that begins with a digit.
pub fn number(bytes: &[u8]) -> Found
    requires some { 0 < length bytes.now }
    requires digit { is_ascii_digit (slice_index bytes.now 0) ≡ true }
    ensures { IsFoundAt result bytes.now }
{
    let size = run_len(Class::Decimal, bytes);
    match tail_len(&bytes[size..]) {
        Some(tail) => Found {
            form: Form::Based,
            len: size + tail,
        },
        None => Found {
            form: Form::Decimal,
            len: size,
        },
    }
}

fn is_bit(b: u8) -> bool
    ensures yes { result ≡ true → (b ≡ 48) ⊎ (b ≡ 49) }
    ensures none { result ≡ false → (b ≢ 48) × (b ≢ 49) }
{
    b == b'0' || b == b'1'
}

/// The number without a size or the fill at the front of a text that begins with `'`, if one does.
pub fn quoted(bytes: &[u8]) -> Option<Found>
    requires { bytes.now ≡ 39 ∷ drop 1 bytes.now }
    ensures { MatchOption result (HasNoForm bytes.now) (λ found. IsFoundAt found bytes.now) }
{
    if let Some(len) = tail_len(bytes) {
        return Some(Found {
            form: Form::Based,
            len,
        });
    }
    if !is_bit(byte_at(bytes, 1)) {
        return None;
    }
    Some(Found {
        form: Form::Fill,
        len: 2,
    })
}
