//! Signs: operators and punctuation.

ghost use Rattle.std.specs.Prelude.{◌≡◌, ◌<◌, ◌≤◌, ℕ, ◌||◌, length, take, false, true};
ghost use Rattle.std.specs.List.{list_any};
ghost use Rattle.std.specs.Str.{bytes_eq};
ghost use Rattle.std.specs.Map.{keys_of};
ghost use Rattle.sv_base.specs.Operators.{unary_rows, binary_rows, is_refused_operator};
ghost use Rattle.sv_lexer.specs.Piece.{is_sign, punctuation};

use sv_base::{Binary, Unary, is_refused_operator};

/// The signs that are no operators, those with two bytes first (5.3, 11.4.2, 11.5.1).
const PUNCTUATION: [&str; 20] = [
    "+:", "-:", "++", "--", "+=", "-=", "(", ")", "[", "]", "{", "}", ";", ":", ",", ".", "#", "@",
    "?", "=",
];

fn is_among(texts: &[&str], piece: &[u8]) -> bool
    ensures { result ≡ list_any (λ text. bytes_eq piece.now text.now) texts.now }
{
    texts.iter().any(|text| piece == text.as_bytes())
}

fn is_punctuation(piece: &[u8]) -> bool
    ensures { result ≡ list_any (bytes_eq piece.now) punctuation }
{
    is_among(&PUNCTUATION, piece)
}

fn is_unary(piece: &[u8]) -> bool
    ensures { result ≡ list_any (bytes_eq piece.now) (keys_of unary_rows) }
{
    Unary::of(piece).is_some()
}

fn is_binary(piece: &[u8]) -> bool
    ensures { result ≡ list_any (bytes_eq piece.now) (keys_of binary_rows) }
{
    Binary::of(piece).is_some()
}

/// Whether the piece stands in one of the four tables.
fn is_in_tables(piece: &[u8]) -> bool
    ensures { result ≡ (list_any (bytes_eq piece.now) (keys_of unary_rows)
        || (list_any (bytes_eq piece.now) (keys_of binary_rows)
        || (is_refused_operator piece.now || list_any (bytes_eq piece.now) punctuation))) }
{
    is_unary(piece) || is_binary(piece) || is_refused_operator(piece) || is_punctuation(piece)
}

pub fn is_sign(piece: &[u8]) -> bool
    ensures { result ≡ is_sign piece.now }
{
    is_in_tables(piece)
}

fn has_sign(bytes: &[u8], len: usize) -> bool
    ensures yes { result ≡ true → (len ≤ length bytes.now) × (is_sign (take len bytes.now) ≡ true) }
    ensures none { result ≡ false → len ≤ length bytes.now → is_sign (take len bytes.now) ≡ false }
{
    len <= bytes.len() && is_sign(&bytes[..len])
}

/// The length of the longest sign at the front, where its first byte is one.
pub fn sign_len(bytes: &[u8]) -> usize
    requires some { 0 < length bytes.now }
    requires sign { is_sign (take 1 bytes.now) ≡ true }
    ensures some { 0 < result }
    ensures within { result ≤ length bytes.now }
    ensures sign { is_sign (take result bytes.now) ≡ true }
    ensures longest { (m : ℕ) → result < m → m ≤ length bytes.now → is_sign (take m bytes.now) ≡ false }
{
    if has_sign(bytes, 3) {
        3
    } else if has_sign(bytes, 2) {
        2
    } else {
        1
    }
}
