//! Reading the parts of a line at the front of some bytes.

ghost use Rattle.std.specs.Prelude.{◌≡◌, ◌≤◌};
ghost use Rattle.std.specs.Bool.{OnTrue};
ghost use Rattle.std.specs.List.{position};
ghost use Rattle.std.specs.Option.{option_map};
ghost use Rattle.dpi_wrapper.specs.code.Reading.{Gives, behind, is_blank, word_at, is_digit, with_digit, number_at, class_of, sign_of, digest_at};

use crate::good::DIGEST_LENGTH;
use crate::unread::Unread;
use hex::FromHex;
use sv_base::Class;

/// The bytes behind a front, where it stands there.
#[tactic(auto, unfolding(crate::specs::code::Reading::behind))]
pub fn after<'a>(bytes: &'a [u8], front: &[u8]) -> Option<&'a [u8]>
    ensures { option_map (λ rest. rest.now) result ≡ behind front.now bytes.now }
{
    bytes.strip_prefix(front)
}

/// The bytes behind a front.
pub fn behind<'a>(bytes: &'a [u8], front: &[u8]) -> Result<&'a [u8], Unread>
    ensures { Gives (λ rest. rest.now) result (behind front.now bytes.now) }
{
    match after(bytes, front) {
        Some(rest) => Ok(rest),
        None => Err(Unread::NoFace),
    }
}

fn blank_at(bytes: &[u8]) -> Option<usize>
    ensures { result ≡ position is_blank bytes.now }
{
    bytes.iter().position(|b| *b == b' ')
}

/// The bytes before the first blank, and those behind it.
pub fn word_at(bytes: &[u8]) -> Result<(&[u8], &[u8]), Unread>
    ensures { Gives (λ x. (x.0.now, x.1.now)) result (word_at bytes.now) }
{
    match blank_at(bytes) {
        Some(at) => {
            let (word, _) = bytes.split_at(at);
            let (_, rest) = bytes.split_at(at + 1);
            Ok((word, rest))
        }
        None => Err(Unread::NoFace),
    }
}

fn is_digit(byte: u8) -> bool
    ensures value { result ≡ is_digit byte }
    ensures above { OnTrue result (48 ≤ byte) }
{
    matches!(byte, b'0'..=b'9')
}

fn with_digit(number: u32, digit: u8) -> Result<u32, Unread>
    requires { 48 ≤ digit }
    ensures { Gives (λ x. x) result (with_digit number digit) }
{
    let next = u64::from(number) * 10 + u64::from(digit - b'0');
    if next <= u64::from(u32::MAX) {
        Ok(next as u32)
    } else {
        Err(Unread::NoFace)
    }
}

/// The number whose digits stand at the front, and the bytes behind them.
pub fn number_at(bytes: &[u8]) -> Result<(u32, &[u8]), Unread>
    ensures { Gives (λ x. (x.0, x.1.now)) result (number_at bytes.now) }
{
    let mut number: u32 = 0;
    for (at, digit) in bytes.iter().enumerate() {
        if !is_digit(*digit) {
            return Ok((number, &bytes[at..]));
        }
        number = with_digit(number, *digit)?;
    }
    Ok((number, &bytes[bytes.len()..]))
}

#[tactic(auto, unfolding(crate::specs::code::Reading::class_of))]
pub fn class_of(word: &[u8]) -> Result<Class, Unread>
    ensures { Gives (λ x. x) result (class_of word.now) }
{
    if word == b"data".as_slice() {
        return Ok(Class::Value);
    }
    if word == b"clock".as_slice() {
        return Ok(Class::Clock);
    }
    if word == b"idle".as_slice() {
        return Ok(Class::Idle);
    }
    if word == b"output".as_slice() {
        return Ok(Class::Output);
    }
    Err(Unread::NoFace)
}

#[tactic(auto, unfolding(crate::specs::code::Reading::sign_of))]
pub fn sign_of(word: &[u8]) -> Result<bool, Unread>
    ensures { Gives (λ x. x) result (sign_of word.now) }
{
    if word == b"s".as_slice() {
        return Ok(true);
    }
    if word == b"u".as_slice() {
        return Ok(false);
    }
    Err(Unread::NoFace)
}

/// The digest whose digits, of either case, stand at the front, and the bytes behind them.
#[tactic(auto, unfolding(crate::specs::code::Reading::digest_at))]
pub fn digest_at(bytes: &[u8]) -> Result<([u8; 32], &[u8]), Unread>
    ensures { Gives (λ x. (x.0, x.1.now)) result (digest_at bytes.now) }
{
    if bytes.len() < 2 * DIGEST_LENGTH {
        return Err(Unread::NoFace);
    }
    let (digits, rest) = bytes.split_at(2 * DIGEST_LENGTH);
    match <[u8; 32] as FromHex>::from_hex(digits) {
        Ok(digest) => Ok((digest, rest)),
        Err(_) => Err(Unread::NoFace),
    }
}
