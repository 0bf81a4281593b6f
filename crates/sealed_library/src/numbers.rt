//! Reading the fields that have no parts.

ghost use Rattle.std.specs.Prelude.{◌≡◌, ◌<◌, ◌≤◌, ◌^◌, nat_lt, IfOk};
ghost use Rattle.std.specs.Int.{w8, w16, w32, w64};
ghost use Rattle.bit_ops.specs.Width.{IsWidth};
ghost use Rattle.sealed_library.specs.Fields.{number, bytes_of};
ghost use Rattle.sealed_library.specs.Version1.{width_field, word_field, class_field, class_of, flag_field, flag_of, operation_field, chain_field};
ghost use Rattle.sealed_library.specs.declared.limits.TheConstants.{CHAIN_LIMIT, DIGEST_LENGTH};
ghost use Rattle.sealed_library.specs.code.Reading.{Gives};

use crate::fault::{FormatFault, Unread};
use crate::limits::{CHAIN_LIMIT, DIGEST_LENGTH};
use crate::operations::operation_of;
use bit_ops::{Bits, MAX_WIDTH, Op, Word};
use sv_base::Class;

/// This many bytes, and those behind them.
pub fn bytes_at(count: usize, bytes: &[u8]) -> Result<(&[u8], &[u8]), Unread>
    ensures { Gives (λ x. (x.0.now, x.1.now)) result ((bytes_of count).read bytes.now) }
{
    if bytes.len() < count {
        return Err(Unread::Refused(FormatFault::Truncated));
    }
    Ok(bytes.split_at(count))
}

pub fn u8_at(bytes: &[u8]) -> Result<(u8, &[u8]), Unread>
    ensures { Gives (λ x. (x.0, x.1.now)) result ((number w8).read bytes.now) }
{
    if bytes.len() < 1 {
        return Err(Unread::Refused(FormatFault::Truncated));
    }
    let (front, rest) = bytes.split_at(1);
    Ok((front[0], rest))
}

pub fn u16_at(bytes: &[u8]) -> Result<(u16, &[u8]), Unread>
    ensures { Gives (λ x. (x.0, x.1.now)) result ((number w16).read bytes.now) }
{
    if bytes.len() < 2 {
        return Err(Unread::Refused(FormatFault::Truncated));
    }
    let (front, rest) = bytes.split_at(2);
    let number = u16::from_be_bytes([front[0], front[1]]);
    Ok((number, rest))
}

pub fn u32_at(bytes: &[u8]) -> Result<(u32, &[u8]), Unread>
    ensures { Gives (λ x. (x.0, x.1.now)) result ((number w32).read bytes.now) }
{
    if bytes.len() < 4 {
        return Err(Unread::Refused(FormatFault::Truncated));
    }
    let (front, rest) = bytes.split_at(4);
    let number = u32::from_be_bytes([front[0], front[1], front[2], front[3]]);
    Ok((number, rest))
}

pub fn u64_at(bytes: &[u8]) -> Result<(u64, &[u8]), Unread>
    ensures { Gives (λ x. (x.0, x.1.now)) result ((number w64).read bytes.now) }
{
    if bytes.len() < 8 {
        return Err(Unread::Refused(FormatFault::Truncated));
    }
    let (front, rest) = bytes.split_at(8);
    let number = u64::from_be_bytes([
        front[0], front[1], front[2], front[3], front[4], front[5], front[6], front[7],
    ]);
    Ok((number, rest))
}

/// The bytes of a SHA-256.
pub fn digest_at(bytes: &[u8]) -> Result<([u8; 32], &[u8]), Unread>
    ensures { Gives (λ x. (x.0, x.1.now)) result ((bytes_of DIGEST_LENGTH).read bytes.now) }
{
    if bytes.len() < DIGEST_LENGTH {
        return Err(Unread::Refused(FormatFault::Truncated));
    }
    let (digest, rest) = bytes.split_at(DIGEST_LENGTH);
    let mut copy = [0; 32];
    copy.copy_from_slice(digest);
    Ok((copy, rest))
}

/// A width, from 1 to `MAX_WIDTH`.
#[tactic(auto, unfolding(crate::specs::Version1::width_field))]
pub fn width_at(bytes: &[u8]) -> Result<(u32, &[u8]), Unread>
    ensures read { Gives (λ x. (x.0, x.1.now)) result (width_field.read bytes.now) }
    ensures width { IfOk result (λ x. IsWidth x.0) }
{
    let (number, rest) = u8_at(bytes)?;
    let width = u32::from(number);
    if 1 <= width && width <= MAX_WIDTH {
        Ok((width, rest))
    } else {
        Err(Unread::Refused(FormatFault::BadField))
    }
}

/// A word that a width holds.
#[tactic(auto, unfolding(crate::specs::Version1::word_field))]
pub fn word_at(width: u32, bytes: &[u8]) -> Result<(Word, &[u8]), Unread>
    requires { IsWidth width }
    ensures read { Gives (λ x. (x.0, x.1.now)) result ((word_field width).read bytes.now) }
    ensures fits { IfOk result (λ x. x.0 < 2 ^ width) }
{
    let (number, rest) = u64_at(bytes)?;
    if holds(width, number) {
        Ok((number, rest))
    } else {
        Err(Unread::Refused(FormatFault::BadField))
    }
}

/// Whether a width holds a word.
fn holds(width: u32, word: Word) -> bool
    requires { IsWidth width }
    ensures { result ≡ nat_lt word (2 ^ width) }
{
    Bits::truncated(width, word).word == word
}

fn class_of(number: u8) -> Option<Class>
    ensures { result ≡ class_of number }
{
    match number {
        0 => Some(Class::Value),
        1 => Some(Class::Clock),
        2 => Some(Class::Idle),
        3 => Some(Class::Output),
        _ => None,
    }
}

#[tactic(auto, unfolding(crate::specs::Version1::class_field))]
pub fn class_at(bytes: &[u8]) -> Result<(Class, &[u8]), Unread>
    ensures { Gives (λ x. (x.0, x.1.now)) result (class_field.read bytes.now) }
{
    let (number, rest) = u8_at(bytes)?;
    match class_of(number) {
        Some(class) => Ok((class, rest)),
        None => Err(Unread::Refused(FormatFault::BadField)),
    }
}

fn flag_of(number: u8) -> Option<bool>
    ensures { result ≡ flag_of number }
{
    match number {
        0 => Some(false),
        1 => Some(true),
        _ => None,
    }
}

#[tactic(auto, unfolding(crate::specs::Version1::flag_field))]
pub fn flag_at(bytes: &[u8]) -> Result<(bool, &[u8]), Unread>
    ensures { Gives (λ x. (x.0, x.1.now)) result (flag_field.read bytes.now) }
{
    let (number, rest) = u8_at(bytes)?;
    match flag_of(number) {
        Some(flag) => Ok((flag, rest)),
        None => Err(Unread::Refused(FormatFault::BadField)),
    }
}

#[tactic(auto, unfolding(crate::specs::Version1::operation_field))]
pub fn operation_at(bytes: &[u8]) -> Result<(Op, &[u8]), Unread>
    ensures { Gives (λ x. (x.0, x.1.now)) result (operation_field.read bytes.now) }
{
    let (number, rest) = u8_at(bytes)?;
    match operation_of(number) {
        Some(op) => Ok((op, rest)),
        None => Err(Unread::Refused(FormatFault::BadField)),
    }
}

/// A chain, of at most `CHAIN_LIMIT`.
pub fn chain_at(bytes: &[u8]) -> Result<(u32, &[u8]), Unread>
    ensures read { Gives (λ x. (x.0, x.1.now)) result (chain_field.read bytes.now) }
    ensures chain { IfOk result (λ x. x.0 ≤ CHAIN_LIMIT) }
{
    let (chain, rest) = u32_at(bytes)?;
    if chain <= CHAIN_LIMIT {
        Ok((chain, rest))
    } else {
        Err(Unread::Refused(FormatFault::BadField))
    }
}
