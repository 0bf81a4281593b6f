ghost use Rattle.std.specs.Prelude.{◌≡◌, ◌<◌, ◌≤◌, ◌∷◌, [], ℕ, length, take, drop, MatchOption, slice_index, true, false};
ghost use Rattle.sv_base.specs.Spelling.{begins_name};
ghost use Rattle.sv_lexer.specs.Bytes.{Stops};
ghost use Rattle.sv_lexer.specs.Piece.{HasNoForm, is_sign, is_skipped};
ghost use Rattle.sv_lexer.specs.Scan.{IsFoundAt, IsNameAt, lead_of};

use crate::comment::{block_comment, line_comment};
use crate::form::Form;
use crate::found::Found;
use crate::lead::{Lead, lead_of};
use crate::number::{number, quoted};
use crate::run::{Class, byte_at, run_len};
use crate::sign::sign_len;
use sv_base::spelling::begins_name;

/// The length of the name at the front, if one begins the text.
fn name_len(bytes: &[u8]) -> Option<usize>
    ensures { MatchOption result (Stops begins_name bytes.now) (λ n. IsNameAt n bytes.now) }
{
    if bytes.is_empty() || !begins_name(bytes[0]) {
        None
    } else {
        Some(run_len(Class::Name, bytes))
    }
}

fn is_skipped(word: &[u8]) -> bool
    ensures { result ≡ is_skipped word.now }
{
    word == b"timescale".as_slice()
        || word == b"default_nettype".as_slice()
        || word == b"resetall".as_slice()
}

/// The system name at the front of a text that begins with `$`, if one does.
fn system(bytes: &[u8]) -> Option<Found>
    requires { bytes.now ≡ 36 ∷ drop 1 bytes.now }
    ensures { MatchOption result (HasNoForm bytes.now) (λ found. IsFoundAt found bytes.now) }
{
    let Some(name) = name_len(&bytes[1..]) else {
        return None;
    };
    Some(Found {
        form: Form::System,
        len: name + 1,
    })
}

/// The directive at the front of a text that begins with a backquote, if one does.
fn directive(bytes: &[u8]) -> Option<Found>
    requires { bytes.now ≡ 96 ∷ drop 1 bytes.now }
    ensures { MatchOption result (HasNoForm bytes.now) (λ found. IsFoundAt found bytes.now) }
{
    let text = &bytes[1..];
    let Some(name) = name_len(text) else {
        return None;
    };
    if is_skipped(&text[..name]) {
        Some(Found {
            form: Form::Directive,
            len: name + run_len(Class::Line, &text[name..]) + 1,
        })
    } else {
        Some(Found {
            form: Form::OtherDirective,
            len: name + 1,
        })
    }
}

/// The comment or sign at the front of a text that begins with `/`.
fn slash(bytes: &[u8]) -> Found
    requires { bytes.now ≡ 47 ∷ drop 1 bytes.now }
    ensures { IsFoundAt result bytes.now }
{
    match byte_at(bytes, 1) {
        b'/' => line_comment(bytes),
        b'*' => block_comment(bytes),
        _ => Found {
            form: Form::Sign,
            len: 1,
        },
    }
}

/// The word at the front of a text that begins with a letter or `_`.
fn word(bytes: &[u8]) -> Found
    requires some { 0 < length bytes.now }
    requires letter { begins_name (slice_index bytes.now 0) ≡ true }
    ensures { IsFoundAt result bytes.now }
{
    Found {
        form: Form::Word,
        len: run_len(Class::Name, bytes),
    }
}

/// The sign at the front of a text that begins with one other than `/`.
fn sign(bytes: &[u8]) -> Found
    requires some { 0 < length bytes.now }
    requires lead { lead_of (slice_index bytes.now 0) ≡ Lead.Sign }
    requires sign { is_sign (slice_index bytes.now 0 ∷ []) ≡ true }
    ensures { IsFoundAt result bytes.now }
{
    Found {
        form: Form::Sign,
        len: sign_len(bytes),
    }
}

/// The longest piece at the front of a text, by its form alone, if one is there.
pub fn form_at(bytes: &[u8]) -> Option<Found>
    requires { 0 < length bytes.now }
    ensures { MatchOption result (HasNoForm bytes.now) (λ found. IsFoundAt found bytes.now) }
{
    match lead_of(bytes[0]) {
        Lead::Blank => Some(Found {
            form: Form::Blank,
            len: 1,
        }),
        Lead::Letter => Some(word(bytes)),
        Lead::Digit => Some(number(bytes)),
        Lead::Dollar => system(bytes),
        Lead::Quote => quoted(bytes),
        Lead::Slash => Some(slash(bytes)),
        Lead::Backquote => directive(bytes),
        Lead::Sign => Some(sign(bytes)),
        Lead::Other => None,
    }
}
