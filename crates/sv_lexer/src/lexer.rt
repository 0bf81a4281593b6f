ghost use Rattle.std.specs.Prelude.{◌≡◌, ◌<◌, ◌≤◌, ◌+◌, ◌++◌, length, slice_index, take, drop, MatchResult, IfOk, IfErr, OnOk};
ghost use Rattle.sv_lexer.specs.Bytes as bytes_spec;
ghost use Rattle.sv_lexer.specs.Cutting.{Fails, IsTokens, IsFaultOf, byte_name};
ghost use Rattle.sv_lexer.specs.Cutting as cutting;
ghost use Rattle.sv_lexer.specs.Scan.{StandsAt, Says, added};

use crate::fault::{Flaw, flaw_of};
use crate::form::Form;
use crate::found::Found;
use crate::scan::form_at;
use crate::token::{LexFault, Token, TokenKind};
use std::alloc::{AllocError, Global};
use sv_base::{Kind, Name, Place, Refusal, Sequence};

fn byte_flaw(bytes: &[u8]) -> Flaw<'_>
    requires { 0 < length bytes.now }
    ensures kind { result.kind ≡ Kind.BadCharacter }
    ensures name { result.name.now ≡ byte_name (slice_index bytes.now 0) }
{
    let name = if bytes[0].is_ascii_graphic() {
        &bytes[..1]
    } else {
        &bytes[..0]
    };
    Flaw {
        kind: Kind::BadCharacter,
        name,
    }
}

/// The piece that stands at the front of a text, or why none does.
fn piece_at(bytes: &[u8]) -> Result<Found, Flaw<'_>>
    requires { 0 < length bytes.now }
    ensures { MatchResult result (λ found. StandsAt found bytes.now) (λ flaw. Fails bytes.now flaw.kind flaw.name.now) }
{
    let Some(found) = form_at(bytes) else {
        return Err(byte_flaw(bytes));
    };
    match flaw_of(found.form, &bytes[..found.len]) {
        Some(flaw) => Err(flaw),
        None => Ok(found),
    }
}

fn kind_of(form: Form) -> Option<TokenKind>
    ensures { result ≡ cutting.kind_of form }
{
    match form {
        Form::Mark => Some(TokenKind::Mark),
        Form::Word => Some(TokenKind::Word),
        Form::System => Some(TokenKind::System),
        Form::Decimal | Form::Based => Some(TokenKind::Number),
        Form::Fill => Some(TokenKind::Fill),
        Form::Sign => Some(TokenKind::Sign),
        Form::Blank | Form::Comment | Form::OpenComment | Form::Directive | Form::OtherDirective =>
            None,
    }
}

fn line_ends(text: &[u8]) -> usize
    ensures value { result ≡ bytes_spec.line_ends text.now }
    ensures within { result ≤ length text.now }
{
    let mut rest = text;
    let mut ends = 0;
    while let [byte, after @ ..] = rest {
        if *byte == b'\n' {
            ends += 1;
        }
        rest = after;
    }
    ends
}

/// The place after so many LFs. A line past the greatest that a place can hold is that one.
fn place_at(file: u32, ends: usize) -> Place
    ensures { result ≡ cutting.place_at file ends }
{
    let line = if ends < 0xffff_ffff {
        ends as u32 + 1
    } else {
        0xffff_ffff
    };
    Place { file, line }
}

/// The text of a token of this kind: its piece as it is spelled. A mark has none.
fn text_of(alloc: Global, kind: TokenKind, piece: &[u8]) -> Result<Name, AllocError>
    ensures { IfOk result (λ text. text ≡ cutting.text_of kind piece.now) }
{
    match kind {
        TokenKind::Mark => Ok(Name::empty(alloc)),
        TokenKind::Word
        | TokenKind::System
        | TokenKind::Number
        | TokenKind::Fill
        | TokenKind::Sign => Name::of(alloc, piece),
    }
}

/// Adds the token that a piece is, if it is one.
fn add_token(
    alloc: Global,
    tokens: &mut Sequence<Token>,
    found: Found,
    piece: &[u8],
    file: u32,
    ends: usize,
) -> Result<(), AllocError>
    ensures { OnOk result (tokens.new ≡ tokens.old ++ added file ends found.form piece.now) }
{
    if let Some(kind) = kind_of(found.form) {
        let text = text_of(alloc, kind, piece)?;
        tokens.push(Token {
            kind,
            text,
            place: place_at(file, ends),
        })?;
    }
    Ok(())
}

fn refused(alloc: Global, flaw: Flaw<'_>, place: Place) -> LexFault
    ensures { Says flaw.entry.kind flaw.entry.name.now place result }
{
    match Name::of(alloc, flaw.name) {
        Ok(name) => LexFault::Refused(Refusal {
            kind: flaw.kind,
            place,
            name,
        }),
        Err(_) => LexFault::NoMemory,
    }
}

/// The text after so many bytes.
fn after(text: &[u8], len: usize) -> &[u8]
    requires { len ≤ length text.now }
    ensures { result.now ≡ drop len text.now }
{
    &text[len..]
}

/// The tokens of a source text in order, each with its place: the words, system names, numbers, fills and
/// signs, and the comments that mark a module. `file` is the number of the file among the words of the
/// command, counted from 1. A text that has no tokens is refused at the first place at which nothing of the
/// language can stand (`docs/tokens.md`). Takes time linear in the bytes.
pub fn lex(alloc: Global, file: u32, bytes: &[u8]) -> Result<Sequence<Token>, LexFault>
    ensures tokens { IfOk result (λ tokens. IsTokens file bytes.now tokens) }
    ensures refused { IfErr result (λ fault. IsFaultOf file bytes.now fault) }
{
    let mut tokens = Sequence::new(alloc);
    let mut rest = bytes;
    let mut ends = 0;
    while !rest.is_empty() {
        let found = match piece_at(rest) {
            Ok(found) => found,
            Err(flaw) => return Err(refused(alloc, flaw, place_at(file, ends))),
        };
        let text = &rest[..found.len];
        add_token(alloc, &mut tokens, found, text, file, ends)?;
        ends += line_ends(text);
        rest = after(rest, found.len);
    }
    Ok(tokens)
}
