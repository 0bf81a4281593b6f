//! The sorts of tokens that the grammar of a file tells apart.

ghost use Rattle.std.specs.Prelude.{◌≡◌, map};
ghost use Rattle.std.specs.List.{list_any};
ghost use Rattle.std.specs.Str.{bytes_eq};
ghost use Rattle.module_parser.specs.Words as spec;
ghost use Rattle.expr_parser.specs.Spelling as spelling;

use expr_parser::{is_identifier, is_this};
use sv_lexer::{Token, TokenKind};

fn contains(texts: &[&str], text: &[u8]) -> bool
    ensures { result ≡ list_any (λ t. bytes_eq text.now t.now) texts.now }
{
    texts.iter().any(|t| text == t.as_bytes())
}

fn is_among(texts: &[&str], text: &[u8]) -> bool
    ensures { result ≡ spelling.is_among (map (λ t. t.now) texts.now) text.now }
{
    contains(texts, text)
}

fn is_word(token: &Token) -> bool
    ensures { result ≡ spelling.is_word token.now.kind }
{
    matches!(token.kind, TokenKind::Word)
}

fn is_sign(token: &Token) -> bool
    ensures { result ≡ spelling.is_sign token.now.kind }
{
    matches!(token.kind, TokenKind::Sign)
}

/// Whether the token is this reserved word.
#[tactic(auto, unfolding(crate::specs::Words::is_keyword))]
pub fn is_keyword(text: &str, token: &Token) -> bool
    ensures { result ≡ spec.is_keyword text.now token.now }
{
    is_word(token) && token.text.bytes() == text.as_bytes()
}

/// Whether the token is one of these reserved words.
#[tactic(auto, unfolding(crate::specs::Words::is_keyword_of))]
pub fn is_keyword_of(texts: &[&str], token: &Token) -> bool
    ensures { result ≡ spec.is_keyword_of (map (λ t. t.now) texts.now) token.now }
{
    is_word(token) && is_among(texts, token.text.bytes())
}

/// Whether the token is one of these signs.
#[tactic(auto, unfolding(crate::specs::Words::is_sign_of))]
pub fn is_sign_of(texts: &[&str], token: &Token) -> bool
    ensures { result ≡ spec.is_sign_of (map (λ t. t.now) texts.now) token.now }
{
    is_sign(token) && is_among(texts, token.text.bytes())
}

/// Whether the token is this name.
#[tactic(auto, unfolding(crate::specs::Words::is_named))]
pub fn is_named(name: &[u8], token: &Token) -> bool
    ensures { result ≡ spec.is_named name.now token.now }
{
    is_word(token) && token.text.bytes() == name
}

/// Whether a target begins with the token.
#[tactic(auto, unfolding(crate::specs::Words::begins_target))]
pub fn begins_target(token: &Token) -> bool
    ensures { result ≡ spec.begins_target token.now }
{
    is_identifier(token) || is_this("{", token)
}
