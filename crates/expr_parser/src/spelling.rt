//! What tokens are to the grammar, by their kind and spelling.

ghost use Rattle.std.specs.Prelude.{◌≡◌, ◌≤◌};
ghost use Rattle.sv_base.specs.declared.operator.TheConstants.{TIGHTEST};
ghost use Rattle.expr_parser.specs.Spelling as spec;

use sv_base::{Binary, Function, Grouping, TIGHTEST, Unary, is_refused_operator, spelling};
use sv_lexer::{Token, TokenKind};

/// How tightly an operator between two operands binds, and 0 for any other text (11.3.2).
#[tactic(auto, unfolding(crate::specs::Spelling::precedence))]
fn precedence(text: &[u8]) -> u8
    ensures value { result ≡ spec.precedence text.now }
    ensures greatest { result ≤ TIGHTEST }
{
    match Binary::of(text) {
        None => 0,
        Some(operator) => operator.level().tightness(),
    }
}

/// Whether the token is a mark, which is none of the grammar.
pub fn is_mark(token: &Token) -> bool
    ensures { result ≡ spec.is_mark token.now.kind }
{
    matches!(token.kind, TokenKind::Mark)
}

pub fn is_number(token: &Token) -> bool
    ensures { result ≡ spec.is_number token.now.kind }
{
    matches!(token.kind, TokenKind::Number)
}

pub fn is_fill(token: &Token) -> bool
    ensures { result ≡ spec.is_fill token.now.kind }
{
    matches!(token.kind, TokenKind::Fill)
}

fn is_sign(token: &Token) -> bool
    ensures { result ≡ spec.is_sign token.now.kind }
{
    matches!(token.kind, TokenKind::Sign)
}

/// Whether the token is a name.
#[tactic(auto, unfolding(crate::specs::Spelling::is_identifier))]
pub fn is_identifier(token: &Token) -> bool
    ensures { result ≡ spec.is_identifier token.now }
{
    let text = token.text.bytes();
    matches!(token.kind, TokenKind::Word) && !spelling::is_reserved(text)
}

/// Whether the token names a system function of the subset.
#[tactic(auto, unfolding(crate::specs::Spelling::is_function))]
pub fn is_function(token: &Token) -> bool
    ensures { result ≡ spec.is_function token.now }
{
    matches!(token.kind, TokenKind::System) && Function::of(token.text.bytes()).is_some()
}

/// Whether the token is a sign that may stand before an operand.
#[tactic(auto, unfolding(crate::specs::Spelling::is_unary))]
pub fn is_unary(token: &Token) -> bool
    ensures { result ≡ spec.is_unary token.now }
{
    is_sign(token) && Unary::of(token.text.bytes()).is_some()
}

/// Whether the token is this sign.
#[tactic(auto, unfolding(crate::specs::Spelling::is_this))]
pub fn is_this(text: &str, token: &Token) -> bool
    ensures { result ≡ spec.is_this text.now token.now }
{
    is_sign(token) && token.text.bytes() == text.as_bytes()
}

/// How tightly the token binds between two operands, 0 where it can't stand there.
#[tactic(auto, unfolding(crate::specs::Spelling::binds))]
pub fn binds(token: &Token) -> u8
    ensures value { result ≡ spec.binds token.now }
    ensures greatest { result ≤ TIGHTEST }
{
    if is_sign(token) {
        precedence(token.text.bytes())
    } else {
        0
    }
}

#[tactic(auto, unfolding(crate::specs::Spelling::grouping))]
fn grouping(token: &Token) -> Grouping
    ensures { result ≡ spec.grouping token.now }
{
    if !is_sign(token) {
        return Grouping::ToTheLeft;
    }
    match Binary::of(token.text.bytes()) {
        None => Grouping::ToTheLeft,
        Some(operator) => operator.level().grouping(),
    }
}

/// How tightly the right operand of the operator that the token is holds together at least.
#[tactic(auto, unfolding(crate::specs::Spelling::right_least))]
pub fn right_least(token: &Token) -> u8
    ensures { result ≡ spec.right_least token.now }
{
    match grouping(token) {
        Grouping::ToTheLeft => binds(token) + 1,
        Grouping::ToTheRight => binds(token),
    }
}

/// Whether the standard has the token outside the subset.
#[tactic(auto, unfolding(crate::specs::Spelling::is_refused))]
pub fn is_refused(token: &Token) -> bool
    ensures { result ≡ spec.is_refused token.now }
{
    let text = token.text.bytes();
    match token.kind {
        TokenKind::Word => spelling::is_refused(text),
        TokenKind::System => Function::of(text).is_none(),
        TokenKind::Sign => is_refused_operator(text),
        _ => false,
    }
}
