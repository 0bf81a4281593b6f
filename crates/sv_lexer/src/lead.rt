ghost use Rattle.std.specs.Prelude.{◌≡◌};
ghost use Rattle.sv_lexer.specs.Scan as scan;

use crate::run::{Class, is_in};
use crate::sign::is_sign;
use sv_base::spelling::begins_name;

/// What the first byte of a piece leads to.
#[derive(Clone, Copy, Debug, PartialEq, Eq)]
pub enum Lead {
    Blank,
    /// A letter or `_`.
    Letter,
    Digit,
    Dollar,
    Quote,
    /// `/`, which begins a comment or is a sign.
    Slash,
    Backquote,
    /// Any other sign.
    Sign,
    /// A byte with which no piece begins.
    Other,
}

#[tactic(auto, unfolding(crate::specs::Scan::lead_of))]
pub fn lead_of(b: u8) -> Lead
    ensures value { result ≡ scan.lead_of b }
    ensures known { scan.LeadIs result b }
{
    if begins_name(b) {
        Lead::Letter
    } else if b.is_ascii_digit() {
        Lead::Digit
    } else if is_in(Class::Blank, b) {
        Lead::Blank
    } else if b == b'$' {
        Lead::Dollar
    } else if b == b'\'' {
        Lead::Quote
    } else if b == b'/' {
        Lead::Slash
    } else if b == b'`' {
        Lead::Backquote
    } else if is_sign(&[b]) {
        Lead::Sign
    } else {
        Lead::Other
    }
}
