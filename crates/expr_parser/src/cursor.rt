//! A cursor over tokens, which passes over the marks.

ghost use Rattle.std.specs.Prelude.{◌≡◌, Ok, IfOk};
ghost use Rattle.std.specs.Option.{option_copied};
ghost use Rattle.expr_parser.specs.Input as spec;
ghost use Rattle.expr_parser.specs.Input.{Gives, IsFault};
ghost use Rattle.expr_parser.specs.Outcome.{last_place, refusal_of, refusal_at, nesting_refusal};

use crate::fault::ParseFault;
use crate::spelling;
use std::alloc::{AllocError, Global};
use std::marker::Model;
use sv_ast::Id;
use sv_base::{Kind, Name, Place, Refusal};
use sv_lexer::Token;

/// The greatest open nesting: so many brackets and operators may be open at a token.
pub const NESTING_LIMIT: u32 = 256;

/// A place in a list of tokens, and the open nesting there. The parsers of larger texts read through it too.
#[derive(Drop)]
pub struct Cursor<'a> {
    rest: &'a [Token],
    /// The rest from its first token that is no mark.
    ahead: &'a [Token],
    nested: u32,
    last: Place,
}

impl<'a> Model for Cursor<'a> {
    ghost use Rattle.expr_parser.specs.Input.{Input};
    ghost use Rattle.expr_parser.specs.Cursor.{input_of, IsReady};

    ghost Value = { Input };

    ghost view = { input_of };

    ghost invariant = { IsReady };
}

fn past_marks(tokens: &[Token]) -> &[Token]
    ensures { result.now ≡ spec.past_marks tokens.now }
{
    let mut rest = tokens;
    while let [token, behind @ ..] = rest {
        if !spelling::is_mark(token) {
            return rest;
        }
        rest = behind;
    }
    rest
}

/// The place of the last token, a mark counted too.
pub fn last_place(tokens: &[Token]) -> Place
    ensures { result ≡ last_place tokens.now }
{
    match tokens {
        [] => Place::NOWHERE,
        [.., token] => token.place,
    }
}

fn refusal_of(alloc: Global, token: &Token) -> Result<Refusal, AllocError>
    ensures { IfOk result (λ r. r ≡ refusal_of token.now) }
{
    let kind = if spelling::is_refused(token) {
        Kind::Unsupported
    } else {
        Kind::Unexpected
    };
    Ok(Refusal {
        kind,
        place: token.place,
        name: Name::of(alloc, token.text.bytes())?,
    })
}

fn refusal_at(alloc: Global, last: Place, ahead: &[Token]) -> Result<Refusal, AllocError>
    ensures { IfOk result (λ r. r ≡ refusal_at last ahead.now) }
{
    match ahead {
        [] => Ok(Refusal {
            kind: Kind::Unexpected,
            place: last,
            name: Name::empty(alloc),
        }),
        [token, ..] => refusal_of(alloc, token),
    }
}

fn nesting_refusal(alloc: Global, token: &Token) -> Result<Refusal, AllocError>
    ensures { IfOk result (λ r. r ≡ nesting_refusal token.now) }
{
    Ok(Refusal {
        kind: Kind::TooMany,
        place: token.place,
        name: Name::of(alloc, b"nesting")?,
    })
}

impl<'a> Cursor<'a> {
    /// Before these tokens, with so many open, where `last` is the place of the list's last token.
    pub fn new(rest: &'a [Token], nested: u32, last: Place) -> Cursor<'a>
        ensures { result ≡ record { rest = rest.now; nested = nested; last = last } }
    {
        Cursor {
            rest,
            ahead: past_marks(rest),
            nested,
            last,
        }
    }

    /// How many tokens stand behind the last that was read.
    #[tactic(auto, unfolding(crate::specs::Input::turns))]
    pub fn len(&self) -> usize
        ensures { result ≡ spec.turns self.now }
    {
        self.rest.len()
    }

    /// The tokens behind the last that was read.
    pub fn rest(&self) -> &'a [Token]
        ensures { result.now ≡ self.now.rest }
    {
        self.rest
    }

    /// The next token that is no mark.
    #[tactic(auto, unfolding(crate::specs::Input::next, crate::specs::Input::ahead))]
    pub fn next(&self) -> Option<&'a Token>
        ensures { option_copied result ≡ spec.next self.now }
    {
        self.ahead.first()
    }

    /// Whether this sign comes next.
    #[tactic(auto, unfolding(crate::specs::Input::sees, crate::specs::Input::next, crate::specs::Input::ahead))]
    pub fn sees(&self, text: &str) -> bool
        ensures { result ≡ spec.sees text.now self.now }
    {
        match self.ahead {
            [] => false,
            [token, ..] => spelling::is_this(text, token),
        }
    }

    /// Goes on behind the next token, if there is one.
    #[tactic(auto, unfolding(crate::specs::Input::after, crate::specs::Input::ahead))]
    pub fn advance(&mut self)
        ensures { self.new ≡ spec.after self.old }
    {
        let rest = match self.ahead {
            [] => self.ahead,
            [_, behind @ ..] => behind,
        };
        self.rest = rest;
        self.ahead = past_marks(rest);
    }

    /// Why the next token does not fit.
    #[tactic(auto, unfolding(crate::specs::Input::refusal, crate::specs::Input::ahead))]
    pub fn refuse(&self, alloc: Global) -> ParseFault
        ensures { IsFault result (spec.refusal self.now) }
    {
        match refusal_at(alloc, self.last, self.ahead) {
            Ok(refusal) => ParseFault::Refused(refusal),
            Err(_) => ParseFault::NoMemory,
        }
    }

    #[tactic(auto, unfolding(crate::specs::Input::too_deep, crate::specs::Input::ahead))]
    fn refuse_nesting(&self, alloc: Global) -> ParseFault
        ensures { IsFault result (spec.too_deep self.now) }
    {
        let refused = match self.ahead {
            [] => refusal_at(alloc, self.last, self.ahead),
            [token, ..] => nesting_refusal(alloc, token),
        };
        match refused {
            Ok(refusal) => ParseFault::Refused(refusal),
            Err(_) => ParseFault::NoMemory,
        }
    }

    /// Takes the next token, whatever it is.
    #[tactic(auto, unfolding(crate::specs::Input::take_id))]
    pub fn take_id(&mut self, alloc: Global) -> Result<Id, ParseFault>
        ensures { Gives (spec.take_id self.old) result self.new }
    {
        let Some(token) = self.next() else {
            return Err(self.refuse(alloc));
        };
        let name = Name::of(alloc, token.text.bytes())?;
        self.advance();
        Ok(Id {
            name,
            place: token.place,
        })
    }

    /// Takes this sign.
    #[tactic(auto, unfolding(crate::specs::Input::expect))]
    pub fn expect(&mut self, alloc: Global, text: &str) -> Result<(), ParseFault>
        ensures { Gives (spec.expect text.now self.old) result self.new }
    {
        if !self.sees(text) {
            return Err(self.refuse(alloc));
        }
        self.advance();
        Ok(())
    }

    /// Counts one more that is open from the next token on. Where `NESTING_LIMIT` are open already, that
    /// token is nested too deep.
    #[tactic(auto, unfolding(crate::specs::Input::rise))]
    pub fn rise(&mut self, alloc: Global) -> Result<(), ParseFault>
        ensures { Gives (spec.rise self.old) result self.new }
    {
        if self.nested >= NESTING_LIMIT {
            return Err(self.refuse_nesting(alloc));
        }
        self.nested += 1;
        Ok(())
    }

    /// How many are open here.
    pub fn enter(&self) -> u32
        ensures { spec.enter self.now ≡ Ok (result, self.now) }
    {
        self.nested
    }

    /// So many are open from here on.
    pub fn leave(&mut self, outer: u32)
        ensures { spec.leave outer self.old ≡ Ok (tt, self.new) }
    {
        self.nested = outer;
    }
}
