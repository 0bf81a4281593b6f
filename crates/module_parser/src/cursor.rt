//! A cursor over the tokens of a file, with the sorts of tokens that the grammar tells apart.

ghost use Rattle.std.specs.Prelude.{◌≡◌, ◌≤◌, map, Ok};
ghost use Rattle.expr_parser.specs.Input.{Gives, IsFault, refusal, enter, leave, turns};
ghost use Rattle.expr_parser.specs.Outcome.{last_place};
ghost use Rattle.expr_parser.specs.Reading.{any};
ghost use Rattle.expr_parser.specs.Spelling.{is_identifier, is_this};
ghost use Rattle.module_parser.specs.Words.{is_keyword, is_keyword_of, is_sign_of, is_named, is_no_keyword, is_no_sign, is_any, begins_target};
ghost use Rattle.module_parser.specs.Input as spec;

use crate::words;
use expr_parser::ParseFault;
use std::alloc::Global;
use std::marker::Model;
use sv_ast::{Expr, Id};
use sv_lexer::Token;

#[derive(Drop)]
pub struct Cursor<'a> {
    left: expr_parser::Cursor<'a>,
}

impl<'a> Model for Cursor<'a> {
    ghost use Rattle.expr_parser.specs.Input.{Input};

    ghost Value = { Input };

    ghost view = { λ c. c.left };
}

impl<'a> Cursor<'a> {
    /// Before the first token.
    pub fn new(tokens: &'a Vec<Token>) -> Cursor<'a>
        ensures { result ≡ record { rest = tokens.now.items; nested = 0; last = last_place tokens.now.items } }
    {
        let last = expr_parser::last_place(tokens.as_slice());
        Cursor {
            left: expr_parser::Cursor::new(tokens.as_slice(), 0, last),
        }
    }

    /// How many tokens stand behind the last that was read.
    pub fn len(&self) -> usize
        ensures { result ≡ turns self.now }
    {
        self.left.len()
    }

    /// The tokens behind the last that was read.
    pub fn rest(&self) -> &'a [Token]
        ensures { result.now ≡ self.now.rest }
    {
        self.left.rest()
    }

    /// Whether this sign comes next.
    #[tactic(auto, unfolding(crate::specs::Input::comes))]
    pub fn sees(&self, text: &str) -> bool
        ensures { result ≡ spec.comes (is_this text.now) self.now }
    {
        match self.left.next() {
            None => false,
            Some(token) => expr_parser::is_this(text, token),
        }
    }

    /// Whether this reserved word comes next.
    #[tactic(auto, unfolding(crate::specs::Input::comes))]
    pub fn sees_word(&self, text: &str) -> bool
        ensures { result ≡ spec.comes (is_keyword text.now) self.now }
    {
        match self.left.next() {
            None => false,
            Some(token) => words::is_keyword(text, token),
        }
    }

    /// Whether one of these reserved words comes next.
    #[tactic(auto, unfolding(crate::specs::Input::comes))]
    pub fn sees_word_of(&self, texts: &[&str]) -> bool
        ensures { result ≡ spec.comes (is_keyword_of (map (λ t. t.now) texts.now)) self.now }
    {
        match self.left.next() {
            None => false,
            Some(token) => words::is_keyword_of(texts, token),
        }
    }

    /// Whether one of these signs comes next.
    #[tactic(auto, unfolding(crate::specs::Input::comes))]
    pub fn sees_sign_of(&self, texts: &[&str]) -> bool
        ensures { result ≡ spec.comes (is_sign_of (map (λ t. t.now) texts.now)) self.now }
    {
        match self.left.next() {
            None => false,
            Some(token) => words::is_sign_of(texts, token),
        }
    }

    /// Whether a name comes next.
    #[tactic(auto, unfolding(crate::specs::Input::comes))]
    pub fn sees_identifier(&self) -> bool
        ensures { result ≡ spec.comes is_identifier self.now }
    {
        match self.left.next() {
            None => false,
            Some(token) => expr_parser::is_identifier(token),
        }
    }

    /// Whether this name comes next.
    #[tactic(auto, unfolding(crate::specs::Input::comes))]
    pub fn sees_named(&self, name: &Id) -> bool
        ensures { result ≡ spec.comes (is_named name.now.name) self.now }
    {
        match self.left.next() {
            None => false,
            Some(token) => words::is_named(name.name.bytes(), token),
        }
    }

    /// Whether a target comes next.
    #[tactic(auto, unfolding(crate::specs::Input::comes))]
    pub fn sees_target(&self) -> bool
        ensures { result ≡ spec.comes begins_target self.now }
    {
        match self.left.next() {
            None => false,
            Some(token) => words::begins_target(token),
        }
    }

    /// Whether a token comes next that is not this reserved word.
    #[tactic(auto, unfolding(crate::specs::Input::comes, crate::specs::Words::is_no_keyword))]
    pub fn sees_no_word(&self, text: &str) -> bool
        ensures { result ≡ spec.comes (is_no_keyword text.now) self.now }
    {
        match self.left.next() {
            None => false,
            Some(token) => !words::is_keyword(text, token),
        }
    }

    /// Whether a token comes next that is not this sign.
    #[tactic(auto, unfolding(crate::specs::Input::comes, crate::specs::Words::is_no_sign))]
    pub fn sees_no_sign(&self, text: &str) -> bool
        ensures { result ≡ spec.comes (is_no_sign text.now) self.now }
    {
        match self.left.next() {
            None => false,
            Some(token) => !expr_parser::is_this(text, token),
        }
    }

    /// Whether a token comes next.
    #[tactic(auto, unfolding(crate::specs::Input::comes))]
    pub fn sees_any(&self) -> bool
        ensures { result ≡ spec.comes is_any self.now }
    {
        self.left.next().is_some()
    }

    /// Why the next token does not fit.
    pub fn refuse(&self, alloc: Global) -> ParseFault
        ensures { IsFault result (refusal self.now) }
    {
        self.left.refuse(alloc)
    }

    /// Takes this reserved word.
    #[tactic(auto, unfolding(crate::specs::Input::take_one))]
    pub fn take_word(&mut self, alloc: Global, text: &str) -> Result<Id, ParseFault>
        ensures { Gives (spec.take_one (is_keyword text.now) self.old) result self.new }
    {
        if !self.sees_word(text) {
            return Err(self.refuse(alloc));
        }
        self.left.take_id(alloc)
    }

    /// Takes one of these reserved words.
    #[tactic(auto, unfolding(crate::specs::Input::take_one))]
    pub fn take_word_of(&mut self, alloc: Global, texts: &[&str]) -> Result<Id, ParseFault>
        ensures { Gives (spec.take_one (is_keyword_of (map (λ t. t.now) texts.now)) self.old) result self.new }
    {
        if !self.sees_word_of(texts) {
            return Err(self.refuse(alloc));
        }
        self.left.take_id(alloc)
    }

    /// Takes one of these signs.
    #[tactic(auto, unfolding(crate::specs::Input::take_one))]
    pub fn take_sign_of(&mut self, alloc: Global, texts: &[&str]) -> Result<Id, ParseFault>
        ensures { Gives (spec.take_one (is_sign_of (map (λ t. t.now) texts.now)) self.old) result self.new }
    {
        if !self.sees_sign_of(texts) {
            return Err(self.refuse(alloc));
        }
        self.left.take_id(alloc)
    }

    /// Takes a name.
    #[tactic(auto, unfolding(crate::specs::Input::take_one))]
    pub fn take_identifier(&mut self, alloc: Global) -> Result<Id, ParseFault>
        ensures { Gives (spec.take_one is_identifier self.old) result self.new }
    {
        if !self.sees_identifier() {
            return Err(self.refuse(alloc));
        }
        self.left.take_id(alloc)
    }

    /// Takes this name.
    #[tactic(auto, unfolding(crate::specs::Input::take_one))]
    pub fn take_named(&mut self, alloc: Global, name: &Id) -> Result<Id, ParseFault>
        ensures { Gives (spec.take_one (is_named name.now.name) self.old) result self.new }
    {
        if !self.sees_named(name) {
            return Err(self.refuse(alloc));
        }
        self.left.take_id(alloc)
    }

    /// Passes over this sign.
    #[tactic(auto, unfolding(crate::specs::Input::pass))]
    pub fn expect(&mut self, alloc: Global, text: &str) -> Result<(), ParseFault>
        ensures { Gives (spec.pass (is_this text.now) self.old) result self.new }
    {
        if !self.sees(text) {
            return Err(self.refuse(alloc));
        }
        self.left.advance();
        Ok(())
    }

    /// Passes over this reserved word.
    #[tactic(auto, unfolding(crate::specs::Input::pass))]
    pub fn expect_word(&mut self, alloc: Global, text: &str) -> Result<(), ParseFault>
        ensures { Gives (spec.pass (is_keyword text.now) self.old) result self.new }
    {
        if !self.sees_word(text) {
            return Err(self.refuse(alloc));
        }
        self.left.advance();
        Ok(())
    }

    /// Passes over this name.
    #[tactic(auto, unfolding(crate::specs::Input::pass))]
    pub fn expect_named(&mut self, alloc: Global, name: &Id) -> Result<(), ParseFault>
        ensures { Gives (spec.pass (is_named name.now.name) self.old) result self.new }
    {
        if !self.sees_named(name) {
            return Err(self.refuse(alloc));
        }
        self.left.advance();
        Ok(())
    }

    /// Takes this sign, from which on one more is open.
    #[tactic(auto, unfolding(crate::specs::Input::take_open))]
    pub fn open(&mut self, alloc: Global, text: &str) -> Result<Id, ParseFault>
        ensures { Gives (spec.take_open (is_this text.now) self.old) result self.new }
    {
        if !self.sees(text) {
            return Err(self.refuse(alloc));
        }
        self.left.rise(alloc)?;
        self.left.take_id(alloc)
    }

    /// Takes this reserved word, from which on one more is open.
    #[tactic(auto, unfolding(crate::specs::Input::take_open))]
    pub fn open_word(&mut self, alloc: Global, text: &str) -> Result<Id, ParseFault>
        ensures { Gives (spec.take_open (is_keyword text.now) self.old) result self.new }
    {
        if !self.sees_word(text) {
            return Err(self.refuse(alloc));
        }
        self.left.rise(alloc)?;
        self.left.take_id(alloc)
    }

    /// Takes the longest expression that stands there.
    pub fn expression(&mut self, alloc: Global) -> Result<Expr, ParseFault>
        ensures { Gives (any self.old) result self.new }
    {
        expr_parser::any(alloc, &mut self.left)
    }

    /// The open nesting, to go back to.
    pub fn enter(&self) -> u32
        ensures { enter self.now ≡ Ok (result, self.now) }
    {
        self.left.enter()
    }

    /// Goes back to this open nesting.
    pub fn leave(&mut self, outer: u32)
        ensures { leave outer self.old ≡ Ok (tt, self.new) }
    {
        self.left.leave(outer);
    }
}
