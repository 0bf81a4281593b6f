use sv_base::{Fault, Name, Place};

/// What a token is, by its spelling alone. Reserved words, used or refused, are words here, and refused signs
/// are signs.
#[derive(Clone, Copy, Debug, PartialEq, Eq)]
pub enum TokenKind {
    /// A name or reserved word (5.6).
    Word,
    /// `$` and a name (5.6.3).
    System,
    /// A decimal or based number (5.7.1).
    Number,
    /// `'0` or `'1` (5.7.1).
    Fill,
    /// An operator or punctuation (5.3, 11.3).
    Sign,
    /// A comment that marks a module as a hierarchical block. It is no token of the grammar.
    Mark,
}

/// A token as it is spelled, with the place at which it begins. The text of a mark is empty.
#[derive(Debug, Drop)]
pub struct Token {
    pub kind: TokenKind,
    pub text: Name,
    pub place: Place,
}

/// Why a text has no tokens: BadCharacter, BadNumber, TooWide, OpenComment, Unsupported for a directive, or
/// TooMany `name`, at the place where no piece of the language can stand.
pub type LexFault = Fault;
