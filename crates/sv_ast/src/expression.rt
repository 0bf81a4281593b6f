use sqlite_items::{Boxed, Items};
use sv_base::{Name, Place};

/// The spelling and place of a token, which may be a name, a reserved word, a sign or a number.
#[derive(Debug, Drop)]
pub struct Id {
    pub name: Name,
    pub place: Place,
}

/// A select behind a name (IEEE 1800-2017, 11.5.1), with the place of its `[`.
#[cycle(expression)]
#[derive(Drop)]
pub enum Sel {
    /// `[p]`
    Bit(Place, Boxed<Expr>),
    /// `[m:l]`
    Part(Place, Boxed<Expr>, Boxed<Expr>),
    /// `[p +: w]`
    Up(Place, Boxed<Expr>, Boxed<Expr>),
    /// `[p -: w]`
    Down(Place, Boxed<Expr>, Boxed<Expr>),
}

/// An expression (11.2, 11.4).
#[cycle(expression)]
#[derive(Drop)]
pub enum Expr {
    /// A decimal or based number.
    Number(Id),
    /// `'0` or `'1`.
    Fill(Id),
    /// A name, with at most one select.
    Read(Id, Items<Sel>),
    /// The sign and the operand.
    Unary(Id, Boxed<Expr>),
    /// The sign and the operands.
    Binary(Id, Boxed<Expr>, Boxed<Expr>),
    /// `a ? b : c`, with its `?`.
    Choice(Id, Boxed<Expr>, Boxed<Expr>, Boxed<Expr>),
    /// `{a, b}`, with the place of its `{`.
    Concat(Place, Items<Expr>),
    /// `{n{a, b}}`, with the place of its first `{`.
    Repeat(Place, Boxed<Expr>, Items<Expr>),
    /// `$clog2`, `$signed` or `$unsigned`, and its argument.
    System(Id, Boxed<Expr>),
}

/// What an assignment writes (11.4.12 for a list).
#[derive(Drop)]
pub enum Lval {
    /// A name, with at most one select.
    Of(Id, Items<Sel>),
    /// `{a, b}`, with the place of its `{`.
    List(Place, Items<Lval>),
}
