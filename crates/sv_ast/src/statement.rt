use crate::expression::{Expr, Id, Lval};
use sqlite_items::{Boxed, Items};
use sv_base::{Place, Sequence};

/// How a loop's variable goes on: `=`, `+=` or `-=` with a value, `++` or `--` without one.
#[derive(Drop)]
pub struct Step {
    pub name: Id,
    pub sign: Id,
    pub value: Option<Expr>,
}

/// A loop's header (12.7.1, 27.4): `name = first; test; step`.
#[derive(Drop)]
pub struct Loop {
    pub name: Id,
    pub first: Expr,
    pub test: Expr,
    pub step: Step,
}

/// An item of a `case`. A `default` has no labels.
#[cycle(statement)]
#[derive(Drop)]
pub struct CaseItem {
    pub labels: Sequence<Expr>,
    pub body: Stmt,
}

/// A statement of a process (clause 12). A condition, a choice and a loop have the place of their word.
#[cycle(statement)]
#[derive(Drop)]
pub enum Stmt {
    /// The label, and the statements between `begin` and `end`.
    Block(Option<Id>, Items<Stmt>),
    If(Place, Expr, Boxed<Stmt>, Option<Boxed<Stmt>>),
    Case(Place, Expr, Items<CaseItem>),
    For(Place, Loop, Boxed<Stmt>),
    /// The target, the sign `=` or `<=`, and the value.
    Assign(Lval, Id, Expr),
    /// `;`
    Empty,
}
