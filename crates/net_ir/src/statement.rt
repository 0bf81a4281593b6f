use crate::term::Term;
use sqlite_items::{Boxed, Items};
use sv_base::{Name, Place, Sequence};

/// The bits of a variable that a target takes: so many from a position up, or from it down. The position is a number by its own size and
/// sign, counted as the variable's declaration counts its bits (IEEE 1800-2017, 11.5.1).
#[derive(Drop)]
pub struct Pos {
    pub at: Term,
    pub at_signed: bool,
    pub down: bool,
    pub width: u32,
}

/// What an assignment writes.
#[derive(Drop)]
pub enum Target {
    /// The variable that a name means, where it means one: the whole of it, or some of its bits.
    Of {
        var: Option<u32>,
        name: Name,
        place: Place,
        pos: Option<Pos>,
    },
    /// A concatenation, whose first part takes the highest bits (11.4.12).
    List(Items<Target>),
}

/// What is done where one of the labels equals the value of the `case` that it stands in. A `default` has no labels.
#[cycle(statement)]
#[derive(Drop)]
pub struct Arm {
    pub labels: Sequence<Term>,
    pub body: Stmt,
}

/// What a process does (9.2.2, 10.4 and clause 12).
#[cycle(statement)]
#[derive(Drop)]
pub enum Stmt {
    /// Statements one after another.
    Block(Items<Stmt>),
    /// The first where the condition is not 0, else the second where there is one (12.4).
    If(Term, Boxed<Stmt>, Option<Boxed<Stmt>>),
    /// The first arm with a label that equals the value, else the `default` where there is one (12.5). The labels have the value's size.
    Case(Term, Items<Arm>),
    /// An assignment, blocking or nonblocking.
    Assign {
        blocking: bool,
        target: Target,
        value: Term,
    },
}
