use crate::expression::{Expr, Id, Lval};
use crate::statement::{Loop, Stmt};
use sqlite_items::Items;
use sv_base::{Place, Sequence};

/// `[high:low]` of a declaration.
#[derive(Drop)]
pub struct Range {
    pub high: Expr,
    pub low: Expr,
}

/// What a declaration says of its names: the words of its type, its sign and its range.
#[derive(Drop)]
pub struct Shape {
    pub words: Sequence<Id>,
    pub sign: Option<Id>,
    pub range: Option<Range>,
}

/// A declared name and its value, where it has one.
#[derive(Drop)]
pub struct Decl {
    pub name: Id,
    pub value: Option<Expr>,
}

/// A continuous assignment (10.3).
#[derive(Drop)]
pub struct Pair {
    pub target: Lval,
    pub value: Expr,
}

/// An event control: `posedge` or `negedge`, and the name (9.4.2).
#[derive(Drop)]
pub struct Edge {
    pub word: Id,
    pub name: Id,
}

/// A connection or a parameter's value (23.3.2, 23.10.2). One without a port stands by order; `.p()` has no value.
#[derive(Drop)]
pub struct Arg {
    pub port: Option<Id>,
    pub value: Option<Expr>,
}

/// An instance and its connections.
#[derive(Drop)]
pub struct Inst {
    pub name: Id,
    pub args: Sequence<Arg>,
}

/// A generate block (27.3).
#[cycle(item)]
#[derive(Drop)]
pub struct Block {
    pub label: Option<Id>,
    pub items: Items<Item>,
}

/// An item of a module. A process, a loop and a condition have the place of their word.
#[cycle(item)]
#[derive(Drop)]
pub enum Item {
    /// The word, and what is declared.
    Param(Id, Shape, Sequence<Decl>),
    Declare(Shape, Sequence<Decl>),
    Genvar(Sequence<Id>),
    Assign(Sequence<Pair>),
    /// `always_comb`, `always @*` or `always @(*)` (9.2.2.2).
    Comb(Place, Stmt),
    /// `always_ff` or `always` with its event control (9.2.2.4).
    Clocked(Place, Sequence<Edge>, Stmt),
    /// The module's name, the parameters' values, and the instances.
    Instance(Id, Sequence<Arg>, Sequence<Inst>),
    Generate(Items<Item>),
    /// Whether `genvar` stands in the header, the header, and the block.
    For(Place, bool, Loop, Block),
    If(Place, Expr, Block, Option<Block>),
    /// `;`
    Empty,
}
