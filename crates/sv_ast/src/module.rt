use crate::expression::{Expr, Id};
use crate::item::{Item, Shape};
use sv_base::Sequence;

/// A parameter of a module's header (6.20, 23.2.3).
#[derive(Drop)]
pub struct Param {
    pub keyword: Option<Id>,
    pub shape: Shape,
    pub name: Id,
    pub value: Expr,
}

/// A port of a module's header (23.2.2). A plain name has no direction and an empty shape.
#[derive(Drop)]
pub struct PortDecl {
    pub direction: Option<Id>,
    pub shape: Shape,
    pub name: Id,
}

/// A module, and whether it is marked as a hierarchical block.
#[derive(Drop)]
pub struct Module {
    pub name: Id,
    pub marked: bool,
    pub params: Sequence<Param>,
    pub ports: Sequence<PortDecl>,
    pub items: Sequence<Item>,
}
