//! The tree of a source: modules, items, statements and expressions as they are written. Each type has one
//! variant for each case of the grammar in `docs/language.md`. Parentheses leave no node.
#![tactic(auto)]

mod expression;
mod item;
mod module;
mod statement;

pub use expression::{Expr, Id, Lval, Sel};
pub use item::{Arg, Block, Decl, Edge, Inst, Item, Pair, Range, Shape};
pub use module::{Module, Param, PortDecl};
pub use statement::{CaseItem, Loop, Step, Stmt};
