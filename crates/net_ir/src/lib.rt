//! The meaning of a design: variables, terms, drivers, the one solution of their equations, states, steps and
//! the trace, what it means on a bench, and its face.
#![tactic(auto)]

pub mod design;
pub mod law;
pub mod marks;
pub mod outside;
pub mod statement;
pub mod term;

pub use design::{Driver, Given, Input, Instance, Made, Output, Role, Spec, Specs, Trigger, Var};
pub use outside::face;
pub use statement::{Arm, Pos, Stmt, Target};
pub use term::Term;
