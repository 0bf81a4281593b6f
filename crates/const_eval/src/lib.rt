//! Values of constant expressions (IEEE 1800-2017, 11.2.1), and the definition of what every expression
//! means.
#![tactic(auto)]

mod apply;
mod env;
mod evaluation;
mod fault;
mod join;
mod joined;
pub mod law;
mod literal;
mod measure;
mod measured;
mod name;
mod own;
mod pending;
mod power;
pub mod refuse;
mod select;
mod shape;
mod taking;
mod whole_number;

pub use env::{Bound, Const, Env};
pub use evaluation::{assigned_constant, constant};
pub use fault::ConstFault;
pub use join::copies;
pub use pending::{Change, Movement, Operation};
pub use select::bits_from;
pub use shape::{BinaryShape, Comparison, Reduction, UnaryShape};
pub use whole_number::{WholeNumber, span};
