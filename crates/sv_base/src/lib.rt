//! The words that every layer of `lib_create` shares: names, places in the files, refusals, and the
//! faces of modules.
#![tactic(auto)]

mod face;
mod fault;
mod kind;
mod name;
mod operator;
mod refusal;
mod sequence;
pub mod spelling;

pub use face::{Class, Face, Port, Summary, WrapperFace};
pub use fault::Fault;
pub use kind::Kind;
pub use name::{NAME_LIMIT, Name};
pub use operator::{Binary, Function, Grouping, Level, TIGHTEST, Unary, is_refused_operator};
pub use refusal::{Place, Refusal};
pub use sequence::Sequence;
