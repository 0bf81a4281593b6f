//! From the tree of a module to its specialisation (IEEE 1800-2017, 6, 10, 12 and 23).
#![tactic(auto)]

mod assignment;
mod declaration;
mod expression;
mod extent;
mod item;
pub mod law;
mod limits;
mod names;
mod refusal;
mod specialise;
mod statement;
mod target;
mod walk;

pub use limits::{ASSIGNMENT_LIMIT, PORT_LIMIT};
pub use specialise::specialised;
