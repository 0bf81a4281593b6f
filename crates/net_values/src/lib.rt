//! The values of terms, what assignments write of them, and what clocked statements do to words.
#![tactic(auto)]

pub mod law;
mod operation;
mod statement;
mod target;
mod term;

pub use statement::execute;
pub use target::store;
pub use term::{evaluate, is_constant};
