//! Models: one machine with its children, in its two stages, and the levels of models.
#![tactic(auto)]

pub mod node;
pub mod slot;
mod striking;

pub use node::{Hit, Node};
pub use slot::Slot;
