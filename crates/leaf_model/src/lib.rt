//! A sealed child that is one machine without children of its own.
#![tactic(auto)]

mod leaf;
mod sampling;
mod slots;
mod starting;

pub use leaf::Leaf;
pub use starting::{clock_count, initial_registers, zero_inputs};
