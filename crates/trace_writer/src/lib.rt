//! The text of a trace: its header, and the line of a step.
#![tactic(auto)]

#[cfg(test)]
mod tests;
pub mod trace;

pub use trace::{header, line, push_decimal, reserve_line};
