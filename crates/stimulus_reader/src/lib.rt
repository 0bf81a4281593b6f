//! The steps of a stimulus, read from a source one after another.
#![tactic(auto)]

mod found;
mod judge;
mod line;
mod piece;
pub mod reason;
mod setting;
pub mod step;
#[cfg(test)]
mod stimulus_tests;
mod values;
mod words;

pub use reason::Reason;
pub use step::{StepFault, StepKind, StepReader};
