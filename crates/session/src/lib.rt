//! A stimulus, played on a bench: the trace of its steps.
#![tactic(auto)]

pub mod fault;
pub mod law;
mod memory;
pub mod playing;
mod refusing;
mod showing;
mod stepping;
#[cfg(test)]
mod untold_tests;

pub use fault::PlayFault;
pub use playing::play;
