//! From the bytes of a source to the design of its top, or to the first refusal.
#![tactic(auto)]

pub mod front;
pub mod law;
pub mod modules;
mod supported;
#[cfg(test)]
mod tests;
