//! Which outputs a sealed child shows to the design around it.
#![tactic(auto)]

mod wrapper;

pub use wrapper::Wrapper;

#[cfg(test)]
mod tests;
