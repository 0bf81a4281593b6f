//! Rows of `code_check`: machines that are accepted, and machines one step from them with their faults. They stand in a crate
//! of their own, as a crate with tests is proved once with them and once without.
#![tactic(auto)]

#[cfg(test)]
mod tests;
