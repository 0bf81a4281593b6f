//! Rows of `elaborate`: modules as texts, each with its nets and variables or with its refusal. They stand in a crate of their
//! own, as a crate with tests is proved once with them and once without.
#![tactic(auto)]

#[cfg(test)]
mod tests;
