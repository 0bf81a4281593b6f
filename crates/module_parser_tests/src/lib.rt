//! Rows of `module_parser`: texts with the trees that they give, or their refusals. They stand in a crate of their own, as a
//! crate with tests is proved once with them and once without.
#![tactic(auto)]

#[cfg(test)]
mod tests;
