//! Rows of `const_eval`: constant expressions with their sizes, signs and values, or their refusals. They stand in a crate of
//! their own, as a crate with tests is proved once with them and once without, and as they are read by `expr_parser`.
#![tactic(auto)]

#[cfg(test)]
mod tests;
