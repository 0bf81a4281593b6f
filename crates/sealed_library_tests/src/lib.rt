//! Rows of `sealed_library`: libraries that were typed by hand, read and written, and bytes that are none.
//! They stand in a crate of their own, as a crate with tests is proved once with them and once without.
#![tactic(auto)]

#[cfg(test)]
mod tests;
