//! Rows of `dpi_wrapper`: texts of wrappers that were typed by hand, written and read, and texts that are none. They stand in a
//! crate of their own, as a crate with tests is proved once with them and once without.
#![tactic(auto)]

#[cfg(test)]
mod tests;
