//! Rows of `linked_units`: units that were typed by hand, with what comes of them. They stand in a crate of their own, as a
//! crate with tests is proved once with them and once without.
#![tactic(auto)]

#[cfg(test)]
mod tests;
