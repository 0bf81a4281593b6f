//! Rows of `clock_domains`: modules, each with the classes of its ports or with what is refused of its clocks.
//! They stand in a crate of their own, as a crate with tests is proved once with them and once without.
#![tactic(auto)]

#[cfg(test)]
mod made;
#[cfg(test)]
mod tests;
