//! Rows of `width_rules`: expressions over nets and variables with the width, the sign and the value of their terms, or their
//! refusals. They stand in a crate of their own, as a crate with tests is proved once with them and once without, and as the
//! terms are evaluated by `net_values`.
#![tactic(auto)]

#[cfg(test)]
mod made_rows;
#[cfg(test)]
mod rows;
#[cfg(test)]
mod tests;
