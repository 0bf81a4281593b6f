//! Worlds that are settled: their children are leaves, each one machine.
#![tactic(auto)]

#[cfg(test)]
mod board;
#[cfg(test)]
mod fitting;
#[cfg(test)]
mod machines;
#[cfg(test)]
mod rows;
#[cfg(test)]
mod script;
#[cfg(test)]
mod tests;
