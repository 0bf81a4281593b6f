//! Levelising a dependence graph: every node after all that it reads, or the least node on a cycle.
#![tactic(auto)]

mod graph;
mod levels;
mod search;

pub use graph::{Graph, LevelFault, levelling_excludes_cycles};
pub use levels::order;

#[cfg(test)]
mod tests;
