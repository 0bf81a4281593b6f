//! Settling: sweeps over the children of a world, until nothing changes.
#![tactic(auto)]

mod settling;
mod visits;

pub use settling::settle;
