//! Sized terms from expressions over nets and variables (IEEE 1800-2017, 11.6 to 11.8).
#![tactic(auto)]

mod building;
mod fault;
mod join;
mod joined;
pub mod law;
mod measure;
mod measured;
mod operators;
mod own;
mod pending;
mod scope;
mod select;
mod settle;
mod sizing;
mod taking;

pub use fault::WidthFault;
pub use measured::Measured;
pub use scope::Scope;
pub use sizing::{sized, sized_alone};
