//! The stages of a model: the order of settling, the children of a unit, and the bench on which a design is played.
#![tactic(auto)]

pub mod bench;
pub mod child;
pub mod order;

pub use bench::Bench;
pub use child::Child;
pub use order::Order;
