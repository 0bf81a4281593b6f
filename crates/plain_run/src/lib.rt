//! Plain designs, whose drivers can be taken in the order of the text, a plain evaluator of them, and a bench that it steps.
#![tactic(auto)]

pub mod bench;
pub mod evaluator;
pub mod law;
mod marks;
pub mod plain;
pub mod sampling;

pub use bench::PlainBench;
pub use evaluator::solve;
pub use plain::is_plain;
pub use sampling::sample;
