//! Which ports of a module are clocks, which are data inputs and which are idle, or what is refused of its
//! clocks.
#![tactic(auto)]

mod classes;
mod clocks;
mod each;
mod fault;
mod joins;
pub mod law;
mod listing;
mod module_face;
mod reads;

pub use fault::ClockFault;
pub use module_face::classify;
