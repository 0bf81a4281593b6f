//! Worlds: a machine with sealed children behind wrappers, and the events that may happen in it in any order.
#![tactic(auto)]

mod block;
mod buffer;
mod event;
mod events;
mod making;
mod sampling;
mod unit;
mod world;
mod wrapped;

pub use event::Event;
pub use events::{enabled, run_events, step};
pub use world::World;
pub use wrapped::Wrapped;
