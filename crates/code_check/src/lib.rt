//! Whether a machine is a checked one, or which of the six faults it has first.
#![tactic(auto)]

mod checking;
mod fault;
mod flow;
mod order;
mod ports;
mod reads;
mod sets;
mod verdict;
mod widths;

pub use checking::{check, has_few_slots};
pub use fault::CheckFault;
