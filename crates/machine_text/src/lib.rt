//! Machines from texts, and trials of them: what tests and measurements of machines share.
#![tactic(auto)]

mod face;
mod fault;
mod machine;
mod trial;
mod words;

pub use fault::TextFault;
pub use machine::read_machine;
pub use trial::Trial;
pub use words::Words;
