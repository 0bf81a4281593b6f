//! Who drives each bit of a module, and whether what its processes assign is assigned rightly.
#![tactic(auto)]

mod constant;
mod driven;
pub mod law;
mod runs;
mod sources;
mod written;

pub use driven::{DriverMap, driven_once};
pub use runs::{Run, Taken};
pub use sources::{Source, written_bits};
pub use written::written_rightly;

/// Why no map of drivers is made: it refuses with `TwoDrivers`, `InputDriven` and `WrongAssign`.
pub type DriverFault = sv_base::Fault;

#[cfg(test)]
mod tests;
