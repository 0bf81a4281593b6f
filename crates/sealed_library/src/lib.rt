//! Sealed machines as bytes: the one spelling of each, and reading it back.
#![tactic(auto)]

mod counts;
mod fault;
mod hashing;
pub mod law;
mod library;
mod limits;
mod numbers;
mod operations;
mod parts;
mod reading;
mod writing;

pub use fault::LibFault;
pub use hashing::digest;
pub use library::{decode, encode};
pub use limits::{CHAIN_LIMIT, DIGEST_LENGTH, LIBRARY_LIMIT, PORT_LIMIT};
