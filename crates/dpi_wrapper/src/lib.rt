//! The text of a wrapper: written from a face, its summary and a digest, and read again.
#![tactic(auto)]

mod comments;
mod fields;
mod good;
mod header;
mod imports;
pub mod law;
mod lists;
mod piece;
mod processes;
mod reading;
mod texts;
mod unread;
mod writing;

pub use good::PORT_LIMIT;
pub use reading::read_wrapper;
pub use writing::write_wrapper;
