//! What an expression is by itself.

use crate::pending::Pending;

/// The size and the sign that an expression has by itself, and its term, which waits for its context.
#[derive(Drop)]
pub struct Measured {
    pub size: u32,
    pub signed: bool,
    pub pending: Pending,
}
