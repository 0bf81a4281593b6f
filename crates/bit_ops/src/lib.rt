//! The operations on values of a fixed width: each call answers its row of the table of operations.
#![tactic(auto)]

mod arithmetic;
mod bitwise;
mod choice;
mod compare;
mod extend;
pub mod laws;
mod operation;
mod part;
mod reduce;
mod shift;
mod value;

pub use arithmetic::{add, div_s, div_u, mod_s, mod_u, mul, neg, sub};
pub use bitwise::{bit_and, bit_not, bit_or, bit_xor};
pub use choice::mux;
pub use compare::{eq, lt_s, lt_u};
pub use extend::{sext, zext};
pub use operation::Op;
pub use part::{concat, insert, slice};
pub use reduce::{red_and, red_or, red_xor};
pub use shift::{shl, shr_s, shr_u};
pub use value::{Bits, MAX_WIDTH, Word};

#[cfg(test)]
mod tests;
