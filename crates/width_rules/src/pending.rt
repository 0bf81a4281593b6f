//! Terms that wait for the size and the sign of their context (IEEE 1800-2017, 11.8.2).

use bit_ops::Bits;
use const_eval::{Change, Operation};
use net_ir::Term;
use sqlite_items::Boxed;

/// How an operand in the context is shifted by another by itself.
#[derive(Clone, Copy, Debug, PartialEq, Eq)]
pub enum Shift {
    Left,
    Right,
    ArithmeticRight,
}

/// A term whose context is not known yet.
#[derive(Drop)]
pub enum Pending {
    /// A term with a size of its own, which the context extends.
    Alone(u32, Term),
    /// As many copies of one bit as the context has places.
    Fill(Bits),
    Changed(Change, Boxed<Pending>),
    Combined(Operation, Boxed<Pending>, Boxed<Pending>),
    Shifted(Shift, Boxed<Pending>, Term),
    /// The first where the bit is 1, else the second.
    Chosen(Term, Boxed<Pending>, Boxed<Pending>),
}
