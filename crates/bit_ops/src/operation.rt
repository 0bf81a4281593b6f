//! The operations by name.

/// An operation on values, in the order of the operations' numbers, `Const` being 0 and `Insert` 27.
#[derive(Clone, Copy, Debug, PartialEq, Eq)]
pub enum Op {
    Const,
    Zext,
    Sext,
    Slice,
    Concat,
    Not,
    Neg,
    And,
    Or,
    Xor,
    Add,
    Sub,
    Mul,
    DivU,
    DivS,
    ModU,
    ModS,
    Shl,
    ShrU,
    ShrS,
    Eq,
    LtU,
    LtS,
    RedAnd,
    RedOr,
    RedXor,
    Mux,
    Insert,
}
