//! Operations by their numbers, and the fields that they use.

ghost use Rattle.std.specs.Prelude.{◌≡◌, slice_get};
ghost use Rattle.code_isa.specs.Operands.{operand_count, names_position, is_constant};
ghost use Rattle.sealed_library.specs.Version1.{operations, operation_number};

use bit_ops::Op;

/// The operations in the order of their numbers.
const OPERATIONS: [Op; 28] = [
    Op::Const,
    Op::Zext,
    Op::Sext,
    Op::Slice,
    Op::Concat,
    Op::Not,
    Op::Neg,
    Op::And,
    Op::Or,
    Op::Xor,
    Op::Add,
    Op::Sub,
    Op::Mul,
    Op::DivU,
    Op::DivS,
    Op::ModU,
    Op::ModS,
    Op::Shl,
    Op::ShrU,
    Op::ShrS,
    Op::Eq,
    Op::LtU,
    Op::LtS,
    Op::RedAnd,
    Op::RedOr,
    Op::RedXor,
    Op::Mux,
    Op::Insert,
];

/// The number of an operation.
pub fn operation_number(op: Op) -> u8
    ensures { result ≡ operation_number op }
{
    match op {
        Op::Const => 0,
        Op::Zext => 1,
        Op::Sext => 2,
        Op::Slice => 3,
        Op::Concat => 4,
        Op::Not => 5,
        Op::Neg => 6,
        Op::And => 7,
        Op::Or => 8,
        Op::Xor => 9,
        Op::Add => 10,
        Op::Sub => 11,
        Op::Mul => 12,
        Op::DivU => 13,
        Op::DivS => 14,
        Op::ModU => 15,
        Op::ModS => 16,
        Op::Shl => 17,
        Op::ShrU => 18,
        Op::ShrS => 19,
        Op::Eq => 20,
        Op::LtU => 21,
        Op::LtS => 22,
        Op::RedAnd => 23,
        Op::RedOr => 24,
        Op::RedXor => 25,
        Op::Mux => 26,
        Op::Insert => 27,
    }
}

fn operation_at(operations: &[Op], number: usize) -> Option<Op>
    ensures { result ≡ slice_get operations.now number }
{
    operations.get(number).copied()
}

/// The operation with a number, where there is one.
pub fn operation_of(number: u8) -> Option<Op>
    ensures { result ≡ slice_get operations number }
{
    operation_at(&OPERATIONS, number as usize)
}

/// How many slots an operation has as operands.
pub fn operand_count(op: Op) -> usize
    ensures { result ≡ operand_count op }
{
    match op {
        Op::Const => 0,
        Op::Zext | Op::Sext | Op::Slice | Op::Not | Op::Neg => 1,
        Op::RedAnd | Op::RedOr | Op::RedXor => 1,
        Op::Mux => 3,
        _ => 2,
    }
}

/// Whether an operation names a position in its first operand.
pub fn names_position(op: Op) -> bool
    ensures { result ≡ names_position op }
{
    matches!(op, Op::Slice | Op::Insert)
}

/// Whether an operation is the constant.
pub fn is_constant(op: Op) -> bool
    ensures { result ≡ is_constant op }
{
    matches!(op, Op::Const)
}
