//! How operators work on their operands (IEEE 1800-2017, 11.4).

ghost use Rattle.std.specs.Prelude.{◌≡◌};
ghost use Rattle.const_eval.specs.Operators.{unary_by, binary_by};
ghost use Rattle.const_eval.specs.Shapes.{unary_meaning, binary_meaning};

use crate::pending::{Change, Movement, Operation};
use sv_base::{Binary, Unary};

/// What is made of all bits of an operand.
#[derive(Clone, Copy, Debug, PartialEq, Eq)]
pub enum Reduction {
    And,
    Or,
    Xor,
}

/// How two operands are compared: whether they are equal, or the first or the second is less.
#[derive(Clone, Copy, Debug, PartialEq, Eq)]
pub enum Comparison {
    Equal,
    Less,
    Greater,
}

/// How an operator before its operand works on it.
#[derive(Clone, Copy, Debug, PartialEq, Eq)]
pub enum UnaryShape {
    /// It leaves its operand as it is.
    Same,
    Change(Change),
    /// `!`
    LogicalNot,
    /// A reduction, and whether its bit is turned.
    Reduction(Reduction, bool),
}

impl UnaryShape {
    /// How an operator works.
    pub fn of(operator: Unary) -> UnaryShape
        ensures { unary_meaning result ≡ unary_by operator }
    {
        match operator {
            Unary::Plus => UnaryShape::Same,
            Unary::Minus => UnaryShape::Change(Change::Negate),
            Unary::LogicalNot => UnaryShape::LogicalNot,
            Unary::Not => UnaryShape::Change(Change::Invert),
            Unary::ReduceAnd => UnaryShape::Reduction(Reduction::And, false),
            Unary::ReduceNand => UnaryShape::Reduction(Reduction::And, true),
            Unary::ReduceOr => UnaryShape::Reduction(Reduction::Or, false),
            Unary::ReduceNor => UnaryShape::Reduction(Reduction::Or, true),
            Unary::ReduceXor => UnaryShape::Reduction(Reduction::Xor, false),
            Unary::ReduceXnor => UnaryShape::Reduction(Reduction::Xor, true),
        }
    }
}

/// How an operator between two operands works on them.
#[derive(Clone, Copy, Debug, PartialEq, Eq)]
pub enum BinaryShape {
    Operation(Operation),
    /// A comparison, and whether its bit is turned.
    Comparison(Comparison, bool),
    /// `&&`
    LogicalAnd,
    /// `||`
    LogicalOr,
    Movement(Movement),
}

impl BinaryShape {
    /// How an operator works.
    pub fn of(operator: Binary) -> BinaryShape
        ensures { binary_meaning result ≡ binary_by operator }
    {
        match operator {
            Binary::Power => BinaryShape::Movement(Movement::Power),
            Binary::Multiply => BinaryShape::Operation(Operation::Multiply),
            Binary::Divide => BinaryShape::Operation(Operation::Divide),
            Binary::Remainder => BinaryShape::Operation(Operation::Remainder),
            Binary::Add => BinaryShape::Operation(Operation::Add),
            Binary::Subtract => BinaryShape::Operation(Operation::Subtract),
            Binary::ShiftLeft => BinaryShape::Movement(Movement::Left),
            Binary::ShiftRight => BinaryShape::Movement(Movement::Right),
            Binary::ArithmeticShiftRight => BinaryShape::Movement(Movement::ArithmeticRight),
            Binary::Less => BinaryShape::Comparison(Comparison::Less, false),
            Binary::AtMost => BinaryShape::Comparison(Comparison::Greater, true),
            Binary::Greater => BinaryShape::Comparison(Comparison::Greater, false),
            Binary::AtLeast => BinaryShape::Comparison(Comparison::Less, true),
            Binary::Equal => BinaryShape::Comparison(Comparison::Equal, false),
            Binary::Unequal => BinaryShape::Comparison(Comparison::Equal, true),
            Binary::And => BinaryShape::Operation(Operation::And),
            Binary::Xor => BinaryShape::Operation(Operation::Xor),
            Binary::Xnor => BinaryShape::Operation(Operation::Xnor),
            Binary::Or => BinaryShape::Operation(Operation::Or),
            Binary::LogicalAnd => BinaryShape::LogicalAnd,
            Binary::LogicalOr => BinaryShape::LogicalOr,
        }
    }
}
