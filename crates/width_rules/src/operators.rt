//! Operators and functions on what was measured (IEEE 1800-2017, 11.4, 11.7).

ghost use Rattle.std.specs.Prelude.{◌≡◌, ◌&&◌, max, Some, IfOk};
ghost use Rattle.sv_base.specs.declared.kind.Kind.TheVariants.{NotConstant};
ghost use Rattle.sv_base.specs.declared.operator.Binary.TheVariants as binary;
ghost use Rattle.const_eval.specs.Expressions.{refused_at, or_refused};
ghost use Rattle.const_eval.specs.code.Agreeing.{Agrees};
ghost use Rattle.width_rules.specs.Building as building;
ghost use Rattle.width_rules.specs.Operations as spec;

use crate::building::{one_of, reduction_by, turned_to, two_of};
use crate::fault::WidthFault;
use crate::measured::Measured;
use crate::own::alone;
use crate::pending::{Pending, Shift};
use crate::settle::settle;
use bit_ops::Op;
use const_eval::refuse::refused_at;
use const_eval::{Change, Comparison, Operation, Reduction};
use net_ir::Term;
use sqlite_items::Boxed;
use std::alloc::{AllocError, Global};
use sv_ast::Id;
use sv_base::{Binary, Function, Kind, Unary};

/// What is done to an operand in its context.
fn changed(alloc: Global, change: Change, a: Measured) -> Result<Measured, AllocError>
    ensures built { IfOk result (λ r. r ≡ spec.changed change a) }
{
    let Measured {
        size,
        signed,
        pending,
    } = a;
    Ok(Measured {
        size,
        signed,
        pending: Pending::Changed(change, Boxed::new(alloc, pending)?),
    })
}

/// The bit of a reduction, turned or not.
fn reduced(
    alloc: Global,
    reduction: Reduction,
    turn: bool,
    a: Measured,
) -> Result<Measured, AllocError>
    ensures built { IfOk result (λ r. r ≡ spec.reduced reduction turn a) }
{
    let own = a.own(alloc)?;
    let bit = one_of(alloc, reduction_by(reduction), 1, own)?;
    Ok(alone(1, turned_to(alloc, turn, bit)?, false))
}

/// `!` of an operand by itself.
fn denied(alloc: Global, a: Measured) -> Result<Measured, AllocError>
    ensures built { IfOk result (λ r. r ≡ spec.denied a) }
{
    let holds = a.holds(alloc)?;
    Ok(alone(1, one_of(alloc, Op::Not, 1, holds)?, false))
}

/// What an operator makes of the operand behind it.
fn unary(alloc: Global, operator: Unary, a: Measured) -> Result<Measured, AllocError>
    ensures built { IfOk result (λ r. r ≡ spec.unary_by operator a) }
{
    match operator {
        Unary::Plus => Ok(a),
        Unary::Minus => changed(alloc, Change::Negate, a),
        Unary::Not => changed(alloc, Change::Invert, a),
        Unary::LogicalNot => denied(alloc, a),
        Unary::ReduceAnd => reduced(alloc, Reduction::And, false, a),
        Unary::ReduceNand => reduced(alloc, Reduction::And, true, a),
        Unary::ReduceOr => reduced(alloc, Reduction::Or, false, a),
        Unary::ReduceNor => reduced(alloc, Reduction::Or, true, a),
        Unary::ReduceXor => reduced(alloc, Reduction::Xor, false, a),
        Unary::ReduceXnor => reduced(alloc, Reduction::Xor, true, a),
    }
}

/// The size and the sign at which two operands meet.
fn meet(a: &Measured, b: &Measured) -> (u32, bool)
    ensures size { result.0 ≡ max a.now.size b.now.size }
    ensures signed { result.1 ≡ (a.now.signed && b.now.signed) }
{
    (a.size.max(b.size), a.signed && b.signed)
}

/// An operation on two operands in their context.
fn combined(
    alloc: Global,
    operation: Operation,
    a: Measured,
    b: Measured,
) -> Result<Measured, AllocError>
    ensures built { IfOk result (λ r. r ≡ spec.combined operation a b) }
{
    let (size, signed) = meet(&a, &b);
    Ok(Measured {
        size,
        signed,
        pending: Pending::Combined(
            operation,
            Boxed::new(alloc, a.pending)?,
            Boxed::new(alloc, b.pending)?,
        ),
    })
}

/// The bit of a comparison of two terms of one size.
fn comparison_bit(
    alloc: Global,
    comparison: Comparison,
    signed: bool,
    a: Term,
    b: Term,
) -> Result<Term, AllocError>
    ensures term { IfOk result (λ t. t ≡ building.comparison_to comparison signed a b) }
{
    let less = if signed { Op::LtS } else { Op::LtU };
    match comparison {
        Comparison::Equal => two_of(alloc, Op::Eq, 1, a, b),
        Comparison::Less => two_of(alloc, less, 1, a, b),
        Comparison::Greater => two_of(alloc, less, 1, b, a),
    }
}

/// The bit of a comparison, turned or not: each operand is the other's context.
fn compared(
    alloc: Global,
    comparison: Comparison,
    turn: bool,
    a: Measured,
    b: Measured,
) -> Result<Measured, AllocError>
    ensures built { IfOk result (λ r. r ≡ spec.compared comparison turn a b) }
{
    let (size, signed) = meet(&a, &b);
    let left = settle(alloc, a.pending, size, signed)?;
    let right = settle(alloc, b.pending, size, signed)?;
    let bit = comparison_bit(alloc, comparison, signed, left, right)?;
    Ok(alone(1, turned_to(alloc, turn, bit)?, false))
}

/// A shift of an operand in its context, by another by itself.
fn shifted(alloc: Global, shift: Shift, a: Measured, b: Measured) -> Result<Measured, AllocError>
    ensures built { IfOk result (λ r. r ≡ spec.shifted shift a b) }
{
    let amount = b.own(alloc)?;
    let Measured {
        size,
        signed,
        pending,
    } = a;
    Ok(Measured {
        size,
        signed,
        pending: Pending::Shifted(shift, Boxed::new(alloc, pending)?, amount),
    })
}

/// Whether two operands by themselves are not 0, joined by an operation on bits.
fn both_hold(alloc: Global, op: Op, a: Measured, b: Measured) -> Result<Measured, AllocError>
    ensures built { IfOk result (λ r. r ≡ spec.both_hold op a b) }
{
    let left = a.holds(alloc)?;
    let right = b.holds(alloc)?;
    Ok(alone(1, two_of(alloc, op, 1, left, right)?, false))
}

/// What an operator makes of two operands; a power only constants have.
fn binary(alloc: Global, operator: Binary, a: Measured, b: Measured) -> Result<Measured, AllocError>
    requires { operator ≡ binary.Power → ⊥ }
    ensures built { IfOk result (λ r. spec.binary_by operator a b ≡ Some r) }
{
    match operator {
        Binary::Power => unreachable!(),
        Binary::Multiply => combined(alloc, Operation::Multiply, a, b),
        Binary::Divide => combined(alloc, Operation::Divide, a, b),
        Binary::Remainder => combined(alloc, Operation::Remainder, a, b),
        Binary::Add => combined(alloc, Operation::Add, a, b),
        Binary::Subtract => combined(alloc, Operation::Subtract, a, b),
        Binary::ShiftLeft => shifted(alloc, Shift::Left, a, b),
        Binary::ShiftRight => shifted(alloc, Shift::Right, a, b),
        Binary::ArithmeticShiftRight => shifted(alloc, Shift::ArithmeticRight, a, b),
        Binary::Less => compared(alloc, Comparison::Less, false, a, b),
        Binary::AtMost => compared(alloc, Comparison::Greater, true, a, b),
        Binary::Greater => compared(alloc, Comparison::Greater, false, a, b),
        Binary::AtLeast => compared(alloc, Comparison::Less, true, a, b),
        Binary::Equal => compared(alloc, Comparison::Equal, false, a, b),
        Binary::Unequal => compared(alloc, Comparison::Equal, true, a, b),
        Binary::And => combined(alloc, Operation::And, a, b),
        Binary::Xor => combined(alloc, Operation::Xor, a, b),
        Binary::Xnor => combined(alloc, Operation::Xnor, a, b),
        Binary::Or => combined(alloc, Operation::Or, a, b),
        Binary::LogicalAnd => both_hold(alloc, Op::And, a, b),
        Binary::LogicalOr => both_hold(alloc, Op::Or, a, b),
    }
}

/// A choice between two operands, which decide its size and sign; it is by its condition by itself.
pub fn chosen(
    alloc: Global,
    condition: Measured,
    a: Measured,
    b: Measured,
) -> Result<Measured, AllocError>
    ensures built { IfOk result (λ r. r ≡ spec.chosen condition a b) }
{
    let (size, signed) = meet(&a, &b);
    let bit = condition.holds(alloc)?;
    Ok(Measured {
        size,
        signed,
        pending: Pending::Chosen(
            bit,
            Boxed::new(alloc, a.pending)?,
            Boxed::new(alloc, b.pending)?,
        ),
    })
}

/// An operator before an operand, by its sign.
pub fn unary_by(alloc: Global, sign: &Id, a: Measured) -> Result<Measured, WidthFault>
    ensures built { Agrees (λ r m. r ≡ m) result (spec.unary_on sign.now a) }
{
    match Unary::of(sign.name.bytes()) {
        Some(operator) => Ok(unary(alloc, operator, a)?),
        None => Err(refused_at(alloc, Kind::Unexpected, sign)?),
    }
}

/// An operator between two operands: a power is refused.
fn binary_judged(
    alloc: Global,
    operator: Binary,
    sign: &Id,
    a: Measured,
    b: Measured,
) -> Result<Measured, WidthFault>
    ensures built { Agrees (λ r m. r ≡ m) result
        (or_refused (refused_at NotConstant sign.now) (spec.binary_by operator a b)) }
{
    match operator {
        Binary::Power => Err(refused_at(alloc, Kind::NotConstant, sign)?),
        _ => Ok(binary(alloc, operator, a, b)?),
    }
}

/// An operator between two operands, by its sign.
pub fn binary_by(alloc: Global, sign: &Id, a: Measured, b: Measured) -> Result<Measured, WidthFault>
    ensures built { Agrees (λ r m. r ≡ m) result (spec.binary_on sign.now a b) }
{
    match Binary::of(sign.name.bytes()) {
        Some(operator) => binary_judged(alloc, operator, sign, a, b),
        None => Err(refused_at(alloc, Kind::Unexpected, sign)?),
    }
}

/// An operand by itself, taken with a sign.
fn cast(alloc: Global, a: Measured, signed: bool) -> Result<Measured, AllocError>
    ensures built { IfOk result (λ r. r ≡ spec.cast signed a) }
{
    let size = a.size;
    let own = a.own(alloc)?;
    Ok(alone(size, own, signed))
}

/// A system function, by its name; a logarithm only constants have.
pub fn function_by(alloc: Global, name: &Id, a: Measured) -> Result<Measured, WidthFault>
    ensures built { Agrees (λ r m. r ≡ m) result (spec.system_on name.now a) }
{
    match Function::of(name.name.bytes()) {
        Some(Function::Signed) => Ok(cast(alloc, a, true)?),
        Some(Function::Unsigned) => Ok(cast(alloc, a, false)?),
        Some(Function::Logarithm) => Err(refused_at(alloc, Kind::NotConstant, name)?),
        None => Err(refused_at(alloc, Kind::Unexpected, name)?),
    }
}
