//! Operators and functions on what was measured (IEEE 1800-2017, 11.4, 20.8.1).

ghost use Rattle.std.specs.Prelude.{◌≡◌, true, IfOk};
ghost use Rattle.const_eval.specs.Meaning as meaning;
ghost use Rattle.const_eval.specs.Meaning.{Meaning};
ghost use Rattle.const_eval.specs.Operators as operators;
ghost use Rattle.const_eval.specs.Expressions as spec;
ghost use Rattle.const_eval.specs.Operations as operations;
ghost use Rattle.const_eval.specs.Shapes as shapes;
ghost use Rattle.const_eval.specs.code.Agreeing.{Agrees, Matches};

use crate::fault::ConstFault;
use crate::measured::Measured;
use crate::own::{alone, flag};
use crate::pending::{Change, Movement, Operation, Pending, evaluate};
use crate::power::logarithm;
use crate::refuse::{refused_at, unnamed_at};
use crate::shape::{BinaryShape, Comparison, Reduction, UnaryShape};
use bit_ops::{Bits, Word};
use sqlite_items::Boxed;
use std::alloc::{AllocError, Global};
use sv_ast::Id;
use sv_base::{Binary, Function, Kind, Unary};

/// What is done to an operand in its context.
fn changed(alloc: Global, change: Change, a: Measured) -> Result<Measured, AllocError>
    ensures { (m : Meaning) → Matches a m
        → IfOk result (λ r. Matches r (meaning.each_bit (operations.changed_by change) m)) }
{
    let Measured {
        size,
        signed,
        pending,
    } = a;
    Ok(Measured {
        size,
        signed,
        pending: Pending::Changed(change, Boxed::new(alloc, pending)?),
    })
}

/// The bit of a reduction, turned or not.
fn reduced(reduction: Reduction, turn: bool, a: &Measured) -> Measured
    ensures { (m : Meaning) → Matches a.now m
        → Matches result (meaning.reduced (λ w x. shapes.turned turn (shapes.reduced_by reduction w x)) m) }
{
    let own = a.own();
    let bit = match reduction {
        Reduction::And => bit_ops::red_and(own),
        Reduction::Or => bit_ops::red_or(own),
        Reduction::Xor => bit_ops::red_xor(own),
    };
    alone(turned(turn, bit), false)
}

/// A bit, turned or not.
fn turned(turn: bool, bit: Bits) -> Bits
    requires { bit.width ≡ 1 }
    ensures width { result.width ≡ 1 }
    ensures word { result.word ≡ shapes.turned turn bit.word }
{
    if turn { bit_ops::bit_not(bit) } else { bit }
}

/// What an operator of a shape makes of the operand behind it.
fn unary(alloc: Global, shape: UnaryShape, a: Measured) -> Result<Measured, AllocError>
    ensures { (m : Meaning) → Matches a m → IfOk result (λ r. Matches r (shapes.unary_meaning shape m)) }
{
    match shape {
        UnaryShape::Same => Ok(a),
        UnaryShape::Change(change) => changed(alloc, change, a),
        UnaryShape::LogicalNot => Ok(flag(!a.holds())),
        UnaryShape::Reduction(reduction, turn) => Ok(reduced(reduction, turn, &a)),
    }
}

/// An operation on two operands in their context.
fn combined(
    alloc: Global,
    operation: Operation,
    a: Measured,
    b: Measured,
) -> Result<Measured, AllocError>
    ensures { (m n : Meaning) → Matches a m → Matches b n
        → IfOk result (λ r. Matches r (meaning.combined (operations.combined_by operation) m n)) }
{
    Ok(Measured {
        size: a.size.max(b.size),
        signed: a.signed && b.signed,
        pending: Pending::Combined(
            operation,
            Boxed::new(alloc, a.pending)?,
            Boxed::new(alloc, b.pending)?,
        ),
    })
}

/// The bit of a comparison, turned or not: each operand is the other's context.
fn compared(comparison: Comparison, turn: bool, a: &Measured, b: &Measured) -> Measured
    ensures { (m n : Meaning) → Matches a.now m → Matches b.now n
        → Matches result
        (meaning.compared (λ w s x y. shapes.turned turn (shapes.compared_by comparison w s x y)) m n) }
{
    let size = a.size.max(b.size);
    let signed = a.signed && b.signed;
    let left = evaluate(&a.pending, size, signed);
    let right = evaluate(&b.pending, size, signed);
    alone(
        turned(turn, comparison_bit(comparison, signed, left, right)),
        false,
    )
}

fn comparison_bit(comparison: Comparison, signed: bool, a: Bits, b: Bits) -> Bits
    requires { a.width ≡ b.width }
    ensures width { result.width ≡ 1 }
    ensures word { result.word ≡ shapes.compared_by comparison a.width signed a.word b.word }
{
    match comparison {
        Comparison::Equal => bit_ops::eq(a, b),
        Comparison::Less => less(signed, a, b),
        Comparison::Greater => less(signed, b, a),
    }
}

fn less(signed: bool, a: Bits, b: Bits) -> Bits
    requires { a.width ≡ b.width }
    ensures width { result.width ≡ 1 }
    ensures word { result.word ≡ operators.less a.width signed a.word b.word }
{
    if signed {
        bit_ops::lt_s(a, b)
    } else {
        bit_ops::lt_u(a, b)
    }
}

/// An operation on an operand in its context, by another by itself.
pub fn moved(
    alloc: Global,
    movement: Movement,
    a: Measured,
    b: &Measured,
) -> Result<Measured, AllocError>
    ensures { (m n : Meaning) → Matches a m → Matches b.now n
        → IfOk result (λ r. Matches r (meaning.moved (operations.moved_by movement) m n)) }
{
    let amount = b.own().word;
    let Measured {
        size,
        signed,
        pending,
    } = a;
    Ok(Measured {
        size,
        signed,
        pending: Pending::Moved(movement, Boxed::new(alloc, pending)?, amount),
    })
}

/// What an operator of a shape makes of two operands.
fn binary(
    alloc: Global,
    shape: BinaryShape,
    a: Measured,
    b: Measured,
) -> Result<Measured, AllocError>
    ensures { (m n : Meaning) → Matches a m → Matches b n
        → IfOk result (λ r. Matches r (shapes.binary_meaning shape m n)) }
{
    match shape {
        BinaryShape::Operation(operation) => combined(alloc, operation, a, b),
        BinaryShape::Comparison(comparison, turn) => Ok(compared(comparison, turn, &a, &b)),
        BinaryShape::LogicalAnd => Ok(flag(a.holds() && b.holds())),
        BinaryShape::LogicalOr => Ok(flag(a.holds() || b.holds())),
        BinaryShape::Movement(movement) => moved(alloc, movement, a, &b),
    }
}

/// A choice between two values, both of which decide its size and sign.
pub fn chosen(condition: &Measured, a: Measured, b: Measured) -> Measured
    ensures { (c m n : Meaning) → Matches condition.now c → Matches a m → Matches b n
        → Matches result (meaning.chosen c m n) }
{
    let size = a.size.max(b.size);
    let signed = a.signed && b.signed;
    let pending = if condition.holds() {
        a.pending
    } else {
        b.pending
    };
    Measured {
        size,
        signed,
        pending,
    }
}

/// An operator before an operand, by its sign.
pub fn unary_by(alloc: Global, sign: &Id, a: Measured) -> Result<Measured, ConstFault>
    ensures { (m : Meaning) → Matches a m → Agrees Matches result (spec.unary_on sign.now m) }
{
    match Unary::of(sign.name.bytes()) {
        Some(operator) => Ok(unary(alloc, UnaryShape::of(operator), a)?),
        None => Err(refused_at(alloc, Kind::Unexpected, sign)?),
    }
}

/// A power, whose exponent is not negative.
fn raised(alloc: Global, sign: &Id, a: Measured, b: &Measured) -> Result<Measured, ConstFault>
    ensures { (m n : Meaning) → Matches a m → Matches b.now n
        → Agrees Matches result (spec.raised true sign.now m n) }
{
    if b.number().is_negative() {
        return Err(unnamed_at(alloc, Kind::BadRange, sign.place));
    }
    Ok(moved(alloc, Movement::Power, a, b)?)
}

/// An operator between two operands: a power asks something of them, the others nothing.
fn binary_judged(
    alloc: Global,
    operator: Binary,
    sign: &Id,
    a: Measured,
    b: Measured,
) -> Result<Measured, ConstFault>
    ensures { (m n : Meaning) → Matches a m → Matches b n
        → Agrees Matches result (spec.binary_judged operator true sign.now m n) }
{
    match operator {
        Binary::Power => raised(alloc, sign, a, &b),
        _ => Ok(binary(alloc, BinaryShape::of(operator), a, b)?),
    }
}

/// An operator between two operands, by its sign.
pub fn binary_by(alloc: Global, sign: &Id, a: Measured, b: Measured) -> Result<Measured, ConstFault>
    ensures { (m n : Meaning) → Matches a m → Matches b n
        → Agrees Matches result (spec.binary_on true sign.now m n) }
{
    match Binary::of(sign.name.bytes()) {
        Some(operator) => binary_judged(alloc, operator, sign, a, b),
        None => Err(refused_at(alloc, Kind::Unexpected, sign)?),
    }
}

/// A system function, by its name.
pub fn function_by(alloc: Global, name: &Id, a: &Measured) -> Result<Measured, ConstFault>
    ensures { (m : Meaning) → Matches a.now m → Agrees Matches result (spec.system_on true name.now m) }
{
    let own = a.own();
    match Function::of(name.name.bytes()) {
        Some(Function::Signed) => Ok(alone(own, true)),
        Some(Function::Unsigned) => Ok(alone(own, false)),
        Some(Function::Logarithm) => {
            Ok(alone(Bits::truncated(32, Word::from(logarithm(own.word))), true))
        }
        None => Err(refused_at(alloc, Kind::Unexpected, name)?),
    }
}
