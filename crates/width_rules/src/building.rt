//! Terms of operations.

ghost use Rattle.std.specs.Prelude.{◌≡◌, IfOk};
ghost use Rattle.width_rules.specs.Building as spec;

use crate::pending::Shift;
use bit_ops::Op;
use const_eval::{Change, Operation, Reduction};
use net_ir::Term;
use sqlite_items::Items;
use std::alloc::{AllocError, Global};

/// An operation on one term.
pub fn one_of(alloc: Global, op: Op, width: u32, a: Term) -> Result<Term, AllocError>
    ensures term { IfOk result (λ t. t ≡ spec.one_of op width a) }
{
    let mut args = Items::new(alloc);
    args.push(a)?;
    Ok(Term::Apply {
        op,
        width,
        lo: 0,
        args,
    })
}

/// An operation on two terms.
pub fn two_of(alloc: Global, op: Op, width: u32, a: Term, b: Term) -> Result<Term, AllocError>
    ensures term { IfOk result (λ t. t ≡ spec.two_of op width a b) }
{
    let mut args = Items::new(alloc);
    args.push(a)?;
    args.push(b)?;
    Ok(Term::Apply {
        op,
        width,
        lo: 0,
        args,
    })
}

/// A choice between two terms, the first where a bit is 1.
pub fn choice_of(alloc: Global, width: u32, bit: Term, a: Term, b: Term) -> Result<Term, AllocError>
    ensures term { IfOk result (λ t. t ≡ spec.choice_of width bit a b) }
{
    let mut args = Items::new(alloc);
    args.push(bit)?;
    args.push(a)?;
    args.push(b)?;
    Ok(Term::Apply {
        op: Op::Mux,
        width,
        lo: 0,
        args,
    })
}

/// A term of a width at a size, in a context of this sign.
pub fn extended_to(
    alloc: Global,
    size: u32,
    signed: bool,
    width: u32,
    term: Term,
) -> Result<Term, AllocError>
    ensures term { IfOk result (λ t. t ≡ spec.extended_to size signed width term) }
{
    if width == size {
        return Ok(term);
    }
    let op = if signed { Op::Sext } else { Op::Zext };
    one_of(alloc, op, size, term)
}

/// A term of a size, cut to a width.
pub fn cut_to(alloc: Global, width: u32, size: u32, term: Term) -> Result<Term, AllocError>
    ensures term { IfOk result (λ t. t ≡ spec.cut_to width size term) }
{
    if width == size {
        Ok(term)
    } else {
        one_of(alloc, Op::Slice, width, term)
    }
}

/// A bit, turned or not.
pub fn turned_to(alloc: Global, turn: bool, bit: Term) -> Result<Term, AllocError>
    ensures term { IfOk result (λ t. t ≡ spec.turned_to turn bit) }
{
    if turn {
        one_of(alloc, Op::Not, 1, bit)
    } else {
        Ok(bit)
    }
}

/// The operation that changes one term.
pub fn change_by(change: Change) -> Op
    ensures { result ≡ spec.change_by change }
{
    match change {
        Change::Negate => Op::Neg,
        Change::Invert => Op::Not,
    }
}

/// The operation of a shift.
pub fn shift_by(shift: Shift, signed: bool) -> Op
    ensures { result ≡ spec.shift_by shift signed }
{
    match shift {
        Shift::Left => Op::Shl,
        Shift::ArithmeticRight if signed => Op::ShrS,
        Shift::ArithmeticRight | Shift::Right => Op::ShrU,
    }
}

/// The operation that makes one of two terms; of `^~` it is the one whose bits are then turned.
fn operation_by(operation: Operation, signed: bool) -> Op
    ensures { result ≡ spec.operation_by operation signed }
{
    match operation {
        Operation::Add => Op::Add,
        Operation::Subtract => Op::Sub,
        Operation::Multiply => Op::Mul,
        Operation::Divide if signed => Op::DivS,
        Operation::Divide => Op::DivU,
        Operation::Remainder if signed => Op::ModS,
        Operation::Remainder => Op::ModU,
        Operation::And => Op::And,
        Operation::Or => Op::Or,
        Operation::Xor | Operation::Xnor => Op::Xor,
    }
}

/// What is made of two terms of a size.
pub fn combined_to(
    alloc: Global,
    operation: Operation,
    size: u32,
    signed: bool,
    a: Term,
    b: Term,
) -> Result<Term, AllocError>
    ensures term { IfOk result (λ t. t ≡ spec.combined_to operation size signed a b) }
{
    let both = two_of(alloc, operation_by(operation, signed), size, a, b)?;
    match operation {
        Operation::Xnor => one_of(alloc, Op::Not, size, both),
        _ => Ok(both),
    }
}

/// The operation of a reduction.
pub fn reduction_by(reduction: Reduction) -> Op
    ensures { result ≡ spec.reduction_by reduction }
{
    match reduction {
        Reduction::And => Op::RedAnd,
        Reduction::Or => Op::RedOr,
        Reduction::Xor => Op::RedXor,
    }
}
