//! Values that wait for the size and the sign of their context (IEEE 1800-2017, 11.8.2).

ghost use Rattle.std.specs.Prelude.{◌≡◌, ◌≤◌, ◌-◌, ◌^◌, if◌then◌else◌};
ghost use Rattle.bit_ops.specs.Width.{IsWidth};
ghost use Rattle.const_eval.specs.Meaning.{extended};
ghost use Rattle.const_eval.specs.Operations.{changed_by, combined_by, moved_by};
ghost use Rattle.const_eval.specs.code.Waiting.{value_of, least_size};

use crate::power::raised_to;
use bit_ops::{Bits, Word};
use sqlite_items::Boxed;

/// What is done to one operand in the context.
#[derive(Clone, Copy, Debug, PartialEq, Eq)]
pub enum Change {
    Negate,
    Invert,
}

/// What is made of two operands that are both in the context.
#[derive(Clone, Copy, Debug, PartialEq, Eq)]
pub enum Operation {
    Add,
    Subtract,
    Multiply,
    Divide,
    Remainder,
    And,
    Or,
    Xor,
    Xnor,
}

/// What is made of an operand in the context by a number that is known.
#[derive(Clone, Copy, Debug, PartialEq, Eq)]
pub enum Movement {
    Left,
    Right,
    ArithmeticRight,
    Power,
}

/// A value whose context is not known yet.
#[derive(Drop)]
pub enum Pending {
    /// A value of its own, which the context extends.
    Alone(Bits),
    /// As many copies of a bit as the context has places.
    Fill(bool),
    Changed(Change, Boxed<Pending>),
    Combined(Operation, Boxed<Pending>, Boxed<Pending>),
    Moved(Movement, Boxed<Pending>, Word),
}

/// A value at a size of at least its own, in a context of this sign.
pub fn extended(bits: Bits, size: u32, signed: bool) -> Bits
    requires width { IsWidth size }
    requires fits { bits.width ≤ size }
    ensures width { result.width ≡ size }
    ensures word { result.word ≡ extended signed bits.width size bits.word }
{
    if signed {
        bit_ops::sext(bits, size)
    } else {
        bit_ops::zext(bits, size)
    }
}

fn fill(one: bool, size: u32) -> Bits
    requires { IsWidth size }
    ensures width { result.width ≡ size }
    ensures word { result.word ≡ (if one then 2 ^ size - 1 else 0) }
{
    let none = Bits::zero(size);
    if one { bit_ops::bit_not(none) } else { none }
}

fn changed(change: Change, a: Bits) -> Bits
    ensures width { result.width ≡ a.width }
    ensures word { result.word ≡ changed_by change a.width a.word }
{
    match change {
        Change::Negate => bit_ops::neg(a),
        Change::Invert => bit_ops::bit_not(a),
    }
}

fn combined(operation: Operation, signed: bool, a: Bits, b: Bits) -> Bits
    requires { a.width ≡ b.width }
    ensures width { result.width ≡ a.width }
    ensures word { result.word ≡ combined_by operation a.width signed a.word b.word }
{
    match operation {
        Operation::Add => bit_ops::add(a, b),
        Operation::Subtract => bit_ops::sub(a, b),
        Operation::Multiply => bit_ops::mul(a, b),
        Operation::Divide if signed => bit_ops::div_s(a, b),
        Operation::Divide => bit_ops::div_u(a, b),
        Operation::Remainder if signed => bit_ops::mod_s(a, b),
        Operation::Remainder => bit_ops::mod_u(a, b),
        Operation::And => bit_ops::bit_and(a, b),
        Operation::Or => bit_ops::bit_or(a, b),
        Operation::Xor => bit_ops::bit_xor(a, b),
        Operation::Xnor => bit_ops::bit_not(bit_ops::bit_xor(a, b)),
    }
}

fn moved(movement: Movement, signed: bool, a: Bits, amount: Word) -> Bits
    ensures width { result.width ≡ a.width }
    ensures word { result.word ≡ moved_by movement a.width signed a.word amount }
{
    let places = Bits::truncated(bit_ops::MAX_WIDTH, amount);
    match movement {
        Movement::Left => bit_ops::shl(a, places),
        Movement::ArithmeticRight if signed => bit_ops::shr_s(a, places),
        Movement::ArithmeticRight | Movement::Right => bit_ops::shr_u(a, places),
        Movement::Power => raised_to(a, amount),
    }
}

/// What a pending value is in a context of this size and sign.
pub fn evaluate(pending: &Pending, size: u32, signed: bool) -> Bits
    requires width { IsWidth size }
    requires fits { least_size pending.now ≤ size }
    ensures width { result.width ≡ size }
    ensures word { result.word ≡ value_of pending.now size signed }
{
    match pending {
        Pending::Alone(bits) => extended(*bits, size, signed),
        Pending::Fill(one) => fill(*one, size),
        Pending::Changed(change, a) => changed(*change, evaluate(a.get(), size, signed)),
        Pending::Combined(operation, a, b) => {
            let left = evaluate(a.get(), size, signed);
            let right = evaluate(b.get(), size, signed);
            combined(*operation, signed, left, right)
        }
        Pending::Moved(movement, a, amount) => {
            moved(*movement, signed, evaluate(a.get(), size, signed), *amount)
        }
    }
}
