//! The value of an operation, by its row of the table of operations.

ghost use Rattle.std.specs.Prelude.{◌≡◌, [], ◌∷◌};
ghost use Rattle.bit_ops.specs.Width.{IsWidth, WidthsFit};
ghost use Rattle.bit_ops.specs.Rows.{value_of};
ghost use Rattle.bit_ops.specs.Lists.{widths};
ghost use Rattle.net_ir.specs.Value.{operands};

use bit_ops::{
    Bits, Op, add, bit_and, bit_not, bit_or, bit_xor, concat, div_s, div_u, eq, insert, lt_s, lt_u,
    mod_s, mod_u, mul, mux, neg, red_and, red_or, red_xor, sext, shl, shr_s, shr_u, slice, sub,
    zext,
};

/// The value of an operation on one operand.
fn apply_one(op: Op, width: u32, lo: u32, a: Bits) -> Bits
    requires width { IsWidth width }
    requires fits { WidthsFit op width lo (a.width ∷ []) }
    ensures width { result.width ≡ width }
    ensures word { result.word ≡ value_of op width lo ((a.width, a.word) ∷ []) }
{
    match op {
        Op::Const => a,
        Op::Zext => zext(a, width),
        Op::Sext => sext(a, width),
        Op::Slice => slice(a, lo, width),
        Op::Not => bit_not(a),
        Op::Neg => neg(a),
        Op::RedAnd => red_and(a),
        Op::RedOr => red_or(a),
        Op::RedXor => red_xor(a),
        _ => unreachable!(),
    }
}

/// The value of an operation on two operands.
fn apply_two(op: Op, width: u32, lo: u32, a: Bits, b: Bits) -> Bits
    requires width { IsWidth width }
    requires fits { WidthsFit op width lo (a.width ∷ b.width ∷ []) }
    ensures width { result.width ≡ width }
    ensures word { result.word ≡ value_of op width lo ((a.width, a.word) ∷ (b.width, b.word) ∷ []) }
{
    match op {
        Op::Concat => concat(a, b),
        Op::And => bit_and(a, b),
        Op::Or => bit_or(a, b),
        Op::Xor => bit_xor(a, b),
        Op::Add => add(a, b),
        Op::Sub => sub(a, b),
        Op::Mul => mul(a, b),
        Op::DivU => div_u(a, b),
        Op::DivS => div_s(a, b),
        Op::ModU => mod_u(a, b),
        Op::ModS => mod_s(a, b),
        Op::Shl => shl(a, b),
        Op::ShrU => shr_u(a, b),
        Op::ShrS => shr_s(a, b),
        Op::Eq => eq(a, b),
        Op::LtU => lt_u(a, b),
        Op::LtS => lt_s(a, b),
        Op::Insert => insert(a, b, lo),
        _ => unreachable!(),
    }
}

/// The value of an operation on its operands, by its row of the table of operations.
pub fn apply(op: Op, width: u32, lo: u32, values: &[Bits]) -> Bits
    requires width { IsWidth width }
    requires fits { WidthsFit op width lo (widths values.now) }
    ensures width { result.width ≡ width }
    ensures word { result.word ≡ value_of op width lo (operands values.now) }
{
    match values {
        [a] => apply_one(op, width, lo, *a),
        [a, b] => apply_two(op, width, lo, *a, *b),
        [a, b, c] => mux(*a, *b, *c),
        _ => unreachable!(),
    }
}
