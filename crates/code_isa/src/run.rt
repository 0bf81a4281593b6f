//! The evaluation of a machine's code.

ghost use Rattle.std.specs.Prelude.{◌≡◌, ◌<◌, length, All};
ghost use Rattle.bit_ops.specs.Width.{WidthsFit};
ghost use Rattle.bit_ops.specs.Lists.{words, widths};
ghost use Rattle.code_isa.specs.Slots.{slot_widths, operand_slots};
ghost use Rattle.code_isa.specs.Values.{operand_widths, instr_value, IsRun, KeepsGiven};
ghost use Rattle.code_isa.specs.Checks.{IsChecked};

use crate::machine::{Instr, Machine};
use bit_ops::{
    Bits, Op, add, bit_and, bit_not, bit_or, bit_xor, concat, div_s, div_u, eq, insert, lt_s, lt_u,
    mod_s, mod_u, mul, mux, neg, red_and, red_or, red_xor, sext, shl, shr_s, shr_u, slice, sub,
    zext,
};

/// The value of an instruction, whose operands are read where they stand.
pub(crate) fn value(i: &Instr, slots: &[Bits]) -> Bits
    requires there { All (λ slot. slot < length slots.now) (operand_slots i.now) }
    requires fits { WidthsFit i.now.op i.now.width i.now.lo (operand_widths (widths slots.now) i.now) }
    ensures width { result.width ≡ i.now.width }
    ensures word { result.word ≡ instr_value (widths slots.now) (words slots.now) i.now }
{
    match i.op {
        Op::Const => Bits::new(i.width, i.value),
        Op::Zext => zext(slots[i.a as usize], i.width),
        Op::Sext => sext(slots[i.a as usize], i.width),
        Op::Slice => slice(slots[i.a as usize], i.lo, i.width),
        Op::Concat => concat(slots[i.a as usize], slots[i.b as usize]),
        Op::Not => bit_not(slots[i.a as usize]),
        Op::Neg => neg(slots[i.a as usize]),
        Op::And => bit_and(slots[i.a as usize], slots[i.b as usize]),
        Op::Or => bit_or(slots[i.a as usize], slots[i.b as usize]),
        Op::Xor => bit_xor(slots[i.a as usize], slots[i.b as usize]),
        Op::Add => add(slots[i.a as usize], slots[i.b as usize]),
        Op::Sub => sub(slots[i.a as usize], slots[i.b as usize]),
        Op::Mul => mul(slots[i.a as usize], slots[i.b as usize]),
        Op::DivU => div_u(slots[i.a as usize], slots[i.b as usize]),
        Op::DivS => div_s(slots[i.a as usize], slots[i.b as usize]),
        Op::ModU => mod_u(slots[i.a as usize], slots[i.b as usize]),
        Op::ModS => mod_s(slots[i.a as usize], slots[i.b as usize]),
        Op::Shl => shl(slots[i.a as usize], slots[i.b as usize]),
        Op::ShrU => shr_u(slots[i.a as usize], slots[i.b as usize]),
        Op::ShrS => shr_s(slots[i.a as usize], slots[i.b as usize]),
        Op::Eq => eq(slots[i.a as usize], slots[i.b as usize]),
        Op::LtU => lt_u(slots[i.a as usize], slots[i.b as usize]),
        Op::LtS => lt_s(slots[i.a as usize], slots[i.b as usize]),
        Op::RedAnd => red_and(slots[i.a as usize]),
        Op::RedOr => red_or(slots[i.a as usize]),
        Op::RedXor => red_xor(slots[i.a as usize]),
        Op::Mux => mux(
            slots[i.c as usize],
            slots[i.a as usize],
            slots[i.b as usize],
        ),
        Op::Insert => insert(slots[i.a as usize], slots[i.b as usize], i.lo),
    }
}

/// Gives every instruction's slot the value of its operands, and changes no other slot. Takes no memory.
pub fn run_slots(m: &Machine, slots: &mut Vec<Bits>)
    requires checked { IsChecked m.now }
    requires shape { widths slots.old.items ≡ slot_widths m.now }
    ensures shape { widths slots.new.items ≡ slot_widths m.now }
    ensures run { IsRun m.now (words slots.new.items) }
    ensures given { KeepsGiven m.now (words slots.old.items) (words slots.new.items) }
{
    let mut at = slots.len() - m.code.len();
    for i in m.code.as_slice() {
        let result = value(i, slots.as_slice());
        slots[at] = result;
        at += 1;
    }
}
