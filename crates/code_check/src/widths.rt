//! Whether the widths of a machine fit: those of each operation, and of each slot that a register, a port or a child's
//! port takes.

ghost use Rattle.std.specs.Prelude.{◌≡◌, ◌<◌, [], ◌∷◌, ◌↔◌, length, map, slice_index, All, IsTrue, IfOk};
ghost use Rattle.bit_ops.specs.Width.{WidthsFit};
ghost use Rattle.code_isa.specs.Faces.{input_widths};
ghost use Rattle.code_isa.specs.Slots.{operand_slots};
ghost use Rattle.code_isa.specs.Values.{operand_widths};
ghost use Rattle.code_isa.specs.Checks.{IsSlotOrdered, IsSlotWide};

use bit_ops::Op;
use code_isa::{Instr, Kid, Machine, Reg, input_widths, operands, output_widths, slot_widths};
use std::alloc::{AllocError, Global};

/// Whether an operation with a result of width `w` takes one operand of width `n`.
fn takes_one(op: Op, w: u32, lo: u32, n: u32) -> bool
    ensures { IsTrue result ↔ WidthsFit op w lo (n ∷ []) }
{
    match op {
        Op::Const | Op::Not | Op::Neg => n == w,
        Op::Zext | Op::Sext => n <= w,
        Op::Slice => u64::from(lo) + u64::from(w) <= u64::from(n),
        Op::RedAnd | Op::RedOr | Op::RedXor => w == 1,
        _ => false,
    }
}

/// Whether an operation with a result of width `w` takes two operands of widths `n` and `m`.
fn takes_two(op: Op, w: u32, lo: u32, n: u32, m: u32) -> bool
    ensures { IsTrue result ↔ WidthsFit op w lo (n ∷ m ∷ []) }
{
    match op {
        Op::Concat => u64::from(n) + u64::from(m) == u64::from(w),
        Op::And | Op::Or | Op::Xor | Op::Add | Op::Sub | Op::Mul => n == w && m == w,
        Op::DivU | Op::DivS | Op::ModU | Op::ModS => n == w && m == w,
        Op::Shl | Op::ShrU | Op::ShrS => n == w,
        Op::Eq | Op::LtU | Op::LtS => n == m && w == 1,
        Op::Insert => n == w && u64::from(lo) + u64::from(m) <= u64::from(w),
        _ => false,
    }
}

/// Whether an operation with a result of width `w` takes a condition of width `c` and operands of widths `n` and `m`.
fn takes_three(op: Op, w: u32, c: u32, n: u32, m: u32) -> bool
    ensures { IsTrue result ↔ WidthsFit op w 0 (c ∷ n ∷ m ∷ []) }
{
    match op {
        Op::Mux => c == 1 && n == w && m == w,
        _ => false,
    }
}

/// Whether the condition on widths in the row of an instruction's operation holds, where the slots have these widths.
fn is_wide(i: &Instr, widths: &[u32]) -> bool
    requires { All (λ slot. slot < length widths.now) (operand_slots i.now) }
    ensures { IsTrue result ↔ WidthsFit i.now.op i.now.width i.now.lo (operand_widths widths.now i.now) }
{
    let (slots, count) = operands(i);
    match count {
        0 => true,
        1 => takes_one(i.op, i.width, i.lo, widths[slots[0] as usize]),
        2 => takes_two(
            i.op,
            i.width,
            i.lo,
            widths[slots[0] as usize],
            widths[slots[1] as usize],
        ),
        _ => takes_three(
            i.op,
            i.width,
            widths[slots[0] as usize],
            widths[slots[1] as usize],
            widths[slots[2] as usize],
        ),
    }
}

/// Whether the conditions on widths of all instructions hold.
fn is_code_wide(code: &[Instr], widths: &[u32]) -> bool
    requires { All (λ i. All (λ slot. slot < length widths.now) (operand_slots i)) code.now }
    ensures { IsTrue result ↔ All (λ i. WidthsFit i.op i.width i.lo (operand_widths widths.now i)) code.now }
{
    for i in code {
        if !is_wide(i, widths) {
            return false;
        }
    }
    true
}

/// Whether each register's next slot has its width.
fn are_nexts_wide(regs: &[Reg], widths: &[u32]) -> bool
    requires { All (λ r. r.next < length widths.now) regs.now }
    ensures { IsTrue result ↔ All (λ r. slice_index widths.now r.next ≡ r.width) regs.now }
{
    for r in regs {
        if widths[r.next as usize] != r.width {
            return false;
        }
    }
    true
}

/// Whether these slots have these widths, in this order.
fn have_widths(slots: &[u64], wanted: &[u32], widths: &[u32]) -> bool
    requires inside { All (λ slot. slot < length widths.now) slots.now }
    requires sized { length slots.now ≡ length wanted.now }
    ensures { IsTrue result ↔ (map (λ slot. slice_index widths.now slot) slots.now ≡ wanted.now) }
{
    for k in 0..slots.len() {
        if widths[slots[k] as usize] != wanted[k] {
            return false;
        }
    }
    true
}

/// Whether the slots that each child's inputs are joined to have their widths.
fn are_ins_wide(alloc: Global, kids: &[Kid], widths: &[u32]) -> Result<bool, AllocError>
    requires { All (λ kid. All (λ slot. slot < length widths.now) kid.ins) kids.now }
    ensures { IfOk result (λ wide. IsTrue wide ↔ All (λ kid. map (λ slot. slice_index widths.now slot) kid.ins ≡ input_widths kid.face) kids.now) }
{
    for kid in kids {
        let wanted = input_widths(alloc, &kid.face)?;
        if !have_widths(kid.ins.as_slice(), wanted.as_slice(), widths) {
            return Ok(false);
        }
    }
    Ok(true)
}

/// Whether all widths of a machine fit.
pub fn is_slot_wide(alloc: Global, m: &Machine) -> Result<bool, AllocError>
    requires { IsSlotOrdered m.now }
    ensures { IfOk result (λ wide. IsTrue wide ↔ IsSlotWide m.now) }
{
    let widths = slot_widths(alloc, m)?;
    let wanted = output_widths(alloc, &m.face)?;
    let ins = are_ins_wide(alloc, m.kids.as_slice(), widths.as_slice())?;
    if !is_code_wide(m.code.as_slice(), widths.as_slice()) {
        return Ok(false);
    }
    if !are_nexts_wide(m.regs.as_slice(), widths.as_slice()) {
        return Ok(false);
    }
    if !have_widths(m.outs.as_slice(), wanted.as_slice(), widths.as_slice()) {
        return Ok(false);
    }
    Ok(ins)
}
