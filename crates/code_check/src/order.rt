//! Whether each slot that a machine names is there, and each operand below its own instruction's slot.

ghost use Rattle.std.specs.Prelude.{◌≡◌, ◌+◌, ◌<◌, ◌^◌, ◌↔◌, ℕ, Some, length, slice_get, All, IsTrue};
ghost use Rattle.code_isa.specs.declared.machine.Instr.{Instr};
ghost use Rattle.code_isa.specs.Slots.{operand_slots};
ghost use Rattle.code_isa.specs.Checks.{IsSlotOrdered};

use code_isa::{Instr, Kid, Machine, Reg, first_instruction, operands, slot_count};

/// Whether all these slots are below a number.
fn are_below(slots: &[u64], end: usize) -> bool
    ensures { IsTrue result ↔ All (λ slot. slot < end) slots.now }
{
    slots.iter().all(|slot| (*slot as usize) < end)
}

/// Whether all operands of an instruction are below a number.
fn has_operands_below(i: &Instr, end: usize) -> bool
    ensures { IsTrue result ↔ All (λ slot. slot < end) (operand_slots i.now) }
{
    let (slots, count) = operands(i);
    are_below(&slots[..count], end)
}

/// Whether the operands of each instruction are below its own slot, where the first has this one.
fn are_operands_ordered(code: &[Instr], first: usize) -> bool
    requires { first + length code.now < 2 ^ 64 }
    ensures { IsTrue result ↔ ((k : ℕ) (i : Instr) → slice_get code.now k ≡ Some i → All (λ slot. slot < first + k) (operand_slots i)) }
{
    for (k, i) in code.iter().enumerate() {
        if !has_operands_below(i, first + k) {
            return false;
        }
    }
    true
}

/// Whether the next slots of all registers are below a number.
fn are_nexts_below(regs: &[Reg], end: usize) -> bool
    ensures { IsTrue result ↔ All (λ r. r.next < end) regs.now }
{
    regs.iter().all(|r| (r.next as usize) < end)
}

/// Whether all slots that children's inputs are joined to are below a number.
fn are_ins_below(kids: &[Kid], end: usize) -> bool
    ensures { IsTrue result ↔ All (λ kid. All (λ slot. slot < end) kid.ins) kids.now }
{
    kids.iter().all(|kid| are_below(kid.ins.as_slice(), end))
}

/// Whether no slot that a machine names is out of place.
pub fn is_slot_ordered(m: &Machine) -> bool
    ensures { IsTrue result ↔ IsSlotOrdered m.now }
{
    let slots = slot_count(m);
    let operands = are_operands_ordered(m.code.as_slice(), first_instruction(m));
    let nexts = are_nexts_below(m.regs.as_slice(), slots);
    let ins = are_ins_below(m.kids.as_slice(), slots);
    let outs = are_below(m.outs.as_slice(), slots);
    operands && nexts && ins && outs
}
