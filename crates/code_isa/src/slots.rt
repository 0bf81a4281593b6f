//! The slots of a machine: how many there are, their widths, and those that an instruction takes.

ghost use Rattle.std.specs.Prelude.{◌≡◌, ◌^◌, ◌<◌, ◌≤◌, ◌++◌, map, take, IfOk, OnOk};
ghost use Rattle.std.specs.List.{flat_map};
ghost use Rattle.bit_ops.specs.Lists.{widths};
ghost use Rattle.code_isa.specs.Faces.{input_count, input_widths, output_widths};
ghost use Rattle.code_isa.specs.Operands.{operand_count};
ghost use Rattle.code_isa.specs.Slots.{first_instruction, slot_count, slot_widths, operand_slots};

use crate::machine::{Instr, Kid, Machine, Reg};
use bit_ops::{Bits, Op};
use std::alloc::{AllocError, Global};
use sv_base::{Class, Face};

/// How many data inputs a face has.
pub fn input_count(face: &Face) -> usize
    ensures { result ≡ input_count face.now }
{
    let ports = face.ports.as_slice().iter();
    ports.filter(|p| matches!(p.class, Class::Value)).count()
}

/// How many slots stand before those of the instructions.
pub fn first_instruction(m: &Machine) -> usize
    ensures count { result ≡ first_instruction m.now }
    ensures few { result < 2 ^ 60 }
{
    let mut outputs = 0;
    for kid in m.kids.as_slice() {
        outputs += kid.summary.rows.len();
    }
    input_count(&m.face) + m.regs.as_slice().len() + outputs
}

/// How many slots there are.
pub fn slot_count(m: &Machine) -> usize
    ensures { result ≡ slot_count m.now }
{
    first_instruction(m) + m.code.as_slice().len()
}

/// The widths of a face's data inputs.
pub fn input_widths(alloc: Global, face: &Face) -> Result<Vec<u32>, AllocError>
    ensures { IfOk result (λ widths. widths.items ≡ input_widths face.now) }
{
    let ports = face.ports.as_slice().iter();
    ports
        .filter(|p| matches!(p.class, Class::Value))
        .map(|p| p.width)
        .collect(alloc)
}

/// The widths of a face's outputs.
pub fn output_widths(alloc: Global, face: &Face) -> Result<Vec<u32>, AllocError>
    ensures { IfOk result (λ widths. widths.items ≡ output_widths face.now) }
{
    let ports = face.ports.as_slice().iter();
    ports
        .filter(|p| matches!(p.class, Class::Output))
        .map(|p| p.width)
        .collect(alloc)
}

/// Adds the widths of registers.
fn add_registers(widths: &mut Vec<u32>, regs: &[Reg]) -> Result<(), AllocError>
    ensures { OnOk result (widths.new.items ≡ widths.old.items ++ map (λ r. r.width) regs.now) }
{
    for r in regs {
        widths.push(r.width)?;
    }
    Ok(())
}

/// Adds the widths of the outputs of children.
fn add_outputs(alloc: Global, widths: &mut Vec<u32>, kids: &[Kid]) -> Result<(), AllocError>
    ensures { OnOk result (widths.new.items ≡ widths.old.items ++ flat_map (λ kid. output_widths kid.face) kids.now) }
{
    for kid in kids {
        widths.extend_from_slice(output_widths(alloc, &kid.face)?.as_slice())?;
    }
    Ok(())
}

/// Adds the widths of instructions.
fn add_instructions(widths: &mut Vec<u32>, code: &[Instr]) -> Result<(), AllocError>
    ensures { OnOk result (widths.new.items ≡ widths.old.items ++ map (λ i. i.width) code.now) }
{
    for i in code {
        widths.push(i.width)?;
    }
    Ok(())
}

/// The widths of all slots.
pub fn slot_widths(alloc: Global, m: &Machine) -> Result<Vec<u32>, AllocError>
    ensures { IfOk result (λ widths. widths.items ≡ slot_widths m.now) }
{
    let mut widths = input_widths(alloc, &m.face)?;
    add_registers(&mut widths, m.regs.as_slice())?;
    add_outputs(alloc, &mut widths, m.kids.as_slice())?;
    add_instructions(&mut widths, m.code.as_slice())?;
    Ok(widths)
}

/// Slots for a machine, each with its width and with 0 in it.
pub fn zero_slots(alloc: Global, m: &Machine) -> Result<Vec<Bits>, AllocError>
    ensures { IfOk result (λ slots. widths slots.items ≡ slot_widths m.now) }
{
    let widths = slot_widths(alloc, m)?;
    let mut slots = Vec::with_capacity(alloc, widths.len())?;
    for width in widths.as_slice() {
        slots.push(Bits::zero(*width))?;
    }
    Ok(slots)
}

/// How many slots an operation has as operands.
fn operand_count(op: Op) -> usize
    ensures { result ≡ operand_count op }
{
    match op {
        Op::Const => 0,
        Op::Zext | Op::Sext | Op::Slice | Op::Not | Op::Neg => 1,
        Op::RedAnd | Op::RedOr | Op::RedXor => 1,
        Op::Mux => 3,
        _ => 2,
    }
}

/// The slots of an instruction's operands, which are the first of the three, and how many there are.
pub fn operands(i: &Instr) -> ([u64; 3], usize)
    ensures count { result.1 ≤ 3 }
    ensures slots { take result.1 result.0 ≡ operand_slots i.now }
{
    match operand_count(i.op) {
        0 => ([0; 3], 0),
        1 => ([i.a, 0, 0], 1),
        2 => ([i.a, i.b, 0], 2),
        _ => ([i.c, i.a, i.b], 3),
    }
}
