//! What each slot reads, as the rows of a graph.

ghost use Rattle.std.specs.Prelude.{◌≡◌, ◌<◌, ◌^◌, ◌++◌, [], List, ℕ, length, map, replicate, slice_index, All, IfOk, OnOk};
ghost use Rattle.std.specs.List.{flat_map};
ghost use Rattle.code_isa.specs.Slots.{operand_slots};
ghost use Rattle.code_isa.specs.Dependence.{kid_reads, reads_of};
ghost use Rattle.code_isa.specs.Checks.{IsPortShaped, IsSlotOrdered};
ghost use Rattle.code_check.specs.Told.{HasFewSlots};
ghost use Rattle.code_check.specs.code.Reads.{IsNarrow, AreJoinedWithin};

use code_isa::{Instr, Kid, Machine, input_count, operands};
use levelise::Graph;
use std::alloc::{AllocError, Global};
use sv_base::Sequence;

/// These slots as numbers of 32 bits.
fn narrow(alloc: Global, slots: &[u64]) -> Result<Sequence<u32>, AllocError>
    requires { IsNarrow slots.now }
    ensures { IfOk result (λ row. row ≡ slots.now) }
{
    let mut row = Vec::with_capacity(alloc, slots.len())?;
    for slot in slots {
        row.push(*slot as u32)?;
    }
    Ok(Sequence::from_vec(row))
}

/// The slots that an instruction reads.
fn operand_row(alloc: Global, i: &Instr) -> Result<Sequence<u32>, AllocError>
    requires { IsNarrow (operand_slots i.now) }
    ensures { IfOk result (λ row. row ≡ operand_slots i.now) }
{
    let (slots, count) = operands(i);
    narrow(alloc, &slots[..count])
}

/// The slots that the inputs at these positions are joined to.
fn joined_row(alloc: Global, ins: &[u64], row: &[u32]) -> Result<Sequence<u32>, AllocError>
    requires inside { All (λ p. p < length ins.now) row.now }
    requires narrow { IsNarrow ins.now }
    ensures { IfOk result (λ slots. slots ≡ map (λ p. slice_index ins.now p) row.now) }
{
    let mut slots = Vec::with_capacity(alloc, row.len())?;
    for p in row {
        slots.push(ins[*p as usize] as u32)?;
    }
    Ok(Sequence::from_vec(slots))
}

/// Adds the rows of one child's outputs.
fn add_kid(alloc: Global, rows: &mut Sequence<Sequence<u32>>, kid: &Kid) -> Result<(), AllocError>
    requires inside { AreJoinedWithin kid.now }
    requires narrow { IsNarrow kid.now.ins }
    ensures { OnOk result (rows.new ≡ rows.old ++ kid_reads kid.now) }
{
    for row in kid.summary.rows.as_slice() {
        rows.push(joined_row(alloc, kid.ins.as_slice(), row.as_slice())?)?;
    }
    Ok(())
}

/// Adds the rows of the outputs of children.
fn add_kids(
    alloc: Global,
    rows: &mut Sequence<Sequence<u32>>,
    kids: &[Kid],
) -> Result<(), AllocError>
    requires inside { All AreJoinedWithin kids.now }
    requires narrow { All (λ kid. IsNarrow kid.ins) kids.now }
    ensures { OnOk result (rows.new ≡ rows.old ++ flat_map kid_reads kids.now) }
{
    for kid in kids {
        add_kid(alloc, rows, kid)?;
    }
    Ok(())
}

/// Adds the rows of instructions.
fn add_code(
    alloc: Global,
    rows: &mut Sequence<Sequence<u32>>,
    code: &[Instr],
) -> Result<(), AllocError>
    requires { All (λ i. IsNarrow (operand_slots i)) code.now }
    ensures { OnOk result (rows.new ≡ rows.old ++ map operand_slots code.now) }
{
    for i in code {
        rows.push(operand_row(alloc, i)?)?;
    }
    Ok(())
}

/// This many empty rows.
fn empty_rows(alloc: Global, count: usize) -> Result<Sequence<Sequence<u32>>, AllocError>
    ensures { IfOk result (λ rows. rows ≡ replicate count []) }
{
    let mut rows = Sequence::new(alloc);
    for _ in 0..count {
        rows.push(Sequence::new(alloc))?;
    }
    Ok(rows)
}

/// What each slot of a machine reads.
pub fn reads(alloc: Global, m: &Machine) -> Result<Graph, AllocError>
    requires few { HasFewSlots m.now }
    requires ports { IsPortShaped m.now }
    requires order { IsSlotOrdered m.now }
    ensures { IfOk result (λ graph. graph.reads ≡ reads_of m.now) }
{
    let mut rows = empty_rows(alloc, input_count(&m.face) + m.regs.as_slice().len())?;
    add_kids(alloc, &mut rows, m.kids.as_slice())?;
    add_code(alloc, &mut rows, m.code.as_slice())?;
    Ok(Graph { reads: rows })
}
