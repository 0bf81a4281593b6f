//! Which instructions read a slot.

ghost use Rattle.std.specs.Prelude.{◌≡◌, ◌<◌, ◌≤◌, ◌↔◌, ℕ, [], ◌∷◌, length, replicate, All, Contains, IsTrue, IfOk, OnOk};
ghost use Rattle.code_isa.specs.Slots.{operand_slots};
ghost use Rattle.code_isa.specs.Uses.{row_of, Rises, AreUsesOf, AreUpTo, AddsReader};

use crate::checked::Checked;
use crate::machine::Instr;
use crate::slots::{first_instruction, operands};
use std::alloc::{AllocError, Global};
use sv_base::Sequence;

/// For each slot, the slots of the instructions that have it as an operand: a row a slot, in rising order, with each
/// instruction once.
#[derive(Debug, Drop)]
pub struct Uses {
    pub rows: Sequence<Sequence<u64>>,
}

/// Whether a number that is not below those of a row stands in it.
fn is_last(row: &[u64], reader: u64) -> bool
    requires rises { Rises row.now }
    requires below { All (λ r. r ≤ reader) row.now }
    ensures { IsTrue result ↔ Contains row.now reader }
{
    match row.last() {
        Some(last) => *last == reader,
        None => false,
    }
}

/// Adds a reader to the row of a slot, where it does not stand there yet.
fn add_reader(rows: &mut Vec<Sequence<u64>>, slot: u64, reader: u64) -> Result<(), AllocError>
    requires inside { slot < length rows.old.items }
    requires rise { (s : ℕ) → Rises (row_of rows.old.items s) }
    requires below { AreUpTo rows.old.items reader }
    ensures { OnOk result (AddsReader rows.old.items rows.new.items (slot ∷ []) reader) }
{
    let row = &mut rows[slot as usize];
    if is_last(row.as_slice(), reader) {
        return Ok(());
    }
    row.push(reader)
}

/// Adds an instruction to the rows of its operands.
fn add_readers(rows: &mut Vec<Sequence<u64>>, i: &Instr, reader: u64) -> Result<(), AllocError>
    requires inside { All (λ slot. slot < length rows.old.items) (operand_slots i.now) }
    requires rise { (s : ℕ) → Rises (row_of rows.old.items s) }
    requires below { AreUpTo rows.old.items reader }
    ensures { OnOk result (AddsReader rows.old.items rows.new.items (operand_slots i.now) reader) }
{
    let (slots, count) = operands(i);
    for slot in &slots[..count] {
        add_reader(rows, *slot, reader)?;
    }
    Ok(())
}

/// This many empty rows.
fn empty_rows(alloc: Global, count: usize) -> Result<Vec<Sequence<u64>>, AllocError>
    ensures { IfOk result (λ rows. rows.items ≡ replicate count []) }
{
    let mut rows = Vec::new(alloc);
    for _ in 0..count {
        rows.push(Sequence::new(alloc))?;
    }
    Ok(rows)
}

/// For each slot of a machine, the slots of the instructions that have it as an operand, in rising order.
pub fn uses_of(alloc: Global, m: &Checked) -> Result<Uses, AllocError>
    ensures { IfOk result (λ uses. AreUsesOf m.now uses.rows) }
{
    let m = m.machine();
    let first = first_instruction(m);
    let mut rows = empty_rows(alloc, first + m.code.as_slice().len())?;
    let mut reader = first as u64;
    for i in m.code.as_slice() {
        add_readers(&mut rows, i, reader)?;
        reader += 1;
    }
    Ok(Uses {
        rows: Sequence::from_vec(rows),
    })
}
