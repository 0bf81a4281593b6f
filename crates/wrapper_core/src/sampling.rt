//! What registers sample at the edges of their clocks.

ghost use Rattle.std.specs.Prelude.{◌≡◌, ◌+◌, ◌<◌, ◌≤◌, ◌↔◌, ℕ, IfOk, OnOk, [], ◌∷◌, ◌++◌, length, map, replicate, slice_index, slice_set, All};
ghost use Rattle.bit_ops.specs.Lists.{words, widths};
ghost use Rattle.code_isa.specs.Slots.{slot_widths, first_register, first_instruction};
ghost use Rattle.code_isa.specs.Checks.{IsChecked};
ghost use Rattle.code_isa.specs.Marks.{HasNone};
ghost use Rattle.code_isa.specs.Faces.{clock_count};
ghost use Rattle.code_isa.specs.Uses.{row_of};
ghost use Rattle.code_isa.specs.Traces.{edge_occurs, sampled};
ghost use Rattle.wrapper_core.specs.code.Blocks.{IsBlock, Keeps, placed};
ghost use Rattle.wrapper_core.specs.code.Samplings.{AreClocked, IsSampling, IsKept, SamplesRow, registers_of_block};

use crate::block::Block;
use bit_ops::Bits;
use code_isa::{Checked, Machine, Marks, Reg};
use std::alloc::{AllocError, Global};
use sv_base::Sequence;

/// What the registers of a machine sample.
#[derive(Drop)]
pub struct Sampling {
    /// For each clock the registers that it triggers.
    rows: Vec<Sequence<u64>>,
    /// The value that each register will have.
    pub(crate) next: Vec<Bits>,
    /// The registers that may have another value now.
    due: Marks,
}

/// This many empty rows.
fn empty_rows(alloc: Global, count: usize) -> Result<Vec<Sequence<u64>>, AllocError>
    ensures { IfOk result (λ rows. rows.items ≡ replicate count []) }
{
    let mut rows = Vec::new(alloc);
    for _ in 0..count {
        rows.push(Sequence::new(alloc))?;
    }
    Ok(rows)
}

/// Adds a register to the row of a clock.
fn add_register(rows: &mut Vec<Sequence<u64>>, clock: u32, r: u64) -> Result<(), AllocError>
    requires { clock < length rows.old.items }
    ensures { OnOk result (rows.new.items ≡ slice_set rows.old.items clock (row_of rows.old.items clock ++ r ∷ [])) }
{
    rows[clock as usize].push(r)
}

/// For each clock of a machine the registers that it triggers.
fn rows_of(alloc: Global, regs: &[Reg], clocks: usize) -> Result<Vec<Sequence<u64>>, AllocError>
    requires { All (λ r. r.clock < clocks) regs.now }
    ensures sized { IfOk result (λ rows. length rows.items ≡ clocks) }
    ensures clocked { IfOk result (λ rows. AreClocked regs.now rows.items) }
{
    let mut rows = empty_rows(alloc, clocks)?;
    for r in 0..regs.len() {
        add_register(&mut rows, regs[r].clock, r as u64)?;
    }
    Ok(rows)
}

/// Whether an edge occurs where a clock goes from one level to another (IEEE 1800-2017, 9.4.2).
fn has_edge(falling: bool, from: bool, to: bool) -> bool
    ensures { result ≡ edge_occurs falling from to }
{
    if falling { from && !to } else { !from && to }
}

/// Samples a register where its edge occurs between these levels.
fn sample_one(
    r: u64,
    regs: &[Reg],
    slots: &[Bits],
    from: bool,
    to: bool,
    next: &mut Vec<Bits>,
    due: &mut Marks,
)
    requires inside { r < length regs.now }
    requires nexts { All (λ r. r.next < length slots.now) regs.now }
    requires wide { All (λ r. slice_index (widths slots.now) r.next ≡ r.width) regs.now }
    requires next { widths next.old.items ≡ map (λ r. r.width) regs.now }
    requires due { length due.old ≡ length regs.now }
    ensures { SamplesRow (r ∷ []) regs.now slots.now from to next.old.items next.new.items due.old due.new }
{
    let reg = regs[r as usize];
    if has_edge(reg.falling, from, to) {
        next[r as usize] = slots[reg.next as usize];
        due.insert(r as usize);
    }
}

/// Samples the registers in a row whose edge occurs between these levels.
fn sample_row(
    row: &[u64],
    regs: &[Reg],
    slots: &[Bits],
    from: bool,
    to: bool,
    next: &mut Vec<Bits>,
    due: &mut Marks,
)
    requires inside { All (λ r. r < length regs.now) row.now }
    requires nexts { All (λ r. r.next < length slots.now) regs.now }
    requires wide { All (λ r. slice_index (widths slots.now) r.next ≡ r.width) regs.now }
    requires next { widths next.old.items ≡ map (λ r. r.width) regs.now }
    requires due { length due.old ≡ length regs.now }
    ensures { SamplesRow row.now regs.now slots.now from to next.old.items next.new.items due.old due.new }
{
    if from == to {
        return;
    }
    for r in row {
        sample_one(*r, regs, slots, from, to, next, due);
    }
}

/// Samples the registers whose edge occurs between the old levels and the new ones.
fn sample_all(
    rows: &[Sequence<u64>],
    regs: &[Reg],
    slots: &[Bits],
    old: &[bool],
    new: &[bool],
    next: &mut Vec<Bits>,
    due: &mut Marks,
)
    requires rows { AreClocked regs.now rows.now }
    requires sized { length rows.now ≡ length new.now }
    requires levels { length old.now ≡ length new.now }
    requires clocks { All (λ r. r.clock < length new.now) regs.now }
    requires nexts { All (λ r. r.next < length slots.now) regs.now }
    requires wide { All (λ r. slice_index (widths slots.now) r.next ≡ r.width) regs.now }
    requires next { widths next.old.items ≡ map (λ r. r.width) regs.now }
    requires due { length due.old ≡ length regs.now }
    requires none { HasNone due.old }
    ensures next { words next.new.items ≡ sampled old.now new.now (words slots.now) regs.now (words next.old.items) }
    ensures wide { widths next.new.items ≡ widths next.old.items }
    ensures due { length due.new ≡ length due.old }
    ensures kept { IsKept due.new (words next.new.items) (words next.old.items) }
{
    for clock in 0..new.len() {
        let row = rows[clock].as_slice();
        sample_row(row, regs, slots, old[clock], new[clock], next, due);
    }
}

/// Gives the registers, which stand from `first` on, what was sampled.
fn give_all(next: &[Bits], first: usize, due: &mut Marks, block: &mut Block)
    requires block { IsBlock block.old }
    requires first { first ≡ first_register block.old.code.value }
    requires inside { first + length next.now ≤ first_instruction block.old.code.value }
    requires wide { widths next.now ≡ map (λ r. r.width) block.old.code.value.regs }
    requires due { length due.old ≡ length next.now }
    requires kept { IsKept due.old (words next.now) (registers_of_block block.old) }
    ensures block { IsBlock block.new }
    ensures keeps { Keeps block.old block.new }
    ensures given { words block.new.given.items ≡ placed (words block.old.given.items) first (words next.now) }
    ensures due { length due.new ≡ length due.old }
    ensures none { HasNone due.new }
{
    while let Some(r) = due.take_least() {
        block.put(first + r, next[r]);
    }
}

impl Sampling {
    /// Nothing is sampled yet: the registers have these values.
    pub fn new(
        alloc: Global,
        m: &Checked,
        registers: &[Bits],
        clocks: usize,
    ) -> Result<Sampling, AllocError>
        requires wide { widths registers.now ≡ map (λ r. r.width) m.now.regs }
        requires clocks { clocks ≡ clock_count m.now.face }
        ensures sampling { IfOk result (λ s. IsSampling m.now s (words registers.now)) }
        ensures none { IfOk result (λ s. HasNone s.due) }
        ensures next { IfOk result (λ s. s.next.items ≡ registers.now) }
    {
        let rows = rows_of(alloc, m.machine().regs.as_slice(), clocks)?;
        let next = Vec::from_slice(alloc, registers)?;
        let due = Marks::empty(alloc, registers.len())?;
        Ok(Sampling { rows, next, due })
    }

    /// Samples the registers whose edge occurs between the old levels and the new ones.
    pub fn sample(&mut self, m: &Checked, slots: &[Bits], old: &[bool], new: &[bool])
        requires sampling { IsSampling m.now self.old (words self.old.next.items) }
        requires none { HasNone self.old.due }
        requires shape { widths slots.now ≡ slot_widths m.now }
        requires old { length old.now ≡ clock_count m.now.face }
        requires new { length new.now ≡ clock_count m.now.face }
        ensures sampling { IsSampling m.now self.new (words self.old.next.items) }
        ensures next { words self.new.next.items ≡ sampled old.now new.now (words slots.now) m.now.regs (words self.old.next.items) }
    {
        let regs = m.machine().regs.as_slice();
        let rows = self.rows.as_slice();
        sample_all(rows, regs, slots, old, new, &mut self.next, &mut self.due);
    }

    /// Gives the registers, which stand from `first` on, what was sampled.
    pub fn commit(&mut self, block: &mut Block, first: usize)
        requires block { IsBlock block.old }
        requires first { first ≡ first_register block.old.code.value }
        requires sampling { IsSampling block.old.code.value self.old (registers_of_block block.old) }
        ensures block { IsBlock block.new }
        ensures keeps { Keeps block.old block.new }
        ensures given { words block.new.given.items ≡ placed (words block.old.given.items) first (words self.old.next.items) }
        ensures sampling { IsSampling block.old.code.value self.new (words self.old.next.items) }
        ensures none { HasNone self.new.due }
        ensures next { self.new.next ≡ self.old.next }
    {
        give_all(self.next.as_slice(), first, &mut self.due, block);
    }
}
