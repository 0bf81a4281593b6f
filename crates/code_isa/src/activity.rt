//! Evaluation by activity: only what is marked, and what reads a slot that changed.

ghost use Rattle.std.specs.Prelude.{◌≡◌, ◌+◌, ◌<◌, ◌≤◌, length, All, IfOk};
ghost use Rattle.bit_ops.specs.Lists.{words, widths};
ghost use Rattle.code_isa.specs.Slots.{slot_widths, slot_count, first_instruction};
ghost use Rattle.code_isa.specs.Values.{IsRun, KeepsGiven};
ghost use Rattle.code_isa.specs.Checks.{IsChecked};
ghost use Rattle.code_isa.specs.Marks.{HasNone};
ghost use Rattle.code_isa.specs.Uses.{AreUsesOf};
ghost use Rattle.code_isa.specs.Activity.{HaveValuesBut, MarksRow, MarksReaders, RunsOne, due_count};

use crate::checked::Checked;
use crate::machine::Machine;
use crate::marks::Marks;
use crate::run::value;
use crate::uses::Uses;
use bit_ops::Bits;
use std::alloc::{AllocError, Global};

impl Marks {
    /// A mark for each instruction of a machine, none of them set.
    pub fn new(alloc: Global, m: &Checked) -> Result<Marks, AllocError>
        ensures size { IfOk result (λ marks. length marks ≡ length m.now.code) }
        ensures none { IfOk result HasNone }
    {
        Marks::empty(alloc, m.machine().code.as_slice().len())
    }
}

/// Marks the readers in a row, where the first instruction has the slot `first`.
fn mark_row(row: &[u64], first: u64, marks: &mut Marks)
    requires low { All (λ reader. first ≤ reader) row.now }
    requires high { All (λ reader. reader < first + length marks.old) row.now }
    ensures { MarksRow first row.now marks.old marks.new }
{
    for reader in row {
        marks.insert((*reader - first) as usize);
    }
}

/// The slot of the first instruction of a machine with this many slots.
fn first_of(m: &Machine, slots: usize) -> usize
    requires { slots ≡ slot_count m.now }
    ensures { result ≡ first_instruction m.now }
{
    slots - m.code.len()
}

/// Marks the readers of a slot besides those that are marked.
fn mark_readers(m: &Machine, uses: &Uses, first: usize, slot: usize, marks: &mut Marks)
    requires first { first ≡ first_instruction m.now }
    requires uses { AreUsesOf m.now uses.now.rows }
    requires marks { length marks.old ≡ length m.now.code }
    requires slot { slot < slot_count m.now }
    ensures { MarksReaders m.now slot marks.old marks.new }
{
    let readers = uses.rows.as_slice()[slot].as_slice();
    mark_row(readers, first as u64, marks);
}

/// Marks the instructions that have a slot as an operand, besides those that are marked. Takes no memory.
pub fn mark(m: &Checked, uses: &Uses, slot: u64, marks: &mut Marks)
    requires uses { AreUsesOf m.now uses.now.rows }
    requires marks { length marks.old ≡ length m.now.code }
    requires slot { slot < slot_count m.now }
    ensures { MarksReaders m.now slot marks.old marks.new }
{
    let m = m.machine();
    let first = first_of(m, uses.rows.len());
    mark_readers(m, uses, first, slot as usize, marks);
}

/// Does the instruction whose slot is the one that stands `k` after the first, and marks the readers of its slot where its
/// value has changed.
fn run_one(
    m: &Machine,
    uses: &Uses,
    first: usize,
    k: usize,
    slots: &mut Vec<Bits>,
    marks: &mut Marks,
)
    requires checked { IsChecked m.now }
    requires first { first ≡ first_instruction m.now }
    requires uses { AreUsesOf m.now uses.now.rows }
    requires inside { k < length m.now.code }
    requires shape { widths slots.old.items ≡ slot_widths m.now }
    requires marks { length marks.old ≡ length m.now.code }
    ensures shape { widths slots.new.items ≡ slot_widths m.now }
    ensures done { RunsOne m.now k (words slots.old.items) (words slots.new.items) marks.old marks.new }
{
    let at = first + k;
    let result = value(&m.code.as_slice()[k], slots.as_slice());
    if result.word == slots[at].word {
        return;
    }
    slots[at] = result;
    mark_readers(m, uses, first, at, marks);
}

/// Does the marked instructions in rising order, and those that read a slot whose value changes. Takes no memory. It
/// answers how many instructions were marked or have an operand whose value is another than before.
pub fn run_marked(m: &Checked, uses: &Uses, slots: &mut Vec<Bits>, marks: &mut Marks) -> u64
    requires uses { AreUsesOf m.now uses.now.rows }
    requires shape { widths slots.old.items ≡ slot_widths m.now }
    requires marks { length marks.old ≡ length m.now.code }
    requires unmarked { HaveValuesBut m.now marks.old (words slots.old.items) }
    ensures shape { widths slots.new.items ≡ slot_widths m.now }
    ensures run { IsRun m.now (words slots.new.items) }
    ensures given { KeepsGiven m.now (words slots.old.items) (words slots.new.items) }
    ensures marks { length marks.new ≡ length marks.old }
    ensures none { HasNone marks.new }
    ensures done { result ≡ due_count m.now marks.old (words slots.old.items) (words slots.new.items) }
{
    let machine = m.machine();
    let first = first_of(machine, slots.len());
    let mut done = 0;
    while let Some(k) = marks.take_least() {
        run_one(machine, uses, first, k, slots, marks);
        done += 1;
    }
    done
}
