//! The own code of a unit, and what is to stand in its slots.

ghost use Rattle.std.specs.Prelude.{◌≡◌, ◌+◌, ◌<◌, ◌≤◌, ◌^◌, true, IfOk, Some, length, map, replicate, take, drop, slice_set};
ghost use Rattle.bit_ops.specs.Lists.{words, widths};
ghost use Rattle.code_isa.specs.Slots.{slot_widths, slot_count, given_widths, first_instruction, width_at};
ghost use Rattle.code_isa.specs.Values.{IsRun};
ghost use Rattle.code_isa.specs.Marks.{HasNone};
ghost use Rattle.code_isa.specs.Uses.{AreUsesOf};
ghost use Rattle.code_isa.specs.Activity.{HaveValuesBut};
ghost use Rattle.wrapper_core.specs.code.Blocks.{IsBlock, IsCopied, HasAll, Keeps, placed};

use bit_ops::Bits;
use code_isa::law::set_and_marked;
use code_isa::{Checked, Marks, Uses, mark, run_marked, uses_of};
use std::alloc::{AllocError, Global};
use std::rc::Rc;

/// The own code of a unit with its slots, and what is to be put into them.
#[derive(Drop)]
pub struct Block {
    pub(crate) code: Rc<Checked>,
    uses: Uses,
    /// What is to stand in the slots before those of instructions: the held inputs, the registers and the shown outputs.
    pub(crate) given: Vec<Bits>,
    /// The slots that may hold another value than `given`.
    waiting: Marks,
    pub(crate) slots: Vec<Bits>,
    /// The instructions that may not have their value.
    marks: Marks,
}

/// The set of all positions below `count`.
fn all_of(alloc: Global, count: usize) -> Result<Marks, AllocError>
    requires { count < 2 ^ 60 }
    ensures { IfOk result (λ marks. HasAll marks count) }
{
    let mut marks = Marks::empty(alloc, count)?;
    for k in 0..count {
        marks.insert(k);
    }
    Ok(marks)
}

/// A slot for each of these values and for each instruction of a machine, all of them 0.
fn zeros(alloc: Global, m: &Checked, given: &[Bits]) -> Result<Vec<Bits>, AllocError>
    requires { widths given.now ≡ given_widths m.now }
    ensures wide { IfOk result (λ slots. widths slots.items ≡ slot_widths m.now) }
    ensures words { IfOk result (λ slots. words slots.items ≡ replicate (slot_count m.now) 0) }
{
    let mut slots = Vec::new(alloc);
    for value in given {
        slots.push(Bits::zero(value.width))?;
    }
    for i in m.machine().code.as_slice() {
        slots.push(Bits::zero(i.width))?;
    }
    Ok(slots)
}

/// Puts a value into a slot before those of the instructions, and marks its readers where that changes the slot.
fn copy_slot(
    m: &Checked,
    uses: &Uses,
    value: Bits,
    s: usize,
    slots: &mut Vec<Bits>,
    marks: &mut Marks,
)
    requires uses { AreUsesOf m.now uses.now.rows }
    requires shape { widths slots.old.items ≡ slot_widths m.now }
    requires marks { length marks.old ≡ length m.now.code }
    requires settled { HaveValuesBut m.now marks.old (words slots.old.items) }
    requires slot { s < first_instruction m.now }
    requires wide { width_at m.now s ≡ value.width }
    ensures shape { widths slots.new.items ≡ slot_widths m.now }
    ensures words { words slots.new.items ≡ slice_set (words slots.old.items) s value.word }
    ensures marks { length marks.new ≡ length m.now.code }
    ensures settled { HaveValuesBut m.now marks.new (words slots.new.items) }
{
    if slots[s].word == value.word {
        return;
    }
    slots[s] = value;
    mark(m, uses, s as u64, marks);
    set_and_marked();
}

/// Copies what the waiting slots are given, and marks the readers of those that this changes.
fn copy_all(
    m: &Checked,
    uses: &Uses,
    given: &[Bits],
    waiting: &mut Marks,
    slots: &mut Vec<Bits>,
    marks: &mut Marks,
)
    requires uses { AreUsesOf m.now uses.now.rows }
    requires given { widths given.now ≡ given_widths m.now }
    requires shape { widths slots.old.items ≡ slot_widths m.now }
    requires waiting { length waiting.old ≡ first_instruction m.now }
    requires marks { length marks.old ≡ length m.now.code }
    requires copied { IsCopied (first_instruction m.now) waiting.old (words slots.old.items) (words given.now) }
    requires settled { HaveValuesBut m.now marks.old (words slots.old.items) }
    ensures shape { widths slots.new.items ≡ slot_widths m.now }
    ensures waiting { length waiting.new ≡ first_instruction m.now }
    ensures none { HasNone waiting.new }
    ensures marks { length marks.new ≡ length m.now.code }
    ensures copied { IsCopied (first_instruction m.now) waiting.new (words slots.new.items) (words given.now) }
    ensures settled { HaveValuesBut m.now marks.new (words slots.new.items) }
{
    while let Some(s) = waiting.take_least() {
        copy_slot(m, uses, given[s], s, slots, marks);
    }
}

impl Block {
    /// The block of a machine, all of whose slots are 0.
    pub fn new(alloc: Global, code: Rc<Checked>, given: Vec<Bits>) -> Result<Block, AllocError>
        requires { widths given.items ≡ given_widths code.value }
        ensures block { IfOk result IsBlock }
        ensures code { IfOk result (λ b. b.code.value ≡ code.value) }
        ensures given { IfOk result (λ b. b.given.items ≡ given.items) }
        ensures slots { IfOk result (λ b. words b.slots.items ≡ replicate (slot_count code.value) 0) }
    {
        let uses = uses_of(alloc, code.as_ref())?;
        let slots = zeros(alloc, code.as_ref(), given.as_slice())?;
        let waiting = all_of(alloc, given.len())?;
        let marks = all_of(alloc, code.as_ref().machine().code.as_slice().len())?;
        Ok(Block {
            code,
            uses,
            given,
            waiting,
            slots,
            marks,
        })
    }

    /// Gives a slot another value, which it gets when the own code is run.
    pub fn put(&mut self, s: usize, value: Bits)
        requires block { IsBlock self.old }
        requires slot { s < first_instruction self.old.code.value }
        requires wide { width_at self.old.code.value s ≡ value.width }
        ensures block { IsBlock self.new }
        ensures given { words self.new.given.items ≡ slice_set (words self.old.given.items) s value.word }
        ensures keeps { Keeps self.old self.new }
    {
        if self.given[s].word == value.word {
            return;
        }
        self.given[s] = value;
        self.waiting.insert(s);
    }

    /// Gives the slots from `first` on other values, which they get when the own code is run.
    pub fn place(&mut self, first: usize, values: &[Bits])
        requires block { IsBlock self.old }
        requires slots { first + length values.now ≤ first_instruction self.old.code.value }
        requires wide { widths values.now ≡ take (length values.now) (drop first (given_widths self.old.code.value)) }
        ensures block { IsBlock self.new }
        ensures given { words self.new.given.items ≡ placed (words self.old.given.items) first (words values.now) }
        ensures keeps { Keeps self.old self.new }
    {
        for k in 0..values.len() {
            self.put(first + k, values[k]);
        }
    }

    /// Gives the slots what is to stand in them, and the instructions that this changes their values.
    pub fn own(&mut self)
        requires block { IsBlock self.old }
        ensures block { IsBlock self.new }
        ensures code { self.new.code ≡ self.old.code }
        ensures given { self.new.given ≡ self.old.given }
        ensures filled { take (first_instruction self.old.code.value) (words self.new.slots.items) ≡ words self.old.given.items }
        ensures run { IsRun self.old.code.value (words self.new.slots.items) }
    {
        let code = self.code.as_ref();
        copy_all(
            code,
            &self.uses,
            self.given.as_slice(),
            &mut self.waiting,
            &mut self.slots,
            &mut self.marks,
        );
        run_marked(code, &self.uses, &mut self.slots, &mut self.marks);
    }
}
