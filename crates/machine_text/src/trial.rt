//! Trials of a checked machine.

ghost use Rattle.std.specs.Prelude.{◌≡◌, IfOk};
ghost use Rattle.machine_text.specs.Trials.{IsTrial};

use bit_ops::{Bits, Word};
use code_isa::law::set_and_marked;
use code_isa::{
    Checked, Marks, Uses, first_instruction, mark, run_marked, run_slots, uses_of, zero_slots,
};
use std::alloc::{AllocError, Global};

/// A checked machine with its slots, and the instructions that may not have their value.
#[derive(Drop)]
pub struct Trial {
    m: Checked,
    uses: Uses,
    slots: Vec<Bits>,
    marks: Marks,
}

impl Trial {
    /// The machine with 0 in every slot that is no instruction's.
    pub fn new(alloc: Global, m: Checked) -> Result<Trial, AllocError>
        ensures { IfOk result IsTrial }
    {
        let uses = uses_of(alloc, &m)?;
        let marks = Marks::new(alloc, &m)?;
        let mut slots = zero_slots(alloc, m.machine())?;
        run_slots(m.machine(), &mut slots);
        Ok(Trial {
            m,
            uses,
            slots,
            marks,
        })
    }

    pub fn machine(&self) -> &Checked
        ensures { result.now ≡ self.now.m }
    {
        &self.m
    }

    pub fn slots(&self) -> &[Bits]
        ensures { result.now ≡ self.now.slots.items }
    {
        self.slots.as_slice()
    }

    /// Gives a slot the lowest bits of a word, and marks its readers. A slot of an instruction, or one that is not there,
    /// is left as it is.
    pub fn set(&mut self, slot: usize, word: Word)
        requires { IsTrial self.old }
        ensures { IsTrial self.new }
    {
        if slot >= first_instruction(self.m.machine()) {
            return;
        }
        let value = Bits::truncated(self.slots[slot].width, word);
        self.slots[slot] = value;
        mark(&self.m, &self.uses, slot as u64, &mut self.marks);
        set_and_marked();
    }

    /// Does all instructions.
    pub fn run_whole(&mut self)
        requires { IsTrial self.old }
        ensures { IsTrial self.new }
    {
        run_slots(self.m.machine(), &mut self.slots);
    }

    /// Does the instructions that are marked, and those that read a slot whose value this changes. It answers how many.
    pub fn run_marked(&mut self) -> u64
        requires { IsTrial self.old }
        ensures { IsTrial self.new }
    {
        run_marked(&self.m, &self.uses, &mut self.slots, &mut self.marks)
    }
}
