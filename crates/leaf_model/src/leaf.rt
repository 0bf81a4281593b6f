//! A leaf: a machine without children, as a sealed child.

ghost use Rattle.std.specs.Prelude.{◌≡◌, [], IfOk};
ghost use Rattle.leaf_model.specs.Leaf.{IsReadyLeaf, Begins};

use crate::sampling::sample;
use crate::slots::{gather, give};
use crate::starting::{clock_count, initial_registers, zero_inputs};
use bit_ops::Bits;
use code_isa::{Checked, input_count, zero_slots};
use model_stage::{Child, Order};
use std::alloc::{AllocError, Global};
use std::rc::Rc;

/// A machine without children: the values of its slots, which are run, the levels of its clocks, and what it shows. It
/// counts its calls.
#[derive(Drop)]
pub struct Leaf {
    code: Rc<Checked>,
    slots: Vec<Bits>,
    levels: Vec<bool>,
    /// The outputs as they are shown.
    shown: Vec<Bits>,
    /// Room for what the registers take.
    next: Vec<Bits>,
    /// How many updates and strikes there were, and how many updates.
    number: u64,
    updates: u64,
    struck: bool,
}

impl Leaf {
    /// A ready leaf whose data inputs and levels are 0 and whose registers have their initial words.
    pub fn new(alloc: Global, code: Rc<Checked>) -> Result<Leaf, AllocError>
        requires { code.value.kids ≡ [] }
        ensures ready { IfOk result IsReadyLeaf }
        ensures begins { IfOk result Begins }
        ensures code { IfOk result (λ leaf. leaf.code.value ≡ code.value) }
    {
        let m = code.as_ref().machine();
        let inputs = zero_inputs(alloc, m)?;
        let next = initial_registers(alloc, m.regs.as_slice())?;
        let levels = vec![in alloc; false; clock_count(&m.face)]?;
        let mut shown = vec![in alloc; Bits::zero(1); m.outs.len()]?;
        let mut slots = zero_slots(alloc, m)?;
        give(m, &mut slots, 0, inputs.as_slice());
        give(m, &mut slots, inputs.len(), next.as_slice());
        gather(&mut shown, slots.as_slice(), m.outs.as_slice());
        Ok(Leaf {
            code,
            slots,
            levels,
            shown,
            next,
            number: 0,
            updates: 0,
            struck: false,
        })
    }

    /// The machine.
    pub fn code(&self) -> &Checked
        ensures { result.now ≡ self.now.code.value }
    {
        self.code.as_ref()
    }

    /// How many updates and strikes there were.
    pub fn number(&self) -> u64
        ensures { result ≡ self.now.number }
    {
        self.number
    }

    /// How many updates there were.
    pub fn updates(&self) -> u64
        ensures { result ≡ self.now.updates }
    {
        self.updates
    }

    /// The values of all slots.
    pub fn slots(&self) -> &[Bits]
        ensures { result.now ≡ self.now.slots.items }
    {
        self.slots.as_slice()
    }

    /// The outputs as they are shown, in port order.
    pub fn shown(&self) -> &[Bits]
        ensures { result.now ≡ self.now.shown.items }
    {
        self.shown.as_slice()
    }

    /// The levels of the clocks, in port order.
    pub fn levels(&self) -> &[bool]
        ensures { result.now ≡ self.now.levels.items }
    {
        self.levels.as_slice()
    }
}

impl Child for Leaf {
    ghost use Rattle.leaf_model.specs.Leaf.{model_of, IsReadyLeaf, IsStruckLeaf};
    ghost use Rattle.leaf_model.specs.Known.{leaf_is_ready, leaf_is_struck};

    ghost model = { model_of };

    ghost ready = { IsReadyLeaf };

    ghost struck = { IsStruckLeaf };

    ghost is_ready = { leaf_is_ready };

    ghost is_struck = { leaf_is_struck };

    fn update<F: Fn(u32, u32) -> u32 + Drop>(&mut self, inputs: &[Bits], _order: &Order<F>) -> u64 {
        let m = self.code.as_ref().machine();
        give(m, &mut self.slots, 0, inputs);
        gather(&mut self.shown, self.slots.as_slice(), m.outs.as_slice());
        self.updates += 1;
        self.number += 1;
        self.number
    }

    fn strike<F: Fn(u32, u32) -> u32 + Drop>(&mut self, clocks: &[bool], _order: &Order<F>) {
        let m = self.code.as_ref().machine();
        let first = input_count(&m.face);
        sample(
            &mut self.next,
            m.regs.as_slice(),
            self.slots.as_slice(),
            first,
            self.levels.as_slice(),
            clocks,
        );
        give(m, &mut self.slots, first, self.next.as_slice());
        self.levels.as_mut_slice().copy_from_slice(clocks);
        self.number += 1;
        self.struck = true;
    }

    fn publish(&mut self) -> u64 {
        let m = self.code.as_ref().machine();
        gather(&mut self.shown, self.slots.as_slice(), m.outs.as_slice());
        self.struck = false;
        self.number
    }

    fn held(&self, k: usize) -> Bits {
        self.slots[k]
    }

    fn out(&self, k: usize) -> Bits {
        self.shown[k]
    }
}
