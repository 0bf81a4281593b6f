//! A world: a machine, its children behind their wrappers, and what its events work on.

ghost use Rattle.std.specs.Prelude.{◌≡◌, ◌<◌, ℕ, true, false, IfOk, Some, [], ◌∷◌, length, map, take, drop, replicate, slice_get, slice_set};
ghost use Rattle.bit_ops.specs.Lists.{words, widths};
ghost use Rattle.code_isa.specs.Faces.{input_widths, output_widths, clock_count, input_count, output_count};
ghost use Rattle.code_isa.specs.Checks.{IsChecked};
ghost use Rattle.code_isa.specs.Slots.{first_register, first_kid_output};
ghost use Rattle.code_isa.specs.Tree.{words_at};
ghost use Rattle.wrapper_core.specs.Snapshot.{Calm, with_held, with_visited};
ghost use Rattle.wrapper_core.specs.Events.{IsQuiescent};
ghost use Rattle.wrapper_core.specs.Striking.{BeginsStrike};
ghost use Rattle.wrapper_core.specs.World.{IsWorld, moment_of};
ghost use Rattle.wrapper_core.specs.Start.{AreJoined, IsStart};

use crate::block::Block;
use crate::buffer::Buffer;
use crate::making::{add_shown, buffers_of, wrap_all};
use crate::sampling::Sampling;
use crate::wrapped::Wrapped;
use bit_ops::Bits;
use code_isa::{Checked, Machine, first_instruction};
use model_stage::Child;
use std::alloc::{AllocError, Global};
use std::rc::Rc;
use sv_base::{Class, Face};

/// A machine with its children behind their wrappers.
#[derive(Drop)]
pub struct World<C> {
    pub(crate) block: Block,
    pub(crate) sampling: Sampling,
    /// The levels of the clocks, and those before a strike.
    pub(crate) levels: Vec<bool>,
    pub(crate) before: Vec<bool>,
    /// Whether a strike is under way, and whether the registers are sampled in it.
    pub(crate) striking: bool,
    pub(crate) sampled: bool,
    pub(crate) children: Vec<Wrapped<C>>,
    pub(crate) buffers: Vec<Buffer>,
    /// The mark of each child's visit.
    pub(crate) visited: Vec<bool>,
}

impl<C: Child> World<C> {
    /// A calm world with these held inputs, levels of the clocks, registers and children, in which every slot is 0.
    pub fn new(
        alloc: Global,
        code: Rc<Checked>,
        inputs: &[Bits],
        levels: &[bool],
        regs: &[Bits],
        children: Vec<C>,
    ) -> Result<World<C>, AllocError>
        requires inputs { widths inputs.now ≡ input_widths code.value.face }
        requires levels { length levels.now ≡ clock_count code.value.face }
        requires registers { widths regs.now ≡ map (λ r. r.width) code.value.regs }
        requires children { AreJoined C.model C.ready code.value levels.now children.items }
        ensures world { IfOk result (IsWorld C.model C.ready C.struck) }
        ensures start { IfOk result (λ w. IsStart C.model code.value (words inputs.now) levels.now (words regs.now) children.items (moment_of w)) }
    {
        let m = code.as_ref();
        let slots = first_instruction(m.machine());
        let mut given = Vec::with_capacity(alloc, slots)?;
        given.extend_from_slice(inputs)?;
        given.extend_from_slice(regs)?;
        let buffers = buffers_of(alloc, m.machine(), given.len())?;
        let children = wrap_all(alloc, m.machine().kids.as_slice(), children)?;
        add_shown(&mut given, children.as_slice())?;
        let sampling = Sampling::new(alloc, m, regs, levels.len())?;
        let visited = vec![in alloc; false; children.len()]?;
        let before = Vec::from_slice(alloc, levels)?;
        let levels = Vec::from_slice(alloc, levels)?;
        let block = Block::new(alloc, code, given)?;
        Ok(World {
            block,
            sampling,
            levels,
            before,
            striking: false,
            sampled: false,
            children,
            buffers,
            visited,
        })
    }

    /// Replaces the held inputs, one for each data input in port order. Takes no memory.
    pub fn set_inputs(&mut self, inputs: &[Bits])
        requires world { IsWorld C.model C.ready C.struck self.old }
        requires calm { (moment_of self.old).phase ≡ Calm }
        requires inputs { widths inputs.now ≡ input_widths self.old.block.code.value.face }
        ensures world { IsWorld C.model C.ready C.struck self.new }
        ensures set { moment_of self.new ≡ with_held (moment_of self.old) (words inputs.now) }
    {
        self.block.place(0, inputs);
    }

    /// Replaces the levels of the clocks, one for each in port order: a strike begins. Takes no memory.
    pub fn set_levels(&mut self, levels: &[bool])
        requires world { IsWorld C.model C.ready C.struck self.old }
        requires quiescent { IsQuiescent C.model (moment_of self.old) }
        requires levels { length levels.now ≡ clock_count self.old.block.code.value.face }
        ensures world { IsWorld C.model C.ready C.struck self.new }
        ensures set { BeginsStrike C.model levels.now (moment_of self.old) (moment_of self.new) }
    {
        self.before
            .as_mut_slice()
            .copy_from_slice(self.levels.as_slice());
        self.levels.as_mut_slice().copy_from_slice(levels);
        self.striking = true;
    }

    /// The machine, which is a checked one.
    pub fn machine(&self) -> &Machine
        ensures same { result.now ≡ (moment_of self.now).code }
        ensures checked { IsChecked (moment_of self.now).code }
    {
        self.block.code.as_ref().machine()
    }

    /// How many children there are.
    pub fn children(&self) -> u32
        requires world { IsWorld C.model C.ready C.struck self.now }
        ensures { result ≡ length (moment_of self.now).children }
    {
        self.children.len() as u32
    }

    /// A child, counted from 0.
    pub fn child(&self, i: u32) -> &C
        requires { i < length (moment_of self.now).children }
        ensures { map (λ c. c.child) (take 1 (drop i (moment_of self.now).children)) ≡ result.now ∷ [] }
    {
        &self.children[i as usize].child
    }

    /// A held input, counted from 0 in port order.
    pub fn held(&self, k: usize) -> Bits
        requires world { IsWorld C.model C.ready C.struck self.now }
        requires input { k < input_count self.now.block.code.value.face }
        ensures word { slice_get (moment_of self.now).held k ≡ Some result.word }
        ensures width { slice_get (input_widths self.now.block.code.value.face) k ≡ Some result.width }
    {
        self.block.given[k]
    }

    /// The value of the slot of an output, counted from 0 in port order.
    pub fn out(&self, k: usize) -> Bits
        requires world { IsWorld C.model C.ready C.struck self.now }
        requires output { k < output_count self.now.block.code.value.face }
        ensures word { slice_get (words_at (moment_of self.now).slots self.now.block.code.value.outs) k ≡ Some result.word }
        ensures width { slice_get (output_widths self.now.block.code.value.face) k ≡ Some result.width }
    {
        self.block.slots[self.block.code.as_ref().machine().outs.as_slice()[k] as usize]
    }

    /// A register, counted from 0 in the order of the machine.
    pub fn reg(&self, k: usize) -> Bits
        requires world { IsWorld C.model C.ready C.struck self.now }
        requires register { k < length self.now.block.code.value.regs }
        ensures word { slice_get (moment_of self.now).registers k ≡ Some result.word }
        ensures width { slice_get (map (λ r. r.width) self.now.block.code.value.regs) k ≡ Some result.width }
    {
        self.block.given[self.first_register() + k]
    }

    /// The level of a clock, counted from 0 in port order.
    pub fn level(&self, k: usize) -> bool
        requires { k < length (moment_of self.now).levels }
        ensures { slice_get (moment_of self.now).levels k ≡ Some result }
    {
        self.levels[k]
    }

    /// Sets the mark of a child's visit. Takes no memory.
    pub fn visit(&mut self, i: u32)
        requires world { IsWorld C.model C.ready C.struck self.old }
        requires child { i < length (moment_of self.old).children }
        ensures world { IsWorld C.model C.ready C.struck self.new }
        ensures visited { moment_of self.new ≡ with_visited (moment_of self.old) (slice_set (moment_of self.old).visited i true) }
    {
        self.visited[i as usize] = true;
    }

    /// Whether the mark of a child's visit is set.
    pub fn is_visited(&self, i: u32) -> bool
        requires world { IsWorld C.model C.ready C.struck self.now }
        requires child { i < length (moment_of self.now).children }
        ensures { slice_get (moment_of self.now).visited i ≡ Some result }
    {
        self.visited[i as usize]
    }

    /// Clears all marks of visits. Takes no memory.
    pub fn end_sweep(&mut self)
        requires world { IsWorld C.model C.ready C.struck self.old }
        ensures world { IsWorld C.model C.ready C.struck self.new }
        ensures visited { moment_of self.new ≡ with_visited (moment_of self.old) (replicate (length (moment_of self.old).visited) false) }
    {
        self.visited.as_mut_slice().fill(false);
    }

    /// The slot of the first register.
    pub(crate) fn first_register(&self) -> usize
        requires world { IsWorld C.model C.ready C.struck self.now }
        ensures { result ≡ first_register self.now.block.code.value }
    {
        value_count(&self.block.code.as_ref().machine().face)
    }
}

/// How many data inputs a face has.
fn value_count(face: &Face) -> usize
    ensures { result ≡ input_count face.now }
{
    let ports = face.ports.as_slice().iter();
    ports.filter(|p| matches!(p.class, Class::Value)).count()
}
