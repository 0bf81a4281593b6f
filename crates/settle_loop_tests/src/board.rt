//! A world of leaves that is set, run and read.

ghost use Rattle.std.specs.Prelude.{◌≡◌, ◌+◌, ◌<◌, ◌≤◌, ◌*◌, ◌^◌, ℕ, IfOk, IsTrue, Some, length, map, replicate, slice_get};
ghost use Rattle.bit_ops.specs.Lists.{words, widths};
ghost use Rattle.leaf_model.specs.declared.leaf.Leaf.{Leaf};
ghost use Rattle.leaf_model.specs.Leaf.{model_of, IsReadyLeaf, IsStruckLeaf};
ghost use Rattle.model_stage.specs.Order.{Picks};
ghost use Rattle.wrapper_core.specs.World.{IsWorld, moment_of};
ghost use Rattle.wrapper_core.specs.Events.{IsUpdatable, IsQuiescent, HasRoom};
ghost use Rattle.settle_loop_tests.specs.Board.{AreReady, IsBoard};

use crate::fitting::{are_all, are_joined};
use bit_ops::Bits;
use code_check::{CheckFault, check, has_few_slots};
use code_isa::{Checked, Machine, input_widths};
use leaf_model::{Leaf, clock_count, initial_registers, zero_inputs};
use model_stage::{Child, Order};
use settle_loop::settle;
use std::alloc::{AllocError, Global};
use std::process::Abort;
use std::rc::Rc;
use wrapper_core::{Event, World, enabled, run_events, step};

/// A world, and how many data inputs of four bits, clocks, outputs and registers its machine has.
#[derive(Drop)]
pub struct Board {
    world: World<Leaf>,
    inputs: usize,
    clocks: usize,
    outputs: usize,
    registers: usize,
}

/// The machine, which is a checked one.
pub fn checked(rt: &impl Abort, alloc: Global, m: Machine) -> Result<Checked, CheckFault>
    ensures { IfOk result (λ c. c ≡ m) }
{
    assert!(rt; has_few_slots(&m));
    check(alloc, m)
}

/// Values of four bits.
fn nibbles(alloc: Global, values: &[u64]) -> Result<Vec<Bits>, AllocError>
    ensures { IfOk result (λ bits. widths bits.items ≡ replicate (length values.now) 4) }
{
    let mut bits = Vec::new(alloc);
    for value in values {
        bits.push(Bits::truncated(4, *value))?;
    }
    Ok(bits)
}

/// Whether each child has room for this many updates and strikes.
fn has_room(w: &World<Leaf>, count: u32) -> bool
    requires { IsWorld model_of IsReadyLeaf IsStruckLeaf w.now }
    ensures { IsTrue result → HasRoom model_of count (moment_of w.now) }
{
    for i in 0..w.children() {
        if w.child(i).number() > 0x1000_0000 {
            return false;
        }
    }
    true
}

/// Whether no update is enabled.
fn is_quiet<C: Child>(w: &World<C>) -> bool
    requires { IsWorld C.model C.ready C.struck w.now }
    ensures { IsTrue result → (i : ℕ) → IsUpdatable C.model (moment_of w.now) i → ⊥ }
{
    for i in 0..w.children() {
        if enabled(w, Event::Update(i)) {
            return false;
        }
    }
    true
}

/// Runs the own code of a calm world, and answers whether the world is quiescent then.
fn comes_to_rest<C: Child>(w: &mut World<C>) -> bool
    requires { IsWorld C.model C.ready C.struck w.old }
    ensures world { IsWorld C.model C.ready C.struck w.new }
    ensures rest { IsTrue result → IsQuiescent C.model (moment_of w.new) }
    ensures code { (moment_of w.new).code ≡ (moment_of w.old).code }
{
    if !enabled(w, Event::Own) {
        return false;
    }
    step(w, Event::Own, &Order::new(|_, _| 0));
    is_quiet(w)
}

impl Board {
    /// A new world of a machine and its children, whose inputs and levels are 0 and whose registers have their initial
    /// values.
    pub fn new(
        rt: &impl Abort,
        alloc: Global,
        code: Checked,
        children: Vec<Leaf>,
    ) -> Result<Board, AllocError>
        requires { AreReady children.items }
        ensures { IfOk result (λ b. IsBoard b.inputs b.clocks b.outputs b.registers b.world) }
    {
        let m = code.machine();
        let inputs = zero_inputs(alloc, m)?;
        let regs = initial_registers(alloc, m.regs.as_slice())?;
        let levels = vec![in alloc; false; clock_count(&m.face)]?;
        assert!(rt; are_all(input_widths(alloc, &m.face)?.as_slice(), 4));
        assert!(rt; are_joined(m, levels.as_slice(), children.as_slice()));
        let outputs = m.outs.len();
        let code = Rc::new(alloc, code)?;
        let world = World::new(
            alloc,
            code,
            inputs.as_slice(),
            levels.as_slice(),
            regs.as_slice(),
            children,
        )?;
        Ok(Board {
            world,
            inputs: inputs.len(),
            clocks: levels.len(),
            outputs,
            registers: regs.len(),
        })
    }

    /// Gives the data inputs these values, of which those past the last input are left out.
    pub fn set(&mut self, rt: &impl Abort, alloc: Global, values: &[u64]) -> Result<(), AllocError>
        requires { IsBoard self.old.inputs self.old.clocks self.old.outputs self.old.registers self.old.world }
        ensures { IsBoard self.new.inputs self.new.clocks self.new.outputs self.new.registers self.new.world }
    {
        assert!(rt; self.inputs <= values.len());
        let bits = nibbles(alloc, &values[..self.inputs])?;
        assert!(rt; enabled(&self.world, Event::Own));
        self.world.set_inputs(bits.as_slice());
        Ok(())
    }

    /// Begins a strike with these levels, of which those past the last clock are left out, in a world that comes to rest.
    pub fn tick(&mut self, rt: &impl Abort, levels: &[bool])
        requires { IsBoard self.old.inputs self.old.clocks self.old.outputs self.old.registers self.old.world }
        ensures { IsBoard self.new.inputs self.new.clocks self.new.outputs self.new.registers self.new.world }
    {
        assert!(rt; self.clocks <= levels.len());
        assert!(rt; comes_to_rest(&mut self.world));
        self.world.set_levels(&levels[..self.clocks]);
    }

    /// Runs events up to the first that is not enabled, and answers how many.
    pub fn run(&mut self, rt: &impl Abort, events: &Vec<Event>) -> usize
        requires { IsBoard self.old.inputs self.old.clocks self.old.outputs self.old.registers self.old.world }
        ensures { IsBoard self.new.inputs self.new.clocks self.new.outputs self.new.registers self.new.world }
    {
        assert!(rt; events.len() < 0x1_0000_0000);
        assert!(rt; has_room(&self.world, events.len() as u32));
        run_events(&mut self.world, events, &Order::new(|_, _| 0))
    }

    /// Settles the world in an order, and answers how many sweeps that took.
    pub fn settle<F: Fn(u32, u32) -> u32 + Drop>(
        &mut self,
        rt: &impl Abort,
        order: &Order<F>,
    ) -> u32
        requires board { IsBoard self.old.inputs self.old.clocks self.old.outputs self.old.registers self.old.world }
        requires order { Picks (F.pre order.now.f) (F.post order.now.f) }
        ensures { IsBoard self.new.inputs self.new.clocks self.new.outputs self.new.registers self.new.world }
    {
        assert!(rt; enabled(&self.world, Event::Own));
        let sweeps = self.world.machine().chain + 1;
        assert!(rt; has_room(&self.world, sweeps));
        settle(&mut self.world, order)
    }

    /// Whether no update is enabled.
    pub fn is_quiet(&self) -> bool
        requires { IsBoard self.now.inputs self.now.clocks self.now.outputs self.now.registers self.now.world }
    {
        is_quiet(&self.world)
    }

    /// The word of an output.
    pub fn out(&self, rt: &impl Abort, k: usize) -> u64
        requires { IsBoard self.now.inputs self.now.clocks self.now.outputs self.now.registers self.now.world }
    {
        assert!(rt; k < self.outputs);
        self.world.out(k).word
    }

    /// The word of a register.
    pub fn register(&self, rt: &impl Abort, k: usize) -> u64
        requires { IsBoard self.now.inputs self.now.clocks self.now.outputs self.now.registers self.now.world }
    {
        assert!(rt; k < self.registers);
        self.world.reg(k).word
    }

    /// How many outputs there are.
    pub fn outputs(&self) -> usize {
        self.outputs
    }

    /// How many registers there are.
    pub fn registers(&self) -> usize {
        self.registers
    }

    /// How many children there are.
    pub fn children(&self) -> u32
        requires { IsBoard self.now.inputs self.now.clocks self.now.outputs self.now.registers self.now.world }
    {
        self.world.children()
    }

    /// A child.
    pub fn child(&self, rt: &impl Abort, i: u32) -> &Leaf
        requires { IsBoard self.now.inputs self.now.clocks self.now.outputs self.now.registers self.now.world }
    {
        assert!(rt; i < self.world.children());
        self.world.child(i)
    }
}
