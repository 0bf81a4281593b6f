//! The two stages of one model.

ghost use Rattle.std.specs.Prelude.{◌≡◌, ◌<◌, ◌+◌, IfOk, Some, length, map, slice_get};
ghost use Rattle.bit_ops.specs.Lists.{words, widths};
ghost use Rattle.code_isa.specs.Faces.{input_widths, output_widths, clock_count, input_count, output_count};
ghost use Rattle.code_isa.specs.Tree.{top_of, held_of, registers_of};
ghost use Rattle.model_stage.specs.Order.{Picks};
ghost use Rattle.model_stage.specs.Model.{Updates, Strikes, Publishes};
ghost use Rattle.wrapper_core.specs.Snapshot.{Calm};
ghost use Rattle.wrapper_core.specs.Events.{HasRoom};
ghost use Rattle.wrapper_core.specs.World.{IsWorld, moment_of};
ghost use Rattle.model_handle.specs.Models.{node_model, hit_model, IsReadyNode, IsStruckHit, Begins};

use crate::striking::{keep, step_clocks};
use bit_ops::Bits;
use model_stage::{Child, Order};
use settle_loop::settle;
use std::alloc::{AllocError, Global};
use wrapper_core::World;

/// A ready model: its world is quiescent, and it shows the outputs of that.
#[derive(Drop)]
pub struct Node<C> {
    world: World<C>,
    /// Room for the outputs that are shown while it is struck.
    shown: Vec<Bits>,
    /// How many calls there were.
    number: u64,
}

/// A struck model: its world is quiescent after a step of the clocks, and it shows the outputs from before.
#[derive(Drop)]
pub struct Hit<C> {
    world: World<C>,
    shown: Vec<Bits>,
    number: u64,
}

impl<C: Child> Node<C> {
    /// The model of a calm world, settled, with number 0.
    pub fn of<F: Fn(u32, u32) -> u32 + Drop>(
        alloc: Global,
        mut world: World<C>,
        order: &Order<F>,
    ) -> Result<Node<C>, AllocError>
        requires world { IsWorld C.model C.ready C.struck world }
        requires calm { (moment_of world).phase ≡ Calm }
        requires room { HasRoom C.model ((moment_of world).code.chain + 1) (moment_of world) }
        requires order { Picks (F.pre order.now.f) (F.post order.now.f) }
        ensures ready { IfOk result (IsReadyNode C.model C.ready C.struck) }
        ensures begins { IfOk result (λ n. Begins C.model (moment_of world) n) }
    {
        let shown = vec![in alloc; Bits::zero(1); world.machine().outs.len()]?;
        settle(&mut world, order);
        Ok(Node {
            world,
            shown,
            number: 0,
        })
    }

    /// Settles the tree with these data inputs, one for each in port order, and answers the number of this call. Takes no
    /// memory.
    pub fn combo<F: Fn(u32, u32) -> u32 + Drop>(&mut self, inputs: &[Bits], order: &Order<F>) -> u64
        requires ready { IsReadyNode C.model C.ready C.struck self.old }
        requires inputs { widths inputs.now ≡ input_widths (top_of (node_model C.model self.old).tree).face }
        requires room { 0 < (node_model C.model self.old).room }
        requires order { Picks (F.pre order.now.f) (F.post order.now.f) }
        ensures ready { IsReadyNode C.model C.ready C.struck self.new }
        ensures updates { Updates (words inputs.now) (node_model C.model self.old) (node_model C.model self.new) }
        ensures number { result ≡ (node_model C.model self.new).number }
    {
        self.world.set_inputs(inputs);
        settle(&mut self.world, order);
        self.number += 1;
        self.number
    }

    /// A data input as it was last given, counted from 0 in port order.
    pub fn held(&self, k: usize) -> Bits
        requires ready { IsReadyNode C.model C.ready C.struck self.now }
        requires input { k < input_count (top_of (node_model C.model self.now).tree).face }
        ensures word { slice_get (held_of (node_model C.model self.now).state) k ≡ Some result.word }
        ensures width { slice_get (input_widths (top_of (node_model C.model self.now).tree).face) k ≡ Some result.width }
    {
        self.world.held(k)
    }

    /// An output as it is shown, counted from 0 in port order.
    pub fn out(&self, k: usize) -> Bits
        requires ready { IsReadyNode C.model C.ready C.struck self.now }
        requires output { k < output_count (top_of (node_model C.model self.now).tree).face }
        ensures word { slice_get (node_model C.model self.now).shown k ≡ Some result.word }
        ensures width { slice_get (output_widths (top_of (node_model C.model self.now).tree).face) k ≡ Some result.width }
    {
        self.world.out(k)
    }

    /// A register, counted from 0 in the order of the machine.
    pub fn reg(&self, k: usize) -> Bits
        requires ready { IsReadyNode C.model C.ready C.struck self.now }
        requires register { k < length (top_of (node_model C.model self.now).tree).regs }
        ensures word { slice_get (registers_of (node_model C.model self.now).state) k ≡ Some result.word }
        ensures width { slice_get (map (λ r. r.width) (top_of (node_model C.model self.now).tree).regs) k ≡ Some result.width }
    {
        self.world.reg(k)
    }

    /// Makes a step of the clocks to these levels, one for each in port order, and settles the tree. The outputs that are
    /// shown stay as they were. Takes no memory.
    pub fn strike<F: Fn(u32, u32) -> u32 + Drop>(self, clocks: &[bool], order: &Order<F>) -> Hit<C>
        requires ready { IsReadyNode C.model C.ready C.struck self }
        requires levels { length clocks.now ≡ clock_count (top_of (node_model C.model self).tree).face }
        requires room { 0 < (node_model C.model self).room }
        requires order { Picks (F.pre order.now.f) (F.post order.now.f) }
        ensures struck { IsStruckHit C.model C.ready C.struck result }
        ensures strikes { Strikes clocks.now (node_model C.model self) (hit_model C.model result) }
    {
        let Node {
            mut world,
            mut shown,
            number,
        } = self;
        keep(&mut shown, &world);
        step_clocks(&mut world, clocks, order);
        settle(&mut world, order);
        Hit {
            world,
            shown,
            number: number + 1,
        }
    }

    /// How many updates and strikes there were.
    pub fn number(&self) -> u64
        ensures { result ≡ (node_model C.model self.now).number }
    {
        self.number
    }
}

impl<C: Child> Hit<C> {
    /// Shows the outputs after the strike. Takes no memory.
    pub fn publish(self) -> Node<C>
        requires struck { IsStruckHit C.model C.ready C.struck self }
        ensures ready { IsReadyNode C.model C.ready C.struck result }
        ensures publishes { Publishes (hit_model C.model self) (node_model C.model result) }
    {
        Node {
            world: self.world,
            shown: self.shown,
            number: self.number,
        }
    }

    /// An output as it was shown before the strike, counted from 0 in port order.
    pub fn out(&self, k: usize) -> Bits
        requires struck { IsStruckHit C.model C.ready C.struck self.now }
        requires output { k < output_count (top_of (hit_model C.model self.now).tree).face }
        ensures word { slice_get (hit_model C.model self.now).shown k ≡ Some result.word }
        ensures width { slice_get (output_widths (top_of (hit_model C.model self.now).tree).face) k ≡ Some result.width }
    {
        self.shown[k]
    }

    /// How many updates and strikes there were.
    pub fn number(&self) -> u64
        ensures { result ≡ (hit_model C.model self.now).number }
    {
        self.number
    }
}
