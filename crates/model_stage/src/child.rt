//! A sealed child of a unit: an opaque model that is updated, struck and read.

ghost use Rattle.std.specs.Prelude.{◌≡◌, ◌<◌, ◌⊎◌, Some, length, slice_get};
ghost use Rattle.bit_ops.specs.Lists.{words, widths};
ghost use Rattle.code_isa.specs.Faces.{input_widths, output_widths, clock_count, input_count, output_count};
ghost use Rattle.code_isa.specs.Tree.{top_of, held_of};
ghost use Rattle.model_stage.specs.Order.{Picks};
ghost use Rattle.model_stage.specs.Model.{Model, IsReady, IsStruck, Updates, Strikes, Publishes};

use crate::order::Order;
use bit_ops::Bits;

/// A sealed child. It means a linked tree of machines in some state. While it is ready, this is settled, and the child
/// shows its outputs. Its tree stays the same one through all calls. No call takes memory.
pub trait Child: Drop {
    // what it means
    ghost model: { Self → Model };

    // it may be updated, struck and read
    ghost ready: { Self → Type 0 };

    // it has to be published
    ghost struck: { Self → Type 0 };

    /// Settles the tree with these data inputs, one for each in port order, and shows its outputs. Answers the number of
    /// this call among all updates and strikes.
    fn update<F: Fn(u32, u32) -> u32 + Drop>(&mut self, inputs: &[Bits], order: &Order<F>) -> u64
        requires ready { ready self.old }
        requires inputs { widths inputs.now ≡ input_widths (top_of (model self.old).tree).face }
        requires room { 0 < (model self.old).room }
        requires order { Picks (F.pre order.now.f) (F.post order.now.f) }
        ensures ready { ready self.new }
        ensures updates { Updates (words inputs.now) (model self.old) (model self.new) }
        ensures number { result ≡ (model self.new).number };

    /// Makes a step of the clocks to these levels, one for each in port order, and settles the tree. The outputs that are
    /// shown stay as they were.
    fn strike<F: Fn(u32, u32) -> u32 + Drop>(&mut self, clocks: &[bool], order: &Order<F>)
        requires ready { ready self.old }
        requires levels { length clocks.now ≡ clock_count (top_of (model self.old).tree).face }
        requires room { 0 < (model self.old).room }
        requires order { Picks (F.pre order.now.f) (F.post order.now.f) }
        ensures struck { struck self.new }
        ensures strikes { Strikes clocks.now (model self.old) (model self.new) };

    /// Shows the outputs after a strike, whose number it answers.
    fn publish(&mut self) -> u64
        requires struck { struck self.old }
        ensures ready { ready self.new }
        ensures publishes { Publishes (model self.old) (model self.new) }
        ensures number { result ≡ (model self.new).number };

    /// A data input as it was last given, counted from 0 in port order.
    fn held(&self, k: usize) -> Bits
        requires ready { ready self.now }
        requires input { k < input_count (top_of (model self.now).tree).face }
        ensures word { slice_get (held_of (model self.now).state) k ≡ Some result.word }
        ensures width { slice_get (input_widths (top_of (model self.now).tree).face) k ≡ Some result.width };

    /// An output as it is shown, counted from 0 in port order.
    fn out(&self, k: usize) -> Bits
        requires stage { ready self.now ⊎ struck self.now }
        requires output { k < output_count (top_of (model self.now).tree).face }
        ensures word { slice_get (model self.now).shown k ≡ Some result.word }
        ensures width { slice_get (output_widths (top_of (model self.now).tree).face) k ≡ Some result.width };

    // a ready child is settled and shows the outputs of its tree
    ghost is_ready: { (child : Self) → ready child → IsReady (model child) };

    // a struck child is settled
    ghost is_struck: { (child : Self) → struck child → IsStruck (model child) };
}
