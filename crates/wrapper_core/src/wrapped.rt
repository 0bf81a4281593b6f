//! A child behind its wrapper.

ghost use Rattle.std.specs.Prelude.{◌≡◌, ◌<◌, ◌≤◌, true, false, length};
ghost use Rattle.bit_ops.specs.Lists.{words, widths};
ghost use Rattle.code_isa.specs.Faces.{input_widths, clock_count, output_count, output_widths};
ghost use Rattle.code_isa.specs.Tree.{top_of};
ghost use Rattle.model_stage.specs.Order.{Picks};
ghost use Rattle.model_stage.specs.Model.{Updates, Strikes};
ghost use Rattle.sequence_select.specs.Shown.{shown};
ghost use Rattle.wrapper_core.specs.Events.{TakesUpdate, IsPublished};

use crate::buffer::collect;
use bit_ops::Bits;
use model_stage::{Child, Order};
use sequence_select::Wrapper;

/// A child behind its wrapper, and whether it is struck and not published yet.
#[derive(Drop)]
pub struct Wrapped<C> {
    pub(crate) child: C,
    pub(crate) wrapper: Wrapper,
    pub(crate) struck: bool,
}

impl<C: Child> Wrapped<C> {
    /// Updates the child with these inputs, and takes its outputs.
    pub(crate) fn update<F: Fn(u32, u32) -> u32 + Drop>(
        &mut self,
        ins: &[Bits],
        outs: &mut Vec<Bits>,
        order: &Order<F>,
    )
        requires ready { C.ready self.old.child }
        requires inputs { widths ins.now ≡ input_widths (top_of (C.model self.old.child).tree).face }
        requires outs { length outs.old.items ≡ output_count (top_of (C.model self.old.child).tree).face }
        requires room { 0 < (C.model self.old.child).room }
        requires order { Picks (F.pre order.now.f) (F.post order.now.f) }
        requires wide { widths self.old.wrapper.out_combo ≡ output_widths (top_of (C.model self.old.child).tree).face }
        requires numbers { (self.old.wrapper.combo_no ≤ (C.model self.old.child).number) × (self.old.wrapper.seq_no ≤ (C.model self.old.child).number) }
        ensures ready { C.ready self.new.child }
        ensures updates { Updates (words ins.now) (C.model self.old.child) (C.model self.new.child) }
        ensures takes { TakesUpdate (C.model self.new.child) self.old.wrapper self.new.wrapper }
        ensures shown { words (shown self.new.wrapper) ≡ (C.model self.new.child).shown }
        ensures struck { self.new.struck ≡ self.old.struck }
        ensures outs { length outs.new.items ≡ length outs.old.items }
    {
        let number = self.child.update(ins, order);
        collect(outs, &self.child);
        self.wrapper.take_combo(number, outs.as_slice());
    }

    /// Strikes the child with these levels.
    pub(crate) fn strike<F: Fn(u32, u32) -> u32 + Drop>(
        &mut self,
        levels: &[bool],
        order: &Order<F>,
    )
        requires ready { C.ready self.old.child }
        requires levels { length levels.now ≡ clock_count (top_of (C.model self.old.child).tree).face }
        requires room { 0 < (C.model self.old.child).room }
        requires order { Picks (F.pre order.now.f) (F.post order.now.f) }
        ensures struck { C.struck self.new.child }
        ensures strikes { Strikes levels.now (C.model self.old.child) (C.model self.new.child) }
        ensures wrapper { self.new.wrapper ≡ self.old.wrapper }
        ensures set { self.new.struck ≡ true }
    {
        self.child.strike(levels, order);
        self.struck = true;
    }

    /// Publishes the child, and takes its outputs.
    pub(crate) fn publish(&mut self, outs: &mut Vec<Bits>)
        requires struck { C.struck self.old.child }
        requires outs { length outs.old.items ≡ output_count (top_of (C.model self.old.child).tree).face }
        requires wide { widths self.old.wrapper.out_seq ≡ output_widths (top_of (C.model self.old.child).tree).face }
        requires numbers { (self.old.wrapper.combo_no < (C.model self.old.child).number) × (self.old.wrapper.seq_no < (C.model self.old.child).number) }
        ensures ready { C.ready self.new.child }
        ensures published { IsPublished C.model self.old self.new }
        ensures shown { words (shown self.new.wrapper) ≡ (C.model self.new.child).shown }
        ensures outs { length outs.new.items ≡ length outs.old.items }
    {
        let number = self.child.publish();
        collect(outs, &self.child);
        self.wrapper.take_seq(number, outs.as_slice());
        self.struck = false;
    }
}
