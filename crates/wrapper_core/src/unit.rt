//! The block of a unit with the children around it: updates, strikes and publications.

ghost use Rattle.std.specs.Prelude.{◌≡◌, ◌<◌, ℕ, true, false, Some, length, slice_get, All};
ghost use Rattle.bit_ops.specs.Lists.{words, widths};
ghost use Rattle.code_isa.specs.Faces.{input_widths, clock_count};
ghost use Rattle.code_isa.specs.Tree.{words_at};
ghost use Rattle.code_isa.specs.Traces.{levels_at};
ghost use Rattle.model_stage.specs.Order.{Picks};
ghost use Rattle.model_stage.specs.Model.{Updates, Strikes};
ghost use Rattle.wrapper_core.specs.declared.wrapped.Wrapped.{Wrapped};
ghost use Rattle.wrapper_core.specs.Events.{TakesUpdate, UpdatesAt, StrikesAt, ArePublished};
ghost use Rattle.wrapper_core.specs.code.Cores.{IsCore, IsSeated, HasBufferRoom, KeepsOwn, PublishesAt};

use crate::block::Block;
use crate::buffer::{Buffer, gather, gather_levels};
use crate::wrapped::Wrapped;
use bit_ops::Bits;
use code_isa::Kid;
use model_stage::{Child, Order};

/// Delivers to a child the values of the slots that it is joined to, and takes its outputs.
fn update_child<C: Child, F: Fn(u32, u32) -> u32 + Drop>(
    kid: &Kid,
    slots: &[Bits],
    child: &mut Wrapped<C>,
    buffer: &mut Buffer,
    order: &Order<F>,
)
    requires seated { IsSeated C.model C.ready C.struck kid.now child.old }
    requires unstruck { child.old.struck ≡ false }
    requires inside { All (λ slot. slot < length slots.now) kid.now.ins }
    requires wide { words_at (widths slots.now) kid.now.ins ≡ input_widths kid.now.face }
    requires buffer { HasBufferRoom kid.now buffer.old }
    requires room { 0 < (C.model child.old.child).room }
    requires order { Picks (F.pre order.now.f) (F.post order.now.f) }
    ensures seated { IsSeated C.model C.ready C.struck kid.now child.new }
    ensures updates { Updates (words_at (words slots.now) kid.now.ins) (C.model child.old.child) (C.model child.new.child) }
    ensures takes { TakesUpdate (C.model child.new.child) child.old.wrapper child.new.wrapper }
    ensures unstruck { child.new.struck ≡ false }
    ensures buffer { HasBufferRoom kid.now buffer.new }
    ensures first { buffer.new.first ≡ buffer.old.first }
{
    gather(&mut buffer.ins, slots, kid.ins.as_slice());
    child.update(buffer.ins.as_slice(), &mut buffer.outs, order);
}

/// Strikes a child with the levels that it is joined to.
fn strike_child<C: Child, F: Fn(u32, u32) -> u32 + Drop>(
    kid: &Kid,
    levels: &[bool],
    child: &mut Wrapped<C>,
    buffer: &mut Buffer,
    order: &Order<F>,
)
    requires seated { IsSeated C.model C.ready C.struck kid.now child.old }
    requires unstruck { child.old.struck ≡ false }
    requires inside { All (λ clock. clock < length levels.now) kid.now.clocks }
    requires buffer { HasBufferRoom kid.now buffer.old }
    requires room { 0 < (C.model child.old.child).room }
    requires order { Picks (F.pre order.now.f) (F.post order.now.f) }
    ensures seated { IsSeated C.model C.ready C.struck kid.now child.new }
    ensures strikes { Strikes (levels_at levels.now kid.now.clocks) (C.model child.old.child) (C.model child.new.child) }
    ensures wrapper { child.new.wrapper ≡ child.old.wrapper }
    ensures struck { child.new.struck ≡ true }
    ensures buffer { HasBufferRoom kid.now buffer.new }
    ensures first { buffer.new.first ≡ buffer.old.first }
{
    gather_levels(&mut buffer.levels, levels, kid.clocks.as_slice());
    child.strike(buffer.levels.as_slice(), order);
}

/// Updates a child of a block, whose slots are given what is shown then.
pub fn update_at<C: Child, F: Fn(u32, u32) -> u32 + Drop>(
    block: &mut Block,
    children: &mut Vec<Wrapped<C>>,
    buffers: &mut Vec<Buffer>,
    i: usize,
    order: &Order<F>,
)
    requires core { IsCore C.model C.ready C.struck block.old children.old.items buffers.old.items }
    requires inside { i < length children.old.items }
    requires unstruck { (c : Wrapped C) → slice_get children.old.items i ≡ Some c → c.struck ≡ false }
    requires room { (c : Wrapped C) → slice_get children.old.items i ≡ Some c → 0 < (C.model c.child).room }
    requires order { Picks (F.pre order.now.f) (F.post order.now.f) }
    ensures core { IsCore C.model C.ready C.struck block.new children.new.items buffers.new.items }
    ensures keeps { KeepsOwn block.old block.new }
    ensures updates { UpdatesAt C.model i block.old.code.value (words block.old.slots.items) children.old.items children.new.items }
{
    let kid = &block.code.as_ref().machine().kids.as_slice()[i];
    update_child(
        kid,
        block.slots.as_slice(),
        &mut children[i],
        &mut buffers[i],
        order,
    );
    let first = buffers[i].first;
    block.place(first, children[i].wrapper.outputs());
}

/// Strikes a child of a block.
pub fn strike_at<C: Child, F: Fn(u32, u32) -> u32 + Drop>(
    block: &Block,
    levels: &[bool],
    children: &mut Vec<Wrapped<C>>,
    buffers: &mut Vec<Buffer>,
    i: usize,
    order: &Order<F>,
)
    requires core { IsCore C.model C.ready C.struck block.now children.old.items buffers.old.items }
    requires levels { length levels.now ≡ clock_count block.now.code.value.face }
    requires inside { i < length children.old.items }
    requires unstruck { (c : Wrapped C) → slice_get children.old.items i ≡ Some c → c.struck ≡ false }
    requires room { (c : Wrapped C) → slice_get children.old.items i ≡ Some c → 0 < (C.model c.child).room }
    requires order { Picks (F.pre order.now.f) (F.post order.now.f) }
    ensures core { IsCore C.model C.ready C.struck block.now children.new.items buffers.new.items }
    ensures strikes { StrikesAt C.model i block.now.code.value levels.now children.old.items children.new.items }
{
    let kid = &block.code.as_ref().machine().kids.as_slice()[i];
    strike_child(kid, levels, &mut children[i], &mut buffers[i], order);
}

/// Publishes a child of a block, whose slots are given what is shown then.
fn publish_at<C: Child>(
    block: &mut Block,
    children: &mut Vec<Wrapped<C>>,
    buffers: &mut Vec<Buffer>,
    i: usize,
)
    requires core { IsCore C.model C.ready C.struck block.old children.old.items buffers.old.items }
    requires inside { i < length children.old.items }
    requires struck { (c : Wrapped C) → slice_get children.old.items i ≡ Some c → c.struck ≡ true }
    ensures core { IsCore C.model C.ready C.struck block.new children.new.items buffers.new.items }
    ensures keeps { KeepsOwn block.old block.new }
    ensures publishes { PublishesAt C.model i children.old.items children.new.items }
{
    children[i].publish(&mut buffers[i].outs);
    let first = buffers[i].first;
    block.place(first, children[i].wrapper.outputs());
}

/// Publishes all children of a block.
pub fn publish_all<C: Child>(
    block: &mut Block,
    children: &mut Vec<Wrapped<C>>,
    buffers: &mut Vec<Buffer>,
)
    requires core { IsCore C.model C.ready C.struck block.old children.old.items buffers.old.items }
    requires struck { (i : ℕ) (c : Wrapped C) → slice_get children.old.items i ≡ Some c → c.struck ≡ true }
    ensures core { IsCore C.model C.ready C.struck block.new children.new.items buffers.new.items }
    ensures keeps { KeepsOwn block.old block.new }
    ensures published { ArePublished C.model children.old.items children.new.items }
{
    for i in 0..children.len() {
        publish_at(block, children, buffers, i);
    }
}
