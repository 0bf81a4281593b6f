//! The parts of a new world.

ghost use Rattle.std.specs.Prelude.{◌≡◌, ◌+◌, ◌≤◌, ◌^◌, ◌<◌, ◌++◌, ℕ, false, IfOk, OnOk, Some, length, map, slice_get};
ghost use Rattle.std.specs.List.{flat_map};
ghost use Rattle.sequence_select.specs.Shown.{shown};
ghost use Rattle.code_isa.specs.Slots.{first_instruction, first_kid_output};
ghost use Rattle.code_isa.specs.declared.machine.Kid.{Kid};
ghost use Rattle.code_isa.specs.Tree.{top_of};
ghost use Rattle.wrapper_core.specs.declared.buffer.Buffer.{Buffer};
ghost use Rattle.wrapper_core.specs.declared.wrapped.Wrapped.{Wrapped};
ghost use Rattle.wrapper_core.specs.Start.{IsNewWrapper};
ghost use Rattle.wrapper_core.specs.code.Cores.{IsBuffer, HasBufferRoom, IsSeated};

use crate::buffer::{Buffer, collect};
use crate::wrapped::Wrapped;
use bit_ops::Bits;
use code_isa::{Kid, Machine};
use model_stage::Child;
use sequence_select::Wrapper;
use std::alloc::{AllocError, Global};

/// This many values, which nobody reads before they are written.
fn blanks(alloc: Global, count: usize) -> Result<Vec<Bits>, AllocError>
    ensures { IfOk result (λ values. length values.items ≡ count) }
{
    vec![in alloc; Bits::zero(1); count]
}

/// Room for what a child is given and gives, whose outputs stand from `first` on.
fn new_buffer(alloc: Global, kid: &Kid, first: usize) -> Result<Buffer, AllocError>
    ensures first { IfOk result (λ b. b.first ≡ first) }
    ensures room { IfOk result (HasBufferRoom kid.now) }
{
    let ins = blanks(alloc, kid.ins.len())?;
    let outs = blanks(alloc, kid.summary.rows.len())?;
    let levels = vec![in alloc; false; kid.clocks.len()]?;
    Ok(Buffer {
        first,
        ins,
        outs,
        levels,
    })
}

/// A buffer for each child of a machine, whose children's outputs stand from `first` on.
pub fn buffers_of(alloc: Global, m: &Machine, mut first: usize) -> Result<Vec<Buffer>, AllocError>
    requires first { first ≡ first_kid_output m.now }
    requires few { first_instruction m.now < 2 ^ 60 }
    ensures each { IfOk result (λ buffers. length buffers.items ≡ length m.now.kids) }
    ensures fit { IfOk result (λ buffers. (i : ℕ) (kid : Kid) (b : Buffer) → slice_get m.now.kids i ≡ Some kid → slice_get buffers.items i ≡ Some b → IsBuffer m.now i kid b) }
{
    let mut buffers = Vec::new(alloc);
    for kid in m.kids.as_slice() {
        buffers.push(new_buffer(alloc, kid, first)?)?;
        first += kid.summary.rows.len();
    }
    Ok(buffers)
}

/// A ready child behind a new wrapper, which shows its outputs.
fn wrap<C: Child>(alloc: Global, kid: &Kid, child: C) -> Result<Wrapped<C>, AllocError>
    requires ready { C.ready child }
    requires face { (top_of (C.model child).tree).face ≡ kid.now.face }
    requires summary { (top_of (C.model child).tree).summary ≡ kid.now.summary }
    ensures child { IfOk result (λ w. w.child ≡ child) }
    ensures unstruck { IfOk result (λ w. w.struck ≡ false) }
    ensures wrapper { IfOk result (λ w. IsNewWrapper (C.model child).shown w.wrapper) }
    ensures seated { IfOk result (IsSeated C.model C.ready C.struck kid.now) }
{
    let mut combo = blanks(alloc, kid.summary.rows.len())?;
    collect(&mut combo, &child);
    let seq = Vec::from_slice(alloc, combo.as_slice())?;
    Ok(Wrapped {
        child,
        wrapper: Wrapper::new(combo, seq),
        struck: false,
    })
}

/// The children behind new wrappers.
pub fn wrap_all<C: Child>(
    alloc: Global,
    kids: &[Kid],
    children: Vec<C>,
) -> Result<Vec<Wrapped<C>>, AllocError>
    requires each { length children.items ≡ length kids.now }
    requires joined { (i : ℕ) (kid : Kid) (child : C) → slice_get kids.now i ≡ Some kid → slice_get children.items i ≡ Some child → C.ready child × ((top_of (C.model child).tree).face ≡ kid.face) × ((top_of (C.model child).tree).summary ≡ kid.summary) }
    ensures children { IfOk result (λ ws. map (λ w. w.child) ws.items ≡ children.items) }
    ensures seated { IfOk result (λ ws. (i : ℕ) (kid : Kid) (w : Wrapped C) → slice_get kids.now i ≡ Some kid → slice_get ws.items i ≡ Some w → IsSeated C.model C.ready C.struck kid w) }
    ensures wrappers { IfOk result (λ ws. (i : ℕ) (w : Wrapped C) → slice_get ws.items i ≡ Some w → IsNewWrapper (C.model w.child).shown w.wrapper × (w.struck ≡ false)) }
{
    let mut wrapped = Vec::new(alloc);
    let mut left = children.into_iter();
    while let Some(child) = left.next() {
        let at = wrapped.len();
        let one = wrap(alloc, &kids[at], child)?;
        wrapped.push(one)?;
    }
    Ok(wrapped)
}

/// Adds what the wrappers show.
pub fn add_shown<C>(given: &mut Vec<Bits>, wrapped: &[Wrapped<C>]) -> Result<(), AllocError>
    ensures { OnOk result (given.new.items ≡ given.old.items ++ flat_map (λ c. shown c.wrapper) wrapped.now) }
{
    for one in wrapped {
        given.extend_from_slice(one.wrapper.outputs())?;
    }
    Ok(())
}
