//! What flows into each slot: the data inputs that it reaches, and how many outputs of children stand on a path from it.

ghost use Rattle.std.specs.Prelude.{◌≡◌, ◌+◌, ◌*◌, ◌<◌, ◌≤◌, ◌^◌, ◌↔◌, ℕ, [], length, replicate, All, slice_index, IfOk, OnOk};
ghost use Rattle.levelise.specs.Graph.{ReadsOnlyNodes, IsLevelling};
ghost use Rattle.code_isa.specs.Dependence.{reads_of};
ghost use Rattle.code_check.specs.Told.{HasFewSlots};
ghost use Rattle.code_check.specs.code.Sets.{IsIn, row_of, IsInSome};
ghost use Rattle.code_check.specs.code.Flow.{AreRegions, IsDeepest, HasSet, AddsDepth, Takes, IsFlow};

use crate::sets::{insert, join};
use code_isa::{Machine, first_instruction, input_count};
use levelise::Graph;
use std::alloc::{AllocError, Global};
use sv_base::Sequence;

/// Where the slots of the data inputs end, those of the children's outputs begin, and those of the instructions begin;
/// and how many words a set of data inputs has.
#[derive(Clone, Copy)]
pub struct Regions {
    pub inputs: usize,
    pub outputs: usize,
    pub code: usize,
    pub words: usize,
}

/// The regions of a machine.
pub fn regions_of(m: &Machine) -> Regions
    ensures { AreRegions m.now result }
{
    let inputs = input_count(&m.face);
    Regions {
        inputs,
        outputs: inputs + m.regs.as_slice().len(),
        code: first_instruction(m),
        words: inputs.div_ceil(64),
    }
}

/// For each slot the set of the data inputs that it reaches, and the most outputs of children that stand on one path
/// from it.
#[derive(Drop)]
pub struct Flow {
    pub inputs: Vec<Sequence<u64>>,
    pub depths: Vec<u64>,
}

/// This many empty rows.
fn empty_rows(alloc: Global, count: usize) -> Result<Vec<Sequence<u64>>, AllocError>
    ensures { IfOk result (λ rows. rows.items ≡ replicate count []) }
{
    let mut rows = Vec::with_capacity(alloc, count)?;
    for _ in 0..count {
        rows.push(Sequence::new(alloc))?;
    }
    Ok(rows)
}

/// The set of this many words that has what the sets of these slots have.
fn joined(
    alloc: Global,
    inputs: &[Sequence<u64>],
    slots: &[u32],
    words: usize,
) -> Result<Vec<u64>, AllocError>
    requires inside { All (λ slot. slot < length inputs.now) slots.now }
    requires sized { All (λ slot. length (row_of inputs.now slot) ≡ words) slots.now }
    ensures size { IfOk result (λ row. length row.items ≡ words) }
    ensures exact { IfOk result (λ row. (p : ℕ) → IsIn row.items p ↔ IsInSome inputs.now slots.now p) }
{
    let mut row = vec![in alloc; 0; words]?;
    for slot in slots {
        join(&mut row, inputs[*slot as usize].as_slice());
    }
    Ok(row)
}

/// The greatest depth of these slots, and 0 where there is none.
fn deepest(depths: &[u64], slots: &[u32]) -> u64
    requires { All (λ slot. slot < length depths.now) slots.now }
    ensures { IsDeepest depths.now slots.now result }
{
    let mut most: u64 = 0;
    for slot in slots {
        most = most.max(depths[*slot as usize]);
    }
    most
}

/// The set of a slot: what the slots that it reads have, and the slot itself where it is a data input.
fn set_of(
    alloc: Global,
    inputs: &[Sequence<u64>],
    regions: &Regions,
    slot: u32,
    reads: &[u32],
) -> Result<Vec<u64>, AllocError>
    requires inside { All (λ s. s < length inputs.now) reads.now }
    requires sized { All (λ s. length (row_of inputs.now s) ≡ regions.now.words) reads.now }
    requires room { regions.now.inputs ≤ 64 * regions.now.words }
    ensures size { IfOk result (λ row. length row.items ≡ regions.now.words) }
    ensures exact { IfOk result (λ row. HasSet regions.now inputs.now slot reads.now row.items) }
{
    let mut row = joined(alloc, inputs, reads, regions.words)?;
    if (slot as usize) < regions.inputs {
        insert(&mut row, slot as usize);
    }
    Ok(row)
}

/// The depth of a slot: the greatest of those that it reads, and one more where it is a child's output.
fn depth_of(depths: &[u64], regions: &Regions, slot: u32, reads: &[u32]) -> u64
    requires inside { All (λ s. s < length depths.now) reads.now }
    requires shallow { (s : ℕ) → slice_index depths.now s + 1 < 2 ^ 64 }
    ensures { AddsDepth regions.now depths.now slot reads.now result }
{
    let below = deepest(depths, reads);
    let at = slot as usize;
    if regions.outputs <= at && at < regions.code {
        below + 1
    } else {
        below
    }
}

impl Flow {
    /// No slot was taken yet.
    fn new(alloc: Global, slots: usize) -> Result<Flow, AllocError>
        ensures inputs { IfOk result (λ flow. flow.inputs.items ≡ replicate slots []) }
        ensures depths { IfOk result (λ flow. flow.depths.items ≡ replicate slots 0) }
    {
        Ok(Flow {
            inputs: empty_rows(alloc, slots)?,
            depths: vec![in alloc; 0; slots]?,
        })
    }

    /// Takes a slot; those that it reads were taken.
    fn take(
        &mut self,
        alloc: Global,
        regions: &Regions,
        slot: u32,
        reads: &[u32],
    ) -> Result<(), AllocError>
        requires slot { slot < length self.old.inputs.items }
        requires depths { length self.old.depths.items ≡ length self.old.inputs.items }
        requires inside { All (λ s. s < length self.old.inputs.items) reads.now }
        requires sized { All (λ s. length (row_of self.old.inputs.items s) ≡ regions.now.words) reads.now }
        requires room { regions.now.inputs ≤ 64 * regions.now.words }
        requires shallow { (s : ℕ) → slice_index self.old.depths.items s + 1 < 2 ^ 64 }
        ensures { OnOk result (Takes regions.now self.old self.new slot reads.now) }
    {
        let row = set_of(alloc, self.inputs.as_slice(), regions, slot, reads)?;
        self.inputs[slot as usize] = Sequence::from_vec(row);
        self.depths[slot as usize] = depth_of(self.depths.as_slice(), regions, slot, reads);
        Ok(())
    }
}

/// What is known of all slots, which are taken in an order in which each comes after all that it reads.
pub fn flow_of(alloc: Global, m: &Machine, graph: &Graph, order: &[u32]) -> Result<Flow, AllocError>
    requires reads { graph.now.reads ≡ reads_of m.now }
    requires inside { ReadsOnlyNodes (reads_of m.now) }
    requires few { HasFewSlots m.now }
    requires order { IsLevelling (reads_of m.now) order.now }
    ensures { IfOk result (IsFlow m.now) }
{
    let regions = regions_of(m);
    let mut flow = Flow::new(alloc, graph.reads.len())?;
    for slot in order {
        let reads = graph.reads.as_slice()[*slot as usize].as_slice();
        flow.take(alloc, &regions, *slot, reads)?;
    }
    Ok(flow)
}
