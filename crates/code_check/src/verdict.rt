//! Which fault a machine has first.

ghost use Rattle.std.specs.Prelude.{◌≡◌, ◌*◌, ◌^◌, ◌<◌, ◌≤◌, ◌↔◌, ℕ, All, Contains, length, IsTrue, IfOk, IfErr, OnOk};
ghost use Rattle.levelise.specs.Graph.{IsLevelling, ReadsOnlyNodes};
ghost use Rattle.code_isa.specs.Dependence.{reads_of};
ghost use Rattle.code_isa.specs.Checks.{IsPortShaped, IsSlotOrdered, IsSlotWide, IsAcyclic, IsSummarised, IsChained, IsChecked};
ghost use Rattle.code_check.specs.Told.{HasFewSlots, TellsFirstFault};
ghost use Rattle.code_check.specs.code.Sets.{IsIn};
ghost use Rattle.code_check.specs.code.Flow.{IsFlow};
ghost use Rattle.code_check.specs.code.Verdict.{IsOrderOf};

use crate::fault::CheckFault;
use crate::flow::{Flow, flow_of};
use crate::order::is_slot_ordered;
use crate::ports::is_port_shaped;
use crate::reads::reads;
use crate::sets::has;
use crate::widths::is_slot_wide;
use code_isa::{CodeFault, Machine, input_count};
use levelise::{Graph, LevelFault, levelling_excludes_cycles, order};
use std::alloc::Global;
use sv_base::Sequence;

/// An order in which each slot comes after all that it reads. There is none exactly where an output slot of a child
/// depends on itself: every other cycle would go through slots of instructions alone, which rise.
fn order_of(alloc: Global, m: &Machine, graph: &Graph) -> Result<Sequence<u32>, CheckFault>
    requires reads { graph.now.reads ≡ reads_of m.now }
    requires inside { ReadsOnlyNodes (reads_of m.now) }
    requires few { HasFewSlots m.now }
    requires slot_order { IsSlotOrdered m.now }
    ensures { IsOrderOf m.now result }
{
    levelling_excludes_cycles();
    match order(alloc, graph) {
        Ok(order) => Ok(order),
        Err(LevelFault::OnCycle(_)) => Err(CheckFault::Bad(CodeFault::CycleInside)),
        Err(LevelFault::NoMemory) => Err(CheckFault::NoMemory),
    }
}

/// Whether all of the first positions that are in a set stand in a row.
fn is_named(set: &[u64], row: &[u32], inputs: usize) -> bool
    requires room { inputs ≤ 64 * length set.now }
    requires few { inputs < 2 ^ 32 }
    ensures { IsTrue result ↔ ((p : ℕ) → p < inputs → IsIn set.now p → Contains row.now p) }
{
    for p in 0..inputs {
        if has(set, p) && !row.contains(&(p as u32)) {
            return false;
        }
    }
    true
}

/// Whether each data input that an output reaches stands in the output's row.
fn is_summarised(m: &Machine, flow: &Flow) -> bool
    requires flow { IsFlow m.now flow.now }
    requires slot_order { IsSlotOrdered m.now }
    ensures { IsTrue result ↔ IsSummarised m.now }
{
    let inputs = input_count(&m.face);
    let rows = m.summary.rows.as_slice();
    let outs = m.outs.as_slice();
    for k in 0..outs.len() {
        if !is_named(
            flow.inputs[outs[k] as usize].as_slice(),
            rows[k].as_slice(),
            inputs,
        ) {
            return false;
        }
    }
    true
}

/// Whether no depth is above the chain.
fn are_up_to(depths: &[u64], chain: u64) -> bool
    ensures { IsTrue result ↔ All (λ depth. depth ≤ chain) depths.now }
{
    depths.iter().all(|depth| *depth <= chain)
}

/// Whether no path has more outputs of children than the chain says.
fn is_chained(m: &Machine, flow: &Flow) -> bool
    requires { IsFlow m.now flow.now }
    ensures { IsTrue result ↔ IsChained m.now }
{
    are_up_to(flow.depths.as_slice(), u64::from(m.chain))
}

/// Whether a machine whose faces, slots and widths are right has one of the other faults, and which first.
fn examine_flow(alloc: Global, m: &Machine) -> Result<(), CheckFault>
    requires few { HasFewSlots m.now }
    requires port_shape { IsPortShaped m.now }
    requires slot_order { IsSlotOrdered m.now }
    requires slot_width { IsSlotWide m.now }
    ensures ok { OnOk result (IsChecked m.now) }
    ensures fault { IfErr result (TellsFirstFault m.now) }
{
    let graph = reads(alloc, m)?;
    let order = order_of(alloc, m, &graph)?;
    let flow = flow_of(alloc, m, &graph, order.as_slice())?;
    if !is_summarised(m, &flow) {
        return Err(CheckFault::Bad(CodeFault::SummaryShort));
    }
    if !is_chained(m, &flow) {
        return Err(CheckFault::Bad(CodeFault::ChainShort));
    }
    Ok(())
}

/// Whether a machine has a fault, and which first.
pub fn examine(alloc: Global, m: &Machine) -> Result<(), CheckFault>
    requires { HasFewSlots m.now }
    ensures ok { OnOk result (IsChecked m.now) }
    ensures fault { IfErr result (TellsFirstFault m.now) }
{
    if !is_port_shaped(m) {
        return Err(CheckFault::Bad(CodeFault::PortShape));
    }
    if !is_slot_ordered(m) {
        return Err(CheckFault::Bad(CodeFault::SlotOrder));
    }
    if !is_slot_wide(alloc, m)? {
        return Err(CheckFault::Bad(CodeFault::SlotWidth));
    }
    examine_flow(alloc, m)
}
