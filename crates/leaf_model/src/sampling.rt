//! What registers take at the edges of their clocks.

ghost use Rattle.std.specs.Prelude.{◌≡◌, ◌+◌, ◌<◌, ◌≤◌, length, map, take, drop, slice_index, All, if◌then◌else◌};
ghost use Rattle.bit_ops.specs.Lists.{words, widths};
ghost use Rattle.code_isa.specs.Traces.{edge_occurs, sampled};

use bit_ops::Bits;
use code_isa::Reg;

/// Whether an edge occurs where a clock goes from one level to another (IEEE 1800-2017, 9.4.2).
fn has_edge(falling: bool, from: bool, to: bool) -> bool
    ensures { result ≡ edge_occurs falling from to }
{
    if falling { from && !to } else { !from && to }
}

/// What a register with this value has after its clock went from one level to another.
fn taken(reg: &Reg, slots: &[Bits], own: Bits, from: bool, to: bool) -> Bits
    requires next { reg.now.next < length slots.now }
    requires wide { slice_index (widths slots.now) reg.now.next ≡ own.width }
    ensures word { result.word ≡ (if edge_occurs reg.now.falling from to then slice_index (words slots.now) reg.now.next else own.word) }
    ensures width { result.width ≡ own.width }
{
    if has_edge(reg.falling, from, to) {
        slots[reg.next as usize]
    } else {
        own
    }
}

/// What all registers, whose slots stand from `first` on, have after the clocks went from the old levels to the new.
pub fn sample(
    next: &mut Vec<Bits>,
    regs: &[Reg],
    slots: &[Bits],
    first: usize,
    old: &[bool],
    new: &[bool],
)
    requires sized { length next.old.items ≡ length regs.now }
    requires inside { first + length regs.now ≤ length slots.now }
    requires levels { length old.now ≡ length new.now }
    requires clocks { All (λ r. r.clock < length new.now) regs.now }
    requires nexts { All (λ r. r.next < length slots.now) regs.now }
    requires wide { All (λ r. slice_index (widths slots.now) r.next ≡ r.width) regs.now }
    requires own { take (length regs.now) (drop first (widths slots.now)) ≡ map (λ r. r.width) regs.now }
    ensures words { words next.new.items ≡ sampled old.now new.now (words slots.now) regs.now (take (length regs.now) (drop first (words slots.now))) }
    ensures widths { widths next.new.items ≡ map (λ r. r.width) regs.now }
{
    for r in 0..regs.len() {
        let reg = &regs[r];
        let clock = reg.clock as usize;
        next[r] = taken(reg, slots, slots[first + r], old[clock], new[clock]);
    }
}
