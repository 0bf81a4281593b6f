//! Values that are put into slots, and copied from them.

ghost use Rattle.std.specs.Prelude.{◌≡◌, ◌+◌, ◌<◌, ◌≤◌, length, take, drop, All};
ghost use Rattle.bit_ops.specs.Lists.{words, widths};
ghost use Rattle.code_isa.specs.Slots.{slot_widths, first_instruction};
ghost use Rattle.code_isa.specs.Checks.{IsChecked};
ghost use Rattle.code_isa.specs.Values.{IsRun};
ghost use Rattle.code_isa.specs.Tree.{words_at};
ghost use Rattle.leaf_model.specs.Leaf.{placed};

use bit_ops::Bits;
use code_isa::{Machine, run_slots};

/// Puts values into slots from a position on.
pub fn put(slots: &mut Vec<Bits>, first: usize, values: &[Bits])
    requires { first + length values.now ≤ length slots.old.items }
    ensures words { words slots.new.items ≡ placed (words slots.old.items) first (words values.now) }
    ensures widths { widths slots.new.items ≡ placed (widths slots.old.items) first (widths values.now) }
{
    for k in 0..values.len() {
        slots[first + k] = values[k];
    }
}

/// Puts values into slots before those of the instructions, and runs the code.
pub fn give(m: &Machine, slots: &mut Vec<Bits>, first: usize, values: &[Bits])
    requires checked { IsChecked m.now }
    requires shape { widths slots.old.items ≡ slot_widths m.now }
    requires inside { first + length values.now ≤ first_instruction m.now }
    requires wide { widths values.now ≡ take (length values.now) (drop first (slot_widths m.now)) }
    ensures shape { widths slots.new.items ≡ slot_widths m.now }
    ensures run { IsRun m.now (words slots.new.items) }
    ensures given { take (first_instruction m.now) (words slots.new.items) ≡ take (first_instruction m.now) (placed (words slots.old.items) first (words values.now)) }
{
    put(slots, first, values);
    run_slots(m, slots);
}

/// Copies the values of these slots.
pub fn gather(buffer: &mut Vec<Bits>, slots: &[Bits], places: &[u64])
    requires sized { length buffer.old.items ≡ length places.now }
    requires inside { All (λ place. place < length slots.now) places.now }
    ensures words { words buffer.new.items ≡ words_at (words slots.now) places.now }
    ensures widths { widths buffer.new.items ≡ words_at (widths slots.now) places.now }
{
    for k in 0..places.len() {
        buffer[k] = slots[places[k] as usize];
    }
}
