//! What is delivered to a child, and what is taken from it.

ghost use Rattle.std.specs.Prelude.{◌≡◌, ◌≢◌, ◌<◌, ◌↔◌, ℕ, IsTrue, Some, length, slice_get, All};
ghost use Rattle.bit_ops.specs.Lists.{words, widths};
ghost use Rattle.code_isa.specs.Faces.{input_count, output_count, output_widths};
ghost use Rattle.code_isa.specs.Tree.{top_of, held_of, words_at};
ghost use Rattle.code_isa.specs.Traces.{levels_at};

use bit_ops::Bits;
use model_stage::Child;

/// Room for what a child is given and gives, and the slot of its first output.
#[derive(Drop)]
pub struct Buffer {
    pub first: usize,
    pub ins: Vec<Bits>,
    pub outs: Vec<Bits>,
    pub levels: Vec<bool>,
}

/// Copies the values of these slots.
pub fn gather(buffer: &mut Vec<Bits>, slots: &[Bits], places: &[u64])
    requires sized { length buffer.old.items ≡ length places.now }
    requires inside { All (λ place. place < length slots.now) places.now }
    ensures words { words buffer.new.items ≡ words_at (words slots.now) places.now }
    ensures widths { widths buffer.new.items ≡ words_at (widths slots.now) places.now }
{
    for k in 0..places.len() {
        buffer[k] = slots[places[k] as usize];
    }
}

/// Copies the levels of these clocks.
pub fn gather_levels(buffer: &mut Vec<bool>, levels: &[bool], clocks: &[u32])
    requires sized { length buffer.old.items ≡ length clocks.now }
    requires inside { All (λ clock. clock < length levels.now) clocks.now }
    ensures { buffer.new.items ≡ levels_at levels.now clocks.now }
{
    for k in 0..clocks.len() {
        buffer[k] = levels[clocks[k] as usize];
    }
}

/// Copies the outputs that a ready child shows.
pub fn collect<C: Child>(buffer: &mut Vec<Bits>, child: &C)
    requires ready { C.ready child.now }
    requires sized { length buffer.old.items ≡ output_count (top_of (C.model child.now).tree).face }
    ensures words { words buffer.new.items ≡ (C.model child.now).shown }
    ensures widths { widths buffer.new.items ≡ output_widths (top_of (C.model child.now).tree).face }
{
    for k in 0..buffer.len() {
        buffer[k] = child.out(k);
    }
}

/// Whether a ready child holds other inputs than the values of these slots.
pub fn differs<C: Child>(child: &C, slots: &[Bits], places: &[u64]) -> bool
    requires ready { C.ready child.now }
    requires sized { length places.now ≡ input_count (top_of (C.model child.now).tree).face }
    requires inside { All (λ place. place < length slots.now) places.now }
    ensures { IsTrue result ↔ (held_of (C.model child.now).state ≢ words_at (words slots.now) places.now) }
{
    for k in 0..places.len() {
        if child.held(k).word != slots[places[k] as usize].word {
            return true;
        }
    }
    false
}
