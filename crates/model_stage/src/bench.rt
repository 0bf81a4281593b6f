//! A design that is played: it is set from outside, step by step, and shows its outputs.

ghost use Rattle.std.specs.Prelude.{◌≡◌, ℕ, ◌+◌, ◌<◌, ◌≤◌, List, length, map, Some, slice_get};
ghost use Rattle.bit_ops.specs.Lists.{words, widths};
ghost use Rattle.sv_base.specs.declared.face.Port.{Port};
ghost use Rattle.sv_base.specs.Classes.{is_value, is_clock, is_output, level_word, words_of_class};
ghost use Rattle.sv_base.specs.Meaning.{Held, Meaning, MeansSame, widths_of_class};

use bit_ops::Bits;

/// A design that is settled: what it means, what it holds, what its outputs are, and how many steps it has room for. Idle
/// inputs are not set.
pub trait Bench {
    // what it means: no step changes that
    ghost meaning: { Self → Meaning };

    // the words of its data inputs and registers, and the levels of its clocks
    ghost held: { Self → Held };

    // the words of its outputs, in port order
    ghost outputs: { Self → List ℕ };

    // how many steps may still be made
    ghost room: { Self → ℕ };

    /// Makes one data step: the data inputs take these values, one for each of them in port order.
    fn set_values(&mut self, inputs: &[Bits])
        requires inputs { widths inputs.now ≡ widths_of_class is_value (meaning self.old).ports }
        requires room { 0 < room self.old }
        ensures same { MeansSame (meaning self.old) (meaning self.new) }
        ensures values { (held self.new).values ≡ words inputs.now }
        ensures levels { (held self.new).levels ≡ (held self.old).levels }
        ensures registers { (held self.new).registers ≡ (held self.old).registers }
        ensures room { room self.old ≤ room self.new + 1 };

    /// Makes one clock step: the clocks take these levels, one for each of them in port order, and registers whose edge
    /// occurs sample what they read before.
    fn set_clocks(&mut self, levels: &[bool])
        requires levels { length levels.now ≡ length (widths_of_class is_clock (meaning self.old).ports) }
        requires room { 0 < room self.old }
        ensures same { MeansSame (meaning self.old) (meaning self.new) }
        ensures values { (held self.new).values ≡ (held self.old).values }
        ensures levels { (held self.new).levels ≡ map level_word levels.now }
        ensures registers { (meaning self.old).samples (held self.old) (map level_word levels.now) (held self.new).registers }
        ensures room { room self.old ≤ room self.new + 1 };

    /// The value of an output, counted from 0 in port order.
    fn out(&self, k: usize) -> Bits
        requires { k < length (outputs self.now) }
        ensures word { slice_get (outputs self.now) k ≡ Some result.word }
        ensures width { slice_get (widths_of_class is_output (meaning self.now).ports) k ≡ Some result.width };

    // it is settled: these are its outputs where it holds this
    ghost settled: { (bench : Self) → (meaning bench).shows (held bench) (outputs bench) };

    // it has a word for each output
    ghost each: { (bench : Self) → length (outputs bench) ≡ length (widths_of_class is_output (meaning bench).ports) };
}
