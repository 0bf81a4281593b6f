//! What stands between a sealed child and the design around it.

ghost use Rattle.std.specs.Prelude.{◌≡◌, ◌<◌, Some, length, slice_get};
ghost use Rattle.sequence_select.specs.Shown.{shown};

use bit_ops::Bits;
use std::marker::Model;

/// The outputs that were last taken after an update of inputs, and those last taken after a step of clocks, each with the
/// number of that call of the child, which is 0 before the first. Those with the greater number are shown.
#[derive(Debug, Drop)]
pub struct Wrapper {
    combo_no: u64,
    out_combo: Vec<Bits>,
    seq_no: u64,
    out_seq: Vec<Bits>,
}

impl Model for Wrapper {
    ghost use Rattle.std.specs.Prelude.{◌≡◌, ◌<◌, ◌^◌, length};
    ghost use Rattle.sequence_select.specs.Shown.{Taken};

    ghost Value = { Taken };

    ghost view = { λ w. record { combo_no = w.combo_no; out_combo = w.out_combo.items; seq_no = w.seq_no; out_seq = w.out_seq.items } };

    ghost invariant = { λ w. length w.out_combo.items ≡ length w.out_seq.items };
}

impl Wrapper {
    /// A wrapper that has taken nothing yet, and shows the first of these lists of outputs.
    pub fn new(out_combo: Vec<Bits>, out_seq: Vec<Bits>) -> Wrapper
        requires each { length out_combo.items ≡ length out_seq.items }
        ensures { result ≡ record { combo_no = 0; out_combo = out_combo.items; seq_no = 0; out_seq = out_seq.items } }
    {
        Wrapper {
            combo_no: 0,
            out_combo,
            seq_no: 0,
            out_seq,
        }
    }

    /// Takes the outputs after an update, one for each as before.
    pub fn take_combo(&mut self, number: u64, outs: &[Bits])
        requires newer { (self.old.combo_no < number) × (self.old.seq_no < number) }
        requires each { length outs.now ≡ length self.old.out_combo }
        ensures taken { self.new ≡ record { combo_no = number; out_combo = outs.now; seq_no = self.old.seq_no; out_seq = self.old.out_seq } }
        ensures shown { shown self.new ≡ outs.now }
    {
        self.combo_no = number;
        self.out_combo.as_mut_slice().copy_from_slice(outs);
    }

    /// Takes the outputs after a step of clocks, one for each as before.
    pub fn take_seq(&mut self, number: u64, outs: &[Bits])
        requires newer { (self.old.combo_no < number) × (self.old.seq_no < number) }
        requires each { length outs.now ≡ length self.old.out_seq }
        ensures taken { self.new ≡ record { combo_no = self.old.combo_no; out_combo = self.old.out_combo; seq_no = number; out_seq = outs.now } }
        ensures shown { shown self.new ≡ outs.now }
    {
        self.seq_no = number;
        self.out_seq.as_mut_slice().copy_from_slice(outs);
    }

    /// All outputs that are shown, in port order.
    pub fn outputs(&self) -> &[Bits]
        ensures shown { result.now ≡ shown self.now }
        ensures each { length (shown self.now) ≡ length self.now.out_combo }
    {
        if self.combo_no < self.seq_no {
            self.out_seq.as_slice()
        } else {
            self.out_combo.as_slice()
        }
    }

    /// An output that is shown, counted from 0 in port order.
    pub fn shown(&self, k: usize) -> Bits
        requires { k < length (shown self.now) }
        ensures { slice_get (shown self.now) k ≡ Some result }
    {
        self.outputs()[k]
    }
}
