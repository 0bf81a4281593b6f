//! Laws of machines. Each is the contract of a function with an empty body: a caller has the law by a call, which does
//! nothing.

ghost use Rattle.std.specs.Prelude.{◌≡◌, ℕ, List, Bool, ◌<◌, length, slice_set, slice_index, Contains};
ghost use Rattle.code_isa.specs.declared.machine.Machine.{Machine};
ghost use Rattle.code_isa.specs.Faces.{input_count};
ghost use Rattle.code_isa.specs.Slots.{first_instruction};
ghost use Rattle.code_isa.specs.Checks.{row_at};
ghost use Rattle.code_isa.specs.Tree.{Tree, State, IsLinked, top_of, held_of, outs_of};
ghost use Rattle.code_isa.specs.Settled.{IsSettled, HaveSameRegisters, HasRegisters};
ghost use Rattle.code_isa.specs.Activity.{HaveValuesBut, MarksReaders};

/// Where a slot that is no instruction's is set and its readers are marked, every instruction that is not marked still has
/// its value.
pub fn set_and_marked()
    ensures { (m : Machine) (slot n : ℕ) (words : List ℕ) (old new : List Bool) → slot < first_instruction m → MarksReaders m slot old new → HaveValuesBut m old words → HaveValuesBut m new (slice_set words slot n) }
{}

/// A tree has one settled state for all words of the data inputs at its top and of its registers.
pub fn one_settled()
    ensures { (t : Tree) (s z : State) → IsLinked t → IsSettled t s → IsSettled t z → held_of s ≡ held_of z → HaveSameRegisters s z → s ≡ z }
{}

/// A tree has a settled state for all words of the data inputs at its top and of its registers. So with `one_settled`
/// the words of its outputs and of its registers' next slots are functions of these.
pub fn settled_exists()
    ensures { (t : Tree) (s : State) → IsLinked t → HasRegisters t s → length (held_of s) ≡ input_count (top_of t).face → (z : State) × IsSettled t z × (held_of z ≡ held_of s) × HaveSameRegisters s z }
{}

/// An output of a tree depends on the data inputs in its own row alone: two settled states with the same registers whose
/// inputs at the top agree there agree at the output.
pub fn outputs_by_rows()
    ensures { (t : Tree) (s z : State) → IsLinked t → IsSettled t s → IsSettled t z → HaveSameRegisters s z → (k : ℕ) → ((input : ℕ) → Contains (row_at (top_of t).summary k) input → slice_index (held_of s) input ≡ slice_index (held_of z) input) → slice_index (outs_of t s) k ≡ slice_index (outs_of t z) k }
{}
