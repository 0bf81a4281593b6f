//! A step of a bench.

ghost use Rattle.std.specs.Prelude.{◌≡◌, ◌<◌, ◌≤◌, ◌+◌, List};
ghost use Rattle.std.specs.List.{AllByRecursion};
ghost use Rattle.sv_base.specs.Steps.{Setting, set_all};
ghost use Rattle.sv_base.specs.Meaning.{State, MeansSame, StepsTo, held_in};
ghost use Rattle.stimulus_reader.specs.Stimulus.{step_of};
ghost use Rattle.stimulus_reader.specs.Reading.{IsSettable};

use model_stage::Bench;
use stimulus_reader::{StepKind, StepReader};

/// Makes the step that the reader has given: from each state of which the bench holds its part, to one of which it then
/// does, and whose inputs are the reader's values.
pub fn make_step<B: Bench>(kind: StepKind, reader: &StepReader, bench: &mut B)
    requires reader { reader.now.ports ≡ (B.meaning bench.old).ports }
    requires room { 0 < B.room bench.old }
    ensures same { MeansSame (B.meaning bench.old) (B.meaning bench.new) }
    ensures step { (state : State) (settings : List Setting) →
        held_in reader.now.ports state ≡ B.held bench.old →
        AllByRecursion (IsSettable reader.now.ports kind) settings →
        reader.now.values ≡ set_all settings state.inputs →
        (next : State) × StepsTo (B.meaning bench.old) state (step_of kind settings) next
        × (next.inputs ≡ reader.now.values) × (held_in reader.now.ports next ≡ B.held bench.new) }
    ensures room { B.room bench.old ≤ B.room bench.new + 1 }
{
    match kind {
        StepKind::Values => bench.set_values(reader.inputs()),
        StepKind::Clocks => bench.set_clocks(reader.levels()),
    }
}
