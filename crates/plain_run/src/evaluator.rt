//! A plain evaluator: it takes a design's continuous assignments once, in the order of the text.

ghost use Rattle.std.specs.Prelude.{◌≡◌, length};
ghost use Rattle.std.specs.List.{AllByRecursion};
ghost use Rattle.bit_ops.specs.Lists.{words, widths};
ghost use Rattle.net_ir.specs.Value.{widths_of};
ghost use Rattle.net_ir.specs.Lawful.{IsLawfulDriver};
ghost use Rattle.net_ir.specs.Solution.{Solves};
ghost use Rattle.plain_run.specs.Plain.{IsTimely, IsPlain};
ghost use Rattle.plain_run.specs.code.Pass.{source_of, sources_of, KeepsInitial, state_of, turn, run};

use bit_ops::Bits;
use net_ir::{Driver, Role, Spec, Var};
use net_values::{evaluate, store};

/// The values of all variables in the design's one solution for these levels of the inputs and these words
/// of the registers. A value for each variable stands in `inputs`, of which those of inputs are read, and
/// in `registers`, where each bit that no clocked process writes has its initial value. Takes no memory.
pub fn solve(spec: &Spec, inputs: &[Bits], registers: &[Bits], values: &mut [Bits])
    requires plain { IsPlain spec.now }
    requires inputs { widths inputs.now ≡ widths_of spec.now.vars }
    requires registers { widths registers.now ≡ widths_of spec.now.vars }
    requires initial { KeepsInitial spec.now (words registers.now) }
    requires values { widths values.old ≡ widths_of spec.now.vars }
    ensures widths { widths values.new ≡ widths_of spec.now.vars }
    ensures solved { Solves spec.now (state_of spec.now inputs.now registers.now) (words values.new) }
{
    set_sources(spec.vars.as_slice(), inputs, registers, values);
    drive_all(
        spec.vars.as_slice(),
        spec.drivers.as_slice(),
        inputs,
        values,
    );
}

/// What a variable has before any driver's turn.
fn source(var: &Var, input: Bits, held: Bits) -> Bits
    ensures { result ≡ source_of var.now input held }
{
    match var.role {
        Role::Input => input,
        Role::Output | Role::Inner => held,
    }
}

/// Gives each variable what it has before any driver's turn.
fn set_sources(vars: &[Var], inputs: &[Bits], registers: &[Bits], values: &mut [Bits])
    requires inputs { widths inputs.now ≡ widths_of vars.now }
    requires registers { widths registers.now ≡ widths_of vars.now }
    requires values { length values.old ≡ length vars.now }
    ensures widths { widths values.new ≡ widths_of vars.now }
    ensures sources { values.new ≡ sources_of vars.now inputs.now registers.now }
{
    for x in 0..vars.len() {
        values[x] = source(&vars[x], inputs[x], registers[x]);
    }
}

/// Takes each of the drivers once, in their order. Positions are constant, so any value of each variable may be `seen` at them.
fn drive_all(vars: &[Var], drivers: &[Driver], seen: &[Bits], values: &mut [Bits])
    requires lawful { AllByRecursion (IsLawfulDriver vars.now) drivers.now }
    requires timely { AllByRecursion IsTimely drivers.now }
    requires seen { widths seen.now ≡ widths_of vars.now }
    requires values { widths values.old ≡ widths_of vars.now }
    ensures widths { widths values.new ≡ widths_of vars.now }
    ensures words { words values.new ≡ run vars.now drivers.now (words values.old) }
{
    for driver in drivers {
        drive(vars, driver, seen, values);
    }
}

/// Gives what a continuous assignment writes its value.
fn drive(vars: &[Var], driver: &Driver, seen: &[Bits], values: &mut [Bits])
    requires lawful { IsLawfulDriver vars.now driver.now }
    requires timely { IsTimely driver.now }
    requires seen { widths seen.now ≡ widths_of vars.now }
    requires values { widths values.old ≡ widths_of vars.now }
    ensures widths { widths values.new ≡ widths_of vars.now }
    ensures words { words values.new ≡ turn vars.now driver.now (words values.old) }
{
    match driver {
        Driver::Assign { target, value, .. } => {
            store(target, evaluate(value, values), vars, seen, values);
        }
        Driver::Comb { .. } | Driver::Clocked { .. } | Driver::Instance(_) => {}
    }
}
