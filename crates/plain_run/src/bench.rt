//! A plain design on a bench, stepped by the plain evaluator.

ghost use Rattle.std.specs.Prelude.{◌≡◌, ◌<◌, ◌≤◌, ◌^◌, length, map, slice_index, refl, IfOk};
ghost use Rattle.std.specs.List.{AllByRecursion};
ghost use Rattle.bit_ops.specs.Lists.{words, widths};
ghost use Rattle.sv_base.specs.Classes.{is_value, is_clock, is_output, level_word, words_of_class};
ghost use Rattle.sv_base.specs.Meaning.{held_in, widths_of_class};
ghost use Rattle.net_ir.specs.Face.{ports_of, face_of};
ghost use Rattle.net_ir.specs.Value.{widths_of};
ghost use Rattle.net_ir.specs.Lawful.{IsLawfulVar};
ghost use Rattle.plain_run.specs.Plain.{IsPlain};
ghost use Rattle.plain_run.specs.code.Pass.{KeepsInitial, state_of};
ghost use Rattle.net_ir.specs.Run.{start};
ghost use Rattle.net_ir.specs.Solution.{Solves};
ghost use Rattle.net_ir.specs.Benched.{meaning_of};
ghost use Rattle.plain_run.specs.Places.{is_of, places_from, set_places};
ghost use Rattle.plain_run.specs.Settled.{held_of, shows_outputs, Solves-prop};

use crate::evaluator::solve;
use crate::sampling::sample;
use bit_ops::Bits;
use model_stage::Bench;
use net_ir::{Spec, Var};
use std::alloc::{AllocError, Global};
use sv_base::{Class, Face, Port};

/// A plain design with its state, settled.
#[derive(Drop)]
pub struct PlainBench {
    pub spec: Spec,
    // the places of the data inputs, of the clocks and of the outputs among the variables
    data_inputs: Vec<usize>,
    clocks: Vec<usize>,
    outputs: Vec<usize>,
    // a value for each variable, of which those of inputs, of registers and all count
    inputs: Vec<Bits>,
    registers: Vec<Bits>,
    values: Vec<Bits>,
    // the levels of the inputs before a clock step
    before: Vec<Bits>,
    ghost plain: { ∥ IsPlain spec ∥₁ },
    ghost data_inputs_places: { data_inputs.items ≡ places_from is_value 0 (ports_of spec) },
    ghost clocks_places: { clocks.items ≡ places_from is_clock 0 (ports_of spec) },
    ghost outputs_places: { outputs.items ≡ places_from is_output 0 (ports_of spec) },
    ghost inputs_widths: { widths inputs.items ≡ widths_of spec.vars },
    ghost registers_widths: { widths registers.items ≡ widths_of spec.vars },
    ghost values_widths: { widths values.items ≡ widths_of spec.vars },
    ghost before_widths: { widths before.items ≡ widths_of spec.vars },
    ghost long: { length (ports_of spec) ≤ length inputs.items },
    ghost each_output: { length (words_of_class is_output (ports_of spec) (words values.items))
        ≡ length (widths_of_class is_output (ports_of spec)) },
    ghost initial: { KeepsInitial spec (words registers.items) },
    ghost solved: { Solves spec (state_of spec inputs.items registers.items) (words values.items) } by { Solves-prop spec (state_of spec inputs.items registers.items) (words values.items) },
}

impl PlainBench {
    /// The bench of a plain design with this face, at its start: every input is 0, and every register has its initial
    /// word. Takes all the memory that its steps need.
    pub fn new(alloc: Global, spec: Spec, face: &Face) -> Result<PlainBench, AllocError>
        requires plain { IsPlain spec }
        requires face { face.now ≡ face_of spec }
        ensures design { IfOk result (λ bench. bench.spec ≡ spec) }
        ensures start { IfOk result (λ bench.
            ⟦<PlainBench as Bench>⟧.held bench ≡ held_in (ports_of spec) (start spec)) }
    {
        let ports = face.ports.as_slice();
        let data_inputs = places_of(alloc, ports, Class::Value)?;
        let clocks = places_of(alloc, ports, Class::Clock)?;
        let outputs = places_of(alloc, ports, Class::Output)?;
        let vars = spec.vars.as_slice();
        let inputs = zeros(alloc, vars)?;
        let registers = initial_values(alloc, vars)?;
        let mut values = zeros(alloc, vars)?;
        let before = zeros(alloc, vars)?;
        solve(
            &spec,
            inputs.as_slice(),
            registers.as_slice(),
            values.as_mut_slice(),
        );
        Ok(PlainBench {
            spec,
            data_inputs,
            clocks,
            outputs,
            inputs,
            registers,
            values,
            before,
        })
    }
}

impl Bench for PlainBench {
    ghost meaning = { λ bench. meaning_of bench.spec };

    ghost held = { λ bench. held_of bench.spec bench.inputs.items bench.registers.items };

    ghost outputs = { λ bench.
        words_of_class is_output (ports_of bench.spec) (words bench.values.items) };

    // no step takes of it
    ghost room = { λ bench. 2 ^ 63 };

    ghost settled = { λ bench.
        shows_outputs bench.spec bench.inputs.items bench.registers.items bench.values.items
        bench.long bench.solved };

    ghost each = { λ bench. bench.each_output };

    fn set_values(&mut self, inputs: &[Bits]) {
        set_inputs(
            self.inputs.as_mut_slice(),
            self.data_inputs.as_slice(),
            inputs,
        );
        solve(
            &self.spec,
            self.inputs.as_slice(),
            self.registers.as_slice(),
            self.values.as_mut_slice(),
        );
    }

    fn set_clocks(&mut self, levels: &[bool]) {
        self.before
            .as_mut_slice()
            .copy_from_slice(self.inputs.as_slice());
        set_levels(self.inputs.as_mut_slice(), self.clocks.as_slice(), levels);
        sample(
            &self.spec,
            self.values.as_slice(),
            self.before.as_slice(),
            self.inputs.as_slice(),
            self.registers.as_mut_slice(),
        );
        solve(
            &self.spec,
            self.inputs.as_slice(),
            self.registers.as_slice(),
            self.values.as_mut_slice(),
        );
    }

    fn out(&self, k: usize) -> Bits {
        self.values[self.outputs[k]]
    }
}

/// The places of the ports of a class, in port order.
fn places_of(alloc: Global, ports: &[Port], class: Class) -> Result<Vec<usize>, AllocError>
    ensures { IfOk result (λ places. places.items ≡ places_from (is_of class) 0 ports.now) }
{
    let mut places = Vec::new(alloc);
    for (place, port) in ports.iter().enumerate() {
        if port.class == class {
            places.push(place)?;
        }
    }
    Ok(places)
}

/// A value for each variable, all 0.
fn zeros(alloc: Global, vars: &[Var]) -> Result<Vec<Bits>, AllocError>
    requires { AllByRecursion IsLawfulVar vars.now }
    ensures widths { IfOk result (λ values. widths values.items ≡ widths_of vars.now) }
    ensures words { IfOk result (λ values. words values.items ≡ map (λ _. 0) vars.now) }
{
    let mut values = Vec::with_capacity(alloc, vars.len())?;
    for var in vars {
        values.push(Bits::zero(var.init.width))?;
    }
    Ok(values)
}

/// The initial value of each variable.
fn initial_values(alloc: Global, vars: &[Var]) -> Result<Vec<Bits>, AllocError>
    requires { AllByRecursion IsLawfulVar vars.now }
    ensures widths { IfOk result (λ values. widths values.items ≡ widths_of vars.now) }
    ensures words { IfOk result (λ values. words values.items ≡ map (λ v. v.init.word) vars.now) }
{
    let mut values = Vec::with_capacity(alloc, vars.len())?;
    for var in vars {
        values.push(var.init)?;
    }
    Ok(values)
}

/// Gives each of the places its value.
fn set_inputs(values: &mut [Bits], places: &[usize], given: &[Bits])
    requires within { AllByRecursion (λ place. place < length values.old) places.now }
    requires given { widths given.now ≡ map (slice_index (widths values.old)) places.now }
    ensures widths { widths values.new ≡ widths values.old }
    ensures words { words values.new ≡ set_places places.now (words given.now) (words values.old) }
{
    for (k, place) in places.iter().enumerate() {
        values[*place] = given[k];
    }
}

/// Gives each of the places, which have one bit, its level.
fn set_levels(values: &mut [Bits], places: &[usize], levels: &[bool])
    requires within { AllByRecursion (λ place. place < length values.old) places.now }
    requires one_bit { AllByRecursion (λ place.
        slice_index (widths values.old) place ≡ 1) places.now }
    requires each { length levels.now ≡ length places.now }
    ensures widths { widths values.new ≡ widths values.old }
    ensures words { words values.new
        ≡ set_places places.now (map level_word levels.now) (words values.old) }
{
    for (k, place) in places.iter().enumerate() {
        values[*place] = Bits::flag(levels[k]);
    }
}
