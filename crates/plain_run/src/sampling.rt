//! Clock steps: what the registers of clocked processes take at an edge.

ghost use Rattle.std.specs.Prelude.{◌≡◌, slice_index};
ghost use Rattle.std.specs.List.{list_any};
ghost use Rattle.bit_ops.specs.Lists.{words, widths};
ghost use Rattle.net_ir.specs.Value.{widths_of};
ghost use Rattle.net_ir.specs.Target.{overlaid};
ghost use Rattle.net_ir.specs.Lawful.{IsLawfulDriver};
ghost use Rattle.net_ir.specs.Register.{registers_of, register_words};
ghost use Rattle.net_ir.specs.Run.{is_edge, occurs, sampled};
ghost use Rattle.net_ir.specs.Stepping.{Samples};
ghost use Rattle.plain_run.specs.Plain.{IsPlain};
ghost use Rattle.plain_run.specs.code.Pass.{KeepsInitial};

use bit_ops::Bits;
use net_ir::{Driver, Spec, Trigger, Var};
use net_values::execute;

/// Gives the registers whose edge occurs, where the inputs change from `before` to `after`, what they sample in the
/// solution `values` of the state before. A value for each variable stands in each list. Takes no memory.
pub fn sample(spec: &Spec, values: &[Bits], before: &[Bits], after: &[Bits], registers: &mut [Bits])
    requires plain { IsPlain spec.now }
    requires values { widths values.now ≡ widths_of spec.now.vars }
    requires before { widths before.now ≡ widths_of spec.now.vars }
    requires after { widths after.now ≡ widths_of spec.now.vars }
    requires registers { widths registers.old ≡ widths_of spec.now.vars }
    ensures widths { widths registers.new ≡ widths_of spec.now.vars }
    ensures samples { Samples spec.now (words values.now) (words before.now) (words after.now)
        (register_words (registers_of spec.now) (words registers.old)) (register_words (registers_of spec.now) (words registers.new)) }
    ensures initial { KeepsInitial spec.now (words registers.old) → KeepsInitial spec.now (words registers.new) }
{
    for driver in spec.drivers.as_slice() {
        sample_driver(
            driver,
            spec.vars.as_slice(),
            values,
            before,
            after,
            registers,
        );
    }
}

/// Gives a driver's registers what they sample, where their edge occurs.
fn sample_driver(
    driver: &Driver,
    vars: &[Var],
    values: &[Bits],
    before: &[Bits],
    after: &[Bits],
    registers: &mut [Bits],
)
    requires lawful { IsLawfulDriver vars.now driver.now }
    requires values { widths values.now ≡ widths_of vars.now }
    requires registers { widths registers.old ≡ widths_of vars.now }
    ensures widths { widths registers.new ≡ widths_of vars.now }
    ensures words { words registers.new ≡ overlaid (words registers.old)
        (sampled vars.now (words values.now) (words before.now) (words after.now) driver.now) }
{
    match driver {
        Driver::Assign { .. } | Driver::Comb { .. } | Driver::Instance(_) => {}
        Driver::Clocked { triggers, body, .. } => {
            if any_occurs(triggers.as_slice(), before, after) {
                execute(body, vars, values, registers);
            }
        }
    }
}

/// Whether the edge of some trigger occurs.
fn any_occurs(triggers: &[Trigger], before: &[Bits], after: &[Bits]) -> bool
    ensures { result ≡ list_any (occurs (words before.now) (words after.now)) triggers.now }
{
    triggers
        .iter()
        .any(|trigger| occurs(trigger, before, after))
}

/// Whether the edge of a trigger occurs.
fn occurs(trigger: &Trigger, before: &[Bits], after: &[Bits]) -> bool
    ensures { result ≡ occurs (words before.now) (words after.now) trigger.now }
{
    match trigger.var {
        None => false,
        Some(clock) => is_edge(
            trigger.falling,
            level(before, clock as usize),
            level(after, clock as usize),
        ),
    }
}

/// The word of a value that is there, else 0.
fn level(values: &[Bits], place: usize) -> u64
    ensures { result ≡ slice_index (words values.now) place }
{
    match values.get(place) {
        Some(value) => value.word,
        None => 0,
    }
}

/// Whether a change of level is an edge.
fn is_edge(falling: bool, before: u64, after: u64) -> bool
    ensures { result ≡ is_edge falling before after }
{
    if falling {
        before == 1 && after == 0
    } else {
        before == 0 && after == 1
    }
}
