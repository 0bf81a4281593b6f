//! What drives by itself, and the bits that it may write: items, and the joined outputs of instances in port order.

ghost use Rattle.std.specs.Prelude.{◌≡◌, ◌++◌, [], ◌∷◌, map, IfOk, OnOk};
ghost use Rattle.std.specs.List.{AllByRecursion, flat_map};
ghost use Rattle.net_ir.specs.Value.{widths_of};
ghost use Rattle.net_ir.specs.Lawful.{IsLawfulVar, IsLawfulTarget, IsLawfulStmt, IsLawfulJoined, IsLawfulDriver, IsLawfulSpec};
ghost use Rattle.net_ir.specs.Drive.{joined_target};
ghost use Rattle.driver_check.specs.Driven.{port_bound, in_port_order, sources_in, sources_of};
ghost use Rattle.driver_check.specs.code.Runs.{taken_by, taken_in, taken_by_all};
ghost use Rattle.driver_check.specs.Taking.{source_from, taken_source, taken_at_port, taken_below, AreLawfulOutputs};

use crate::runs::{Taken, push_statement, push_target};
use net_ir::{Driver, Output, Spec, Stmt, Target, Var};
use std::alloc::{AllocError, Global};
use sv_base::{Place, Sequence};

/// What drives by itself: its place, and the bits that its targets may take, in the order of the text.
#[derive(Drop)]
pub struct Source {
    pub place: Place,
    pub taken: Sequence<Taken>,
}

/// All that drives by itself, in item order, each joined output of an instance by itself in the order of the child's ports: the number of
/// a driver is its place here. A driver that takes no bit in range drives nothing.
pub fn written_bits(alloc: Global, spec: &Spec) -> Result<Sequence<Source>, AllocError>
    requires { IsLawfulSpec spec.now }
    ensures { IfOk result (λ sources. sources ≡ map (taken_source spec.now.vars) (sources_of spec.now)) }
{
    let mut sources = Vec::new(alloc);
    for driver in spec.drivers.as_slice() {
        push_driver(alloc, spec.vars.as_slice(), driver, &mut sources)?;
    }
    Ok(Sequence::from_vec(sources))
}

/// Adds what drives by itself in an item.
fn push_driver(
    alloc: Global,
    vars: &[Var],
    driver: &Driver,
    sources: &mut Vec<Source>,
) -> Result<(), AllocError>
    requires vars { AllByRecursion IsLawfulVar vars.now }
    requires driver { IsLawfulDriver vars.now driver.now }
    ensures { OnOk result (sources.new.items ≡ sources.old.items ++ map (taken_source vars.now) (sources_in driver.now)) }
{
    match driver {
        Driver::Assign { target, place, .. } => {
            let source = target_source(alloc, vars, target, *place)?;
            sources.push(source)?;
            Ok(())
        }
        Driver::Comb { body, place } => {
            let source = process_source(alloc, vars, body, *place)?;
            sources.push(source)?;
            Ok(())
        }
        Driver::Clocked { body, place, .. } => {
            let source = process_source(alloc, vars, body, *place)?;
            sources.push(source)?;
            Ok(())
        }
        Driver::Instance(instance) => {
            push_outputs(alloc, vars, instance.outputs.as_slice(), sources)
        }
    }
}

/// What a target takes, as a driver.
fn target_source(
    alloc: Global,
    vars: &[Var],
    target: &Target,
    place: Place,
) -> Result<Source, AllocError>
    requires vars { AllByRecursion IsLawfulVar vars.now }
    requires target { IsLawfulTarget (widths_of vars.now) target.now }
    ensures { IfOk result (λ source. source ≡ source_from place (taken_by vars.now target.now)) }
{
    let mut taken = Vec::new(alloc);
    push_target(vars, target, &mut taken)?;
    Ok(Source {
        place,
        taken: Sequence::from_vec(taken),
    })
}

/// What the targets of a process take, as a driver.
fn process_source(
    alloc: Global,
    vars: &[Var],
    body: &Stmt,
    place: Place,
) -> Result<Source, AllocError>
    requires vars { AllByRecursion IsLawfulVar vars.now }
    requires body { IsLawfulStmt vars.now body.now }
    ensures { IfOk result (λ source. source ≡ source_from place (taken_in vars.now body.now)) }
{
    let mut taken = Vec::new(alloc);
    push_statement(vars, body, &mut taken)?;
    Ok(Source {
        place,
        taken: Sequence::from_vec(taken),
    })
}

/// What a joined output takes, as a driver.
fn joined_source(
    alloc: Global,
    vars: &[Var],
    target: &Option<Target>,
    place: Place,
) -> Result<Source, AllocError>
    requires vars { AllByRecursion IsLawfulVar vars.now }
    requires target { IsLawfulJoined (widths_of vars.now) target.now }
    ensures { IfOk result (λ source. source ≡ source_from place (taken_by_all vars.now (joined_target target.now))) }
{
    match target {
        Some(target) => target_source(alloc, vars, target, place),
        None => Ok(Source {
            place,
            taken: Sequence::new(alloc),
        }),
    }
}

/// One more than the greatest port of some outputs, 0 where there is none.
fn port_bound(outputs: &[Output]) -> u64
    ensures { result ≡ port_bound outputs.now }
{
    let mut bound = 0;
    for output in outputs {
        bound = (u64::from(output.port) + 1).max(bound);
    }
    bound
}

/// Adds outputs in the order of the child's ports.
fn push_outputs(
    alloc: Global,
    vars: &[Var],
    outputs: &[Output],
    sources: &mut Vec<Source>,
) -> Result<(), AllocError>
    requires vars { AllByRecursion IsLawfulVar vars.now }
    requires outputs { AreLawfulOutputs (widths_of vars.now) outputs.now }
    ensures { OnOk result (sources.new.items ≡ sources.old.items ++ taken_below vars.now outputs.now (port_bound outputs.now)) }
{
    for port in 0..port_bound(outputs) {
        push_port(alloc, vars, outputs, port, sources)?;
    }
    Ok(())
}

/// Adds the outputs of this port.
fn push_port(
    alloc: Global,
    vars: &[Var],
    outputs: &[Output],
    port: u64,
    sources: &mut Vec<Source>,
) -> Result<(), AllocError>
    requires vars { AllByRecursion IsLawfulVar vars.now }
    requires outputs { AreLawfulOutputs (widths_of vars.now) outputs.now }
    ensures { OnOk result (sources.new.items ≡ sources.old.items ++ flat_map (taken_at_port vars.now port) outputs.now) }
{
    for output in outputs {
        push_output(alloc, vars, output, port, sources)?;
    }
    Ok(())
}

/// Adds an output, where it is of this port.
fn push_output(
    alloc: Global,
    vars: &[Var],
    output: &Output,
    port: u64,
    sources: &mut Vec<Source>,
) -> Result<(), AllocError>
    requires vars { AllByRecursion IsLawfulVar vars.now }
    requires output { IsLawfulJoined (widths_of vars.now) output.now.target }
    ensures { OnOk result (sources.new.items ≡ sources.old.items ++ taken_at_port vars.now port output.now) }
{
    if u64::from(output.port) == port {
        let source = joined_source(alloc, vars, &output.target, output.place)?;
        sources.push(source)?;
    }
    Ok(())
}
