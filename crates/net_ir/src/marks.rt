//! Marks of variables, one for each by its number, and the walks that set them.

ghost use Rattle.std.specs.Prelude.{◌≡◌, true, length, IfOk, slice_set};
ghost use Rattle.net_ir.specs.Value.{reads_of};
ghost use Rattle.net_ir.specs.Statement.{statement_reads, reads_of_arm};
ghost use Rattle.net_ir.specs.Target.{var_list, position_reads, target_reads};
ghost use Rattle.net_ir.specs.Drive.{driver_reads, driver_clocks, joined_reads, instance_reads};
ghost use Rattle.net_ir.specs.Face.{clocks_of, all_reads};
ghost use Rattle.net_ir.specs.Marks.{mark_all, AreMarksOf, is_clear};
ghost use Rattle.net_ir.specs.code.Classing.{clocked_by, labels_read, inputs_read, outputs_read};

use crate::design::{Driver, Input, Instance, Output, Spec, Trigger};
use crate::statement::{Arm, Pos, Stmt, Target};
use crate::term::Term;
use std::alloc::{AllocError, Global};

/// A mark for each variable that an expression reads.
pub fn read_marks(alloc: Global, spec: &Spec) -> Result<Vec<bool>, AllocError>
    ensures { IfOk result (λ marks. AreMarksOf (length spec.now.vars) (all_reads spec.now) marks.items) }
{
    let mut marks = vec![in alloc; false; spec.vars.len()]?;
    for driver in spec.drivers.as_slice() {
        mark_reads(driver, &mut marks);
    }
    Ok(marks)
}

/// A mark for each variable that stands in an event control.
pub fn clock_marks(alloc: Global, spec: &Spec) -> Result<Vec<bool>, AllocError>
    ensures { IfOk result (λ marks. AreMarksOf (length spec.now.vars) (clocks_of spec.now) marks.items) }
{
    let mut marks = vec![in alloc; false; spec.vars.len()]?;
    for driver in spec.drivers.as_slice() {
        mark_clocks(driver, &mut marks);
    }
    Ok(marks)
}

/// Whether a variable has no mark.
pub fn is_clear(marks: &[bool], var: usize) -> bool
    ensures { result ≡ is_clear marks.now var }
{
    !marks.get(var).copied().unwrap_or(false)
}

/// Marks a variable, where it is there.
fn mark(marks: &mut Vec<bool>, var: usize)
    ensures { marks.new.items ≡ slice_set marks.old.items var true }
{
    if var < marks.len() {
        marks[var] = true;
    }
}

/// Marks the variable that a name means, where it means one and there is a mark for it.
pub fn mark_named(var: Option<u32>, marks: &mut Vec<bool>)
    ensures { marks.new.items ≡ mark_all (var_list var) marks.old.items }
{
    match var {
        Some(var) => mark(marks, var as usize),
        None => {}
    }
}

/// Marks what a driver's expressions read.
fn mark_reads(driver: &Driver, marks: &mut Vec<bool>)
    ensures { marks.new.items ≡ mark_all (driver_reads driver.now) marks.old.items }
{
    match driver {
        Driver::Assign { target, value, .. } => {
            mark_target(target, marks);
            mark_term(value, marks);
        }
        Driver::Comb { body, .. } | Driver::Clocked { body, .. } => mark_statement(body, marks),
        Driver::Instance(instance) => mark_instance(instance, marks),
    }
}

/// Marks what the connections of an instance read.
fn mark_instance(instance: &Instance, marks: &mut Vec<bool>)
    ensures { marks.new.items ≡ mark_all (instance_reads instance.now) marks.old.items }
{
    mark_inputs(instance.inputs.as_slice(), marks);
    mark_outputs(instance.outputs.as_slice(), marks);
}

/// Marks what connections to inputs read.
fn mark_inputs(inputs: &[Input], marks: &mut Vec<bool>)
    ensures { marks.new.items ≡ mark_all (inputs_read inputs.now) marks.old.items }
{
    for input in inputs {
        mark_term(&input.value, marks);
    }
}

/// Marks what the positions of connections to outputs read.
fn mark_outputs(outputs: &[Output], marks: &mut Vec<bool>)
    ensures { marks.new.items ≡ mark_all (outputs_read outputs.now) marks.old.items }
{
    for output in outputs {
        mark_joined(&output.target, marks);
    }
}

/// Marks what the positions of a connection to an output read, where it is joined to a target.
fn mark_joined(target: &Option<Target>, marks: &mut Vec<bool>)
    ensures { marks.new.items ≡ mark_all (joined_reads target.now) marks.old.items }
{
    match target {
        Some(target) => mark_target(target, marks),
        None => {}
    }
}

/// Marks what the positions in a target read.
fn mark_target(target: &Target, marks: &mut Vec<bool>)
    ensures { marks.new.items ≡ mark_all (target_reads target.now) marks.old.items }
{
    match target {
        Target::Of { pos, .. } => mark_position(pos, marks),
        Target::List(parts) => {
            for part in parts.as_slice() {
                mark_target(part, marks);
            }
        }
    }
}

/// Marks what a position reads, where there is one.
fn mark_position(pos: &Option<Pos>, marks: &mut Vec<bool>)
    ensures { marks.new.items ≡ mark_all (position_reads pos.now) marks.old.items }
{
    match pos {
        Some(pos) => mark_term(&pos.at, marks),
        None => {}
    }
}

/// Marks what a statement's expressions read.
#[cycle(marking)]
fn mark_statement(statement: &Stmt, marks: &mut Vec<bool>)
    ensures { marks.new.items ≡ mark_all (statement_reads statement.now) marks.old.items }
{
    match statement {
        Stmt::Block(parts) => {
            for part in parts.as_slice() {
                mark_statement(part, marks);
            }
        }
        Stmt::If(test, first, second) => {
            mark_term(test, marks);
            mark_statement(first.get(), marks);
            match second {
                Some(second) => mark_statement(second.get(), marks),
                None => {}
            }
        }
        Stmt::Case(value, arms) => {
            mark_term(value, marks);
            for arm in arms.as_slice() {
                mark_arm(arm, marks);
            }
        }
        Stmt::Assign { target, value, .. } => {
            mark_target(target, marks);
            mark_term(value, marks);
        }
    }
}

/// Marks what the labels and the body of an arm read.
#[cycle(marking)]
fn mark_arm(arm: &Arm, marks: &mut Vec<bool>)
    ensures { marks.new.items ≡ mark_all (reads_of_arm arm.now) marks.old.items }
{
    mark_labels(arm.labels.as_slice(), marks);
    mark_statement(&arm.body, marks);
}

/// Marks what the labels of an arm read.
fn mark_labels(labels: &[Term], marks: &mut Vec<bool>)
    ensures { marks.new.items ≡ mark_all (labels_read labels.now) marks.old.items }
{
    for label in labels {
        mark_term(label, marks);
    }
}

/// Marks what a term reads.
fn mark_term(term: &Term, marks: &mut Vec<bool>)
    ensures { marks.new.items ≡ mark_all (reads_of term.now) marks.old.items }
{
    match term {
        Term::Const(_) => {}
        Term::Read { var, .. } => mark(marks, *var as usize),
        Term::Pick { base, at, .. } => {
            mark_term(base.get(), marks);
            mark_term(at.get(), marks);
        }
        Term::Apply { args, .. } => {
            for arg in args.as_slice() {
                mark_term(arg, marks);
            }
        }
    }
}

/// Marks what stands in a driver's event controls.
fn mark_clocks(driver: &Driver, marks: &mut Vec<bool>)
    ensures { marks.new.items ≡ mark_all (driver_clocks driver.now) marks.old.items }
{
    match driver {
        Driver::Assign { .. } | Driver::Comb { .. } | Driver::Instance(_) => {}
        Driver::Clocked { triggers, .. } => mark_triggers(triggers.as_slice(), marks),
    }
}

/// Marks what event controls name.
fn mark_triggers(triggers: &[Trigger], marks: &mut Vec<bool>)
    ensures { marks.new.items ≡ mark_all (clocked_by triggers.now) marks.old.items }
{
    for trigger in triggers {
        mark_named(trigger.var, marks);
    }
}
