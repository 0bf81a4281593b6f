//! Lists of the names that drivers read, in the order of the text.

ghost use Rattle.std.specs.Prelude.{◌≡◌, ◌++◌, slice_get, OnOk, IfOk};
ghost use Rattle.std.specs.Option.{is_some};
ghost use Rattle.net_ir.specs.Value.{reads_of};
ghost use Rattle.net_ir.specs.Statement.{statement_reads, reads_of_arm};
ghost use Rattle.net_ir.specs.Target.{position_reads, target_reads};
ghost use Rattle.net_ir.specs.Drive.{joined_reads};
ghost use Rattle.net_ir.specs.code.Classing.{labels_read, outputs_read};
ghost use Rattle.clock_domains.specs.Reads.{reads_at, is_reading, connection_reads, reads_in};
ghost use Rattle.clock_domains.specs.code.Walking.{inputs_read};

use net_ir::{Arm, Driver, Input, Output, Pos, Stmt, Target, Term};
use std::alloc::{AllocError, Global};
use sv_base::{Class, Port};

/// The names that a driver's expressions and connections read, where these are the ports of its child.
pub fn reads_in(alloc: Global, driver: &Driver, ports: &[Port]) -> Result<Vec<u32>, AllocError>
    ensures { IfOk result (λ reads. reads.items ≡ reads_in ports.now driver.now) }
{
    let mut reads = Vec::new(alloc);
    match driver {
        Driver::Assign { target, value, .. } => {
            list_target(target, &mut reads)?;
            list_term(value, &mut reads)?;
        }
        Driver::Comb { body, .. } | Driver::Clocked { body, .. } => list_statement(
            body, &mut reads,
        )?,
        Driver::Instance(made) => {
            list_inputs(made.inputs.as_slice(), ports, &mut reads)?;
            list_outputs(made.outputs.as_slice(), &mut reads)?;
        }
    }
    Ok(reads)
}

/// Lists what connections to inputs read, where these are the ports of the child.
fn list_inputs(inputs: &[Input], ports: &[Port], reads: &mut Vec<u32>) -> Result<(), AllocError>
    ensures { OnOk result (reads.new.items ≡ reads.old.items ++ inputs_read ports.now inputs.now) }
{
    let mut rest = inputs;
    while let [input, behind @ ..] = rest {
        list_input(input, ports, reads)?;
        rest = behind;
    }
    Ok(())
}

/// Lists what a connection to an input reads.
fn list_input(input: &Input, ports: &[Port], reads: &mut Vec<u32>) -> Result<(), AllocError>
    ensures { OnOk result (reads.new.items ≡ reads.old.items ++ connection_reads ports.now input.now) }
{
    if is_reading(ports, input.port as usize, input.plain.is_some()) {
        list_term(&input.value, reads)
    } else {
        Ok(())
    }
}

/// Whether a connection to the port at a place reads.
fn is_reading(ports: &[Port], at: usize, plain: bool) -> bool
    ensures { result ≡ is_reading (slice_get ports.now at) plain }
{
    match ports.get(at) {
        Some(port) => reads_at(port.class, plain),
        None => true,
    }
}

/// Whether a connection to a port of this class reads.
fn reads_at(class: Class, plain: bool) -> bool
    ensures { result ≡ reads_at class plain }
{
    match class {
        Class::Clock => false,
        Class::Idle => !plain,
        Class::Value | Class::Output => true,
    }
}

/// Lists what the positions of connections to outputs read.
fn list_outputs(outputs: &[Output], reads: &mut Vec<u32>) -> Result<(), AllocError>
    ensures { OnOk result (reads.new.items ≡ reads.old.items ++ outputs_read outputs.now) }
{
    let mut rest = outputs;
    while let [output, behind @ ..] = rest {
        list_joined(&output.target, reads)?;
        rest = behind;
    }
    Ok(())
}

/// Lists what the positions of a connection to an output read, where it is joined to a target.
fn list_joined(target: &Option<Target>, reads: &mut Vec<u32>) -> Result<(), AllocError>
    ensures { OnOk result (reads.new.items ≡ reads.old.items ++ joined_reads target.now) }
{
    match target {
        Some(target) => list_target(target, reads),
        None => Ok(()),
    }
}

/// Lists what the positions in a target read.
fn list_target(target: &Target, reads: &mut Vec<u32>) -> Result<(), AllocError>
    ensures { OnOk result (reads.new.items ≡ reads.old.items ++ target_reads target.now) }
{
    match target {
        Target::Of { pos, .. } => list_position(pos, reads),
        Target::List(parts) => {
            for part in parts.as_slice() {
                list_target(part, reads)?;
            }
            Ok(())
        }
    }
}

/// Lists what a position reads, where there is one.
fn list_position(pos: &Option<Pos>, reads: &mut Vec<u32>) -> Result<(), AllocError>
    ensures { OnOk result (reads.new.items ≡ reads.old.items ++ position_reads pos.now) }
{
    match pos {
        Some(pos) => list_term(&pos.at, reads),
        None => Ok(()),
    }
}

/// Lists what a statement's expressions read.
#[cycle(listing)]
fn list_statement(statement: &Stmt, reads: &mut Vec<u32>) -> Result<(), AllocError>
    ensures { OnOk result (reads.new.items ≡ reads.old.items ++ statement_reads statement.now) }
{
    match statement {
        Stmt::Block(parts) => {
            for part in parts.as_slice() {
                list_statement(part, reads)?;
            }
            Ok(())
        }
        Stmt::If(test, first, second) => {
            list_term(test, reads)?;
            list_statement(first.get(), reads)?;
            match second {
                Some(second) => list_statement(second.get(), reads),
                None => Ok(()),
            }
        }
        Stmt::Case(value, arms) => {
            list_term(value, reads)?;
            for arm in arms.as_slice() {
                list_arm(arm, reads)?;
            }
            Ok(())
        }
        Stmt::Assign { target, value, .. } => {
            list_target(target, reads)?;
            list_term(value, reads)
        }
    }
}

/// Lists what the labels and the body of an arm read.
#[cycle(listing)]
fn list_arm(arm: &Arm, reads: &mut Vec<u32>) -> Result<(), AllocError>
    ensures { OnOk result (reads.new.items ≡ reads.old.items ++ reads_of_arm arm.now) }
{
    list_labels(arm.labels.as_slice(), reads)?;
    list_statement(&arm.body, reads)
}

/// Lists what the labels of an arm read.
fn list_labels(labels: &[Term], reads: &mut Vec<u32>) -> Result<(), AllocError>
    ensures { OnOk result (reads.new.items ≡ reads.old.items ++ labels_read labels.now) }
{
    let mut rest = labels;
    while let [label, behind @ ..] = rest {
        list_term(label, reads)?;
        rest = behind;
    }
    Ok(())
}

/// Lists what a term reads.
fn list_term(term: &Term, reads: &mut Vec<u32>) -> Result<(), AllocError>
    ensures { OnOk result (reads.new.items ≡ reads.old.items ++ reads_of term.now) }
{
    match term {
        Term::Const(_) => Ok(()),
        Term::Read { var, .. } => {
            reads.push(*var)?;
            Ok(())
        }
        Term::Pick { base, at, .. } => {
            list_term(base.get(), reads)?;
            list_term(at.get(), reads)
        }
        Term::Apply { args, .. } => {
            for arg in args.as_slice() {
                list_term(arg, reads)?;
            }
            Ok(())
        }
    }
}
