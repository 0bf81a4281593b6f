//! What may be assigned where: names that are no targets, nets that a process writes, and signs.

ghost use Rattle.std.specs.Prelude.{◌≡◌, [], map, slice_get, IsErr, IfErr, MatchResult};
ghost use Rattle.std.specs.List.{flat_map};
ghost use Rattle.sv_base.specs.Faults.{IfRefused};
ghost use Rattle.driver_check.specs.Refused.{IsFirst};
ghost use Rattle.driver_check.specs.Written.{names_of, wrong_at, wrong_assign, is_net, is_target, may_assign, is_sign, refused_names, refused_sign, refused_assigns, refused_in_arm, refused_joined, refused_output, refused_driver, wrong_assigns};

use crate::DriverFault;
use net_ir::{Arm, Driver, Output, Spec, Stmt, Target, Var};
use std::alloc::Global;
use sv_base::{Kind, Name, Place, Refusal};

/// What an assignment stands in.
#[derive(Clone, Copy, Debug, PartialEq, Eq)]
pub enum Within {
    /// The module itself, or a connection.
    Module,
    /// A combinational process.
    Combinational,
    /// A clocked process.
    Clocked,
}

/// Refuses the first assignment that is wrong, in the order of the text: one to a name that means no net or variable, one of a process to a
/// net, `=` in a clocked process, `<=` in a combinational one, and an output joined to what is no target. That last one has the
/// connection's place and no name: the caller knows the child's ports.
pub fn written_rightly(alloc: Global, spec: &Spec) -> Result<(), DriverFault>
    ensures { MatchResult result (λ _. wrong_assigns spec.now ≡ []) (IsFirst (wrong_assigns spec.now)) }
{
    for driver in spec.drivers.as_slice() {
        judge_driver(alloc, spec.vars.as_slice(), driver)?;
    }
    Ok(())
}

/// Refuses what a driver assigns wrongly.
fn judge_driver(alloc: Global, vars: &[Var], driver: &Driver) -> Result<(), DriverFault>
    ensures { MatchResult result (λ _. refused_driver vars.now driver.now ≡ []) (IsFirst (refused_driver vars.now driver.now)) }
{
    match driver {
        Driver::Assign { target, .. } => judge_target(alloc, vars, Within::Module, target),
        Driver::Comb { body, .. } => judge_statement(alloc, vars, Within::Combinational, body),
        Driver::Clocked { body, .. } => judge_statement(alloc, vars, Within::Clocked, body),
        Driver::Instance(instance) => judge_outputs(alloc, vars, instance.outputs.as_slice()),
    }
}

/// Refuses what outputs are joined to wrongly.
fn judge_outputs(alloc: Global, vars: &[Var], outputs: &[Output]) -> Result<(), DriverFault>
    ensures { MatchResult result (λ _. flat_map (refused_output vars.now) outputs.now ≡ []) (IsFirst (flat_map (refused_output vars.now) outputs.now)) }
{
    for output in outputs {
        judge_joined(alloc, vars, output.place, &output.target)?;
    }
    Ok(())
}

/// Refuses an output that is joined to what is no target.
fn judge_joined(
    alloc: Global,
    vars: &[Var],
    place: Place,
    target: &Option<Target>,
) -> Result<(), DriverFault>
    ensures { MatchResult result (λ _. refused_joined vars.now place target.now ≡ []) (IsFirst (refused_joined vars.now place target.now)) }
{
    match target {
        Some(target) => judge_target(alloc, vars, Within::Module, target),
        None => Err(DriverFault::Refused(Refusal {
            kind: Kind::WrongAssign,
            place,
            name: Name::empty(alloc),
        })),
    }
}

/// Refuses what a process assigns wrongly.
#[cycle(judging)]
fn judge_statement(
    alloc: Global,
    vars: &[Var],
    within: Within,
    statement: &Stmt,
) -> Result<(), DriverFault>
    ensures { MatchResult result (λ _. refused_assigns vars.now within statement.now ≡ []) (IsFirst (refused_assigns vars.now within statement.now)) }
{
    match statement {
        Stmt::Block(parts) => {
            for part in parts.as_slice() {
                judge_statement(alloc, vars, within, part)?;
            }
            Ok(())
        }
        Stmt::If(_, first, second) => {
            judge_statement(alloc, vars, within, first.get())?;
            match second {
                Some(second) => judge_statement(alloc, vars, within, second.get()),
                None => Ok(()),
            }
        }
        Stmt::Case(_, arms) => {
            for arm in arms.as_slice() {
                judge_arm(alloc, vars, within, arm)?;
            }
            Ok(())
        }
        Stmt::Assign {
            blocking,
            target,
            ..
        } => {
            judge_target(alloc, vars, within, target)?;
            judge_sign(alloc, within, *blocking, target)
        }
    }
}

/// Refuses what an arm assigns wrongly.
#[cycle(judging)]
fn judge_arm(alloc: Global, vars: &[Var], within: Within, arm: &Arm) -> Result<(), DriverFault>
    ensures { MatchResult result (λ _. refused_in_arm vars.now within arm.now ≡ []) (IsFirst (refused_in_arm vars.now within arm.now)) }
{
    judge_statement(alloc, vars, within, &arm.body)
}

/// Refuses the first name of a target that is not to be assigned to.
fn judge_target(
    alloc: Global,
    vars: &[Var],
    within: Within,
    target: &Target,
) -> Result<(), DriverFault>
    ensures { MatchResult result (λ _. refused_names vars.now within target.now ≡ []) (IsFirst (refused_names vars.now within target.now)) }
{
    match target {
        Target::Of {
            var,
            name,
            place,
            ..
        } => {
            if is_target(vars, within, *var) {
                Ok(())
            } else {
                refuse(alloc, name, *place)
            }
        }
        Target::List(parts) => {
            for part in parts.as_slice() {
                judge_target(alloc, vars, within, part)?;
            }
            Ok(())
        }
    }
}

/// Refuses a sign that the process does not ask for.
fn judge_sign(
    alloc: Global,
    within: Within,
    blocking: bool,
    target: &Target,
) -> Result<(), DriverFault>
    ensures { MatchResult result (λ _. refused_sign within blocking target.now ≡ []) (IsFirst (refused_sign within blocking target.now)) }
{
    if is_sign(within, blocking) {
        Ok(())
    } else {
        refuse_first(alloc, target)
    }
}

/// Refuses by the first name of a target, where it has one.
fn refuse_first(alloc: Global, target: &Target) -> Result<(), DriverFault>
    ensures { MatchResult result (λ _. names_of target.now ≡ []) (IsFirst (map wrong_assign (names_of target.now))) }
{
    match target {
        Target::Of { name, place, .. } => refuse(alloc, name, *place),
        Target::List(parts) => {
            for part in parts.as_slice() {
                refuse_first(alloc, part)?;
            }
            Ok(())
        }
    }
}

/// Whether what stands there may assign to what a name means.
fn is_target(vars: &[Var], within: Within, var: Option<u32>) -> bool
    ensures { result ≡ is_target vars.now within var }
{
    match var {
        Some(x) => may_assign(vars, within, x as usize),
        None => false,
    }
}

/// Whether what stands there may assign to the variable of this number.
fn may_assign(vars: &[Var], within: Within, x: usize) -> bool
    ensures { result ≡ may_assign vars.now within x }
{
    match within {
        Within::Module => true,
        Within::Combinational | Within::Clocked => !is_net(vars, x),
    }
}

/// Whether the variable of this number is a net.
fn is_net(vars: &[Var], x: usize) -> bool
    ensures { result ≡ is_net (slice_get vars.now x) }
{
    match vars.get(x) {
        Some(var) => var.wire,
        None => false,
    }
}

/// Whether an assignment has the sign that its process asks for.
fn is_sign(within: Within, blocking: bool) -> bool
    ensures { result ≡ is_sign within blocking }
{
    match within {
        Within::Module => true,
        Within::Combinational => blocking,
        Within::Clocked => !blocking,
    }
}

/// Refuses an assignment by this name.
fn refuse(alloc: Global, name: &Name, place: Place) -> Result<(), DriverFault>
    ensures refused { IsErr result }
    ensures name { IfErr result (IfRefused (λ refusal. refusal ≡ wrong_at place name.now)) }
{
    Err(DriverFault::Refused(Refusal {
        kind: Kind::WrongAssign,
        place,
        name: Name::of(alloc, name.bytes())?,
    }))
}
