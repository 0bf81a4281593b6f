//! Whether a design's drivers can be taken in the order of the text.

ghost use Rattle.std.specs.Prelude.{◌≡◌, ◌↔◌, [], true, IsTrue, IfOk, OnOk};
ghost use Rattle.std.specs.List.{AllByRecursion};
ghost use Rattle.net_ir.specs.Value.{reads_of};
ghost use Rattle.net_ir.specs.Target.{target_vars};
ghost use Rattle.net_ir.specs.Lawful.{IsLawfulDriver, IsLawfulSpec};
ghost use Rattle.net_ir.specs.Marks.{mark_all};
ghost use Rattle.driver_check.specs.Written.{wrong_assigns};
ghost use Rattle.plain_run.specs.Plain.{IsTimely, SparesInputs, AreOrdered, HasPlainClocks, IsPlain};
ghost use Rattle.plain_run.specs.code.Marks.{named_in, is_input, is_clock, are_clocks, has_clocks};
ghost use Rattle.plain_run.specs.code.Timely.{has_fixed_position, has_fixed_positions, is_timely};
ghost use Rattle.plain_run.specs.code.Turns.{is_free, are_free, are_clear, names_of, given_by, is_settled, takes_turn};

use crate::marks::{mark_each, push_target, push_targets};
use driver_check::{DriverFault, written_rightly};
use net_ir::marks::{is_clear, read_marks};
use net_ir::{Driver, Pos, Role, Spec, Stmt, Target, Term, Trigger, Var};
use net_values::is_constant;
use std::alloc::{AllocError, Global};

/// Whether a lawful design is plain: each driver is a continuous assignment to constant positions or a clocked process, what processes assign
/// is assigned rightly (IEEE 1800-2017, 6.5 and 10.4), no variable has two drivers, no driver writes an input, no assignment reads what it or
/// a later one gives at all times, and each event control names an input of one bit that no expression reads. The work is linear in the
/// design.
pub fn is_plain(alloc: Global, spec: &Spec) -> Result<bool, AllocError>
    requires lawful { IsLawfulSpec spec.now }
    ensures { IfOk result (λ yes. IsTrue yes ↔ IsPlain spec.now) }
{
    if !are_timely(spec.drivers.as_slice()) {
        return Ok(false);
    }
    if !is_written_rightly(alloc, spec)? {
        return Ok(false);
    }
    if !can_be_taken_in_order(alloc, spec)? {
        return Ok(false);
    }
    have_clocks(alloc, spec)
}

/// Whether each driver is a continuous assignment to constant positions, or a clocked process.
fn are_timely(drivers: &[Driver]) -> bool
    ensures { IsTrue result ↔ AllByRecursion IsTimely drivers.now }
{
    for driver in drivers {
        if !is_timely(driver) {
            return false;
        }
    }
    true
}

/// Whether a driver is one of these.
fn is_timely(driver: &Driver) -> bool
    ensures { result ≡ is_timely driver.now }
{
    match driver {
        Driver::Assign { target, .. } => has_fixed_positions(target),
        Driver::Clocked { .. } => true,
        Driver::Comb { .. } | Driver::Instance(_) => false,
    }
}

/// Whether each position in a target is a constant.
fn has_fixed_positions(target: &Target) -> bool
    ensures { result ≡ has_fixed_positions target.now }
{
    match target {
        Target::Of { pos, .. } => has_fixed_position(pos),
        Target::List(parts) => {
            for part in parts.as_slice() {
                if !has_fixed_positions(part) {
                    return false;
                }
            }
            true
        }
    }
}

/// Whether a position, where there is one, is a constant.
fn has_fixed_position(pos: &Option<Pos>) -> bool
    ensures { result ≡ has_fixed_position pos.now }
{
    match pos {
        Some(pos) => is_constant(&pos.at),
        None => true,
    }
}

/// Whether no assignment is wrong.
fn is_written_rightly(alloc: Global, spec: &Spec) -> Result<bool, AllocError>
    ensures { IfOk result (λ yes. IsTrue yes ↔ (wrong_assigns spec.now ≡ [])) }
{
    match written_rightly(alloc, spec) {
        Ok(()) => Ok(true),
        Err(DriverFault::Refused(_)) => Ok(false),
        Err(DriverFault::NoMemory) => Err(AllocError),
    }
}

/// Whether no variable has two drivers, no driver writes an input, and no assignment reads what it or a later one gives at all times.
fn can_be_taken_in_order(alloc: Global, spec: &Spec) -> Result<bool, AllocError>
    requires lawful { AllByRecursion (IsLawfulDriver spec.now.vars) spec.now.drivers }
    requires timely { AllByRecursion IsTimely spec.now.drivers }
    ensures { IfOk result (λ yes. IsTrue yes ↔ (AllByRecursion (SparesInputs spec.now.vars) spec.now.drivers × AreOrdered spec.now.drivers)) }
{
    let vars = spec.vars.as_slice();
    let drivers = spec.drivers.as_slice();
    let mut written = vec![in alloc; false; vars.len()]?;
    let mut driven = vec![in alloc; false; vars.len()]?;
    for turn in (0..drivers.len()).rev() {
        if !take_turn(alloc, &drivers[turn], vars, &mut written, &mut driven)? {
            return Ok(false);
        }
    }
    Ok(true)
}

/// Marks what a driver writes as written, and what a continuous assignment gives as driven. Tells whether its
/// variables were no inputs and not written before, and whether a continuous assignment reads nothing that is
/// driven now.
fn take_turn(
    alloc: Global,
    driver: &Driver,
    vars: &[Var],
    written: &mut Vec<bool>,
    driven: &mut Vec<bool>,
) -> Result<bool, AllocError>
    ensures written { OnOk result (written.new.items ≡ mark_all (names_of driver.now) written.old.items) }
    ensures driven { OnOk result (driven.new.items ≡ mark_all (given_by driver.now (names_of driver.now)) driven.old.items) }
    ensures free { IfOk result (λ free. free ≡ takes_turn vars.now driver.now written.old.items driven.old.items) }
{
    let names = names_of(alloc, driver)?;
    let free = are_free(&names, vars, written);
    mark_each(&names, written);
    mark_given(driver, &names, driven);
    Ok(free && is_settled(driver, driven))
}

/// The variables that the targets of a driver name; of an instance none.
fn names_of(alloc: Global, driver: &Driver) -> Result<Vec<u32>, AllocError>
    ensures { IfOk result (λ names. names.items ≡ names_of driver.now) }
{
    match driver {
        Driver::Assign { target, .. } => target_names(alloc, target),
        Driver::Comb { body, .. } | Driver::Clocked { body, .. } => body_names(alloc, body),
        Driver::Instance(_) => Ok(Vec::new(alloc)),
    }
}

/// The variables that a target names.
fn target_names(alloc: Global, target: &Target) -> Result<Vec<u32>, AllocError>
    ensures { IfOk result (λ names. names.items ≡ target_vars target.now) }
{
    let mut names = Vec::new(alloc);
    push_target(target, &mut names)?;
    Ok(names)
}

/// The variables that the targets of a statement name.
fn body_names(alloc: Global, body: &Stmt) -> Result<Vec<u32>, AllocError>
    ensures { IfOk result (λ names. names.items ≡ named_in body.now) }
{
    let mut names = Vec::new(alloc);
    push_targets(body, &mut names)?;
    Ok(names)
}

/// Marks the variables, where the driver is a continuous assignment.
fn mark_given(driver: &Driver, names: &[u32], driven: &mut Vec<bool>)
    ensures { driven.new.items ≡ mark_all (given_by driver.now names.now) driven.old.items }
{
    match driver {
        Driver::Assign { .. } => mark_each(names, driven),
        Driver::Comb { .. } | Driver::Clocked { .. } | Driver::Instance(_) => {}
    }
}

/// Whether a driver is no continuous assignment that reads a variable that is marked.
fn is_settled(driver: &Driver, driven: &[bool]) -> bool
    ensures { result ≡ is_settled driver.now driven.now }
{
    match driver {
        Driver::Assign { value, .. } => is_unread(value, driven),
        Driver::Comb { .. } | Driver::Clocked { .. } | Driver::Instance(_) => true,
    }
}

/// Whether a variable is set from outside.
fn is_input(var: &Var) -> bool
    ensures { result ≡ is_input var.now.role }
{
    match var.role {
        Role::Input => true,
        Role::Output | Role::Inner => false,
    }
}

/// Whether a variable is no input and has no mark.
fn is_free(vars: &[Var], written: &[bool], var: usize) -> bool
    ensures { result ≡ is_free vars.now written.now var }
{
    let fed = match vars.get(var) {
        Some(var) => is_input(var),
        None => false,
    };
    is_clear(written, var) && !fed
}

/// Whether each of these variables is such a one.
fn are_free(names: &[u32], vars: &[Var], written: &[bool]) -> bool
    ensures { result ≡ are_free vars.now written.now names.now }
{
    for var in names {
        if !is_free(vars, written, *var as usize) {
            return false;
        }
    }
    true
}

/// Whether a term reads no variable that is marked.
fn is_unread(term: &Term, marks: &[bool]) -> bool
    ensures { result ≡ are_clear marks.now (reads_of term.now) }
{
    match term {
        Term::Const(_) => true,
        Term::Read { var, .. } => is_clear(marks, *var as usize),
        Term::Pick { base, at, .. } => is_unread(base.get(), marks) && is_unread(at.get(), marks),
        Term::Apply { args, .. } => {
            for arg in args.as_slice() {
                if !is_unread(arg, marks) {
                    return false;
                }
            }
            true
        }
    }
}

/// Whether each event control names an input of one bit that no expression reads.
fn have_clocks(alloc: Global, spec: &Spec) -> Result<bool, AllocError>
    ensures { IfOk result (λ yes. IsTrue yes ↔ AllByRecursion (HasPlainClocks spec.now) spec.now.drivers) }
{
    let read = read_marks(alloc, spec)?;
    let vars = spec.vars.as_slice();
    for driver in spec.drivers.as_slice() {
        if !has_clocks(driver, vars, &read) {
            return Ok(false);
        }
    }
    Ok(true)
}

/// Whether each event control of a driver names an input of one bit without a mark.
fn has_clocks(driver: &Driver, vars: &[Var], read: &[bool]) -> bool
    ensures { result ≡ has_clocks vars.now read.now driver.now }
{
    match driver {
        Driver::Assign { .. } | Driver::Comb { .. } | Driver::Instance(_) => true,
        Driver::Clocked { triggers, .. } => are_clocks(triggers.as_slice(), vars, read),
    }
}

/// Whether each of these event controls does.
fn are_clocks(triggers: &[Trigger], vars: &[Var], read: &[bool]) -> bool
    ensures { result ≡ are_clocks vars.now read.now triggers.now }
{
    for trigger in triggers {
        if !is_clock(trigger.var, vars, read) {
            return false;
        }
    }
    true
}

/// Whether a name means an input of one bit without a mark.
fn is_clock(var: Option<u32>, vars: &[Var], read: &[bool]) -> bool
    ensures { result ≡ is_clock vars.now read.now var }
{
    match var {
        Some(clock) => match vars.get(clock as usize) {
            Some(var) => is_input(var) && var.width == 1 && is_clear(read, clock as usize),
            None => false,
        },
        None => false,
    }
}
