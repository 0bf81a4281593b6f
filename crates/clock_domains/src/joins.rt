//! What is refused of event controls and of the connections of clocks.

ghost use Rattle.std.specs.Prelude.{◌≡◌};
ghost use Rattle.std.specs.Option.{option_copied};
ghost use Rattle.clock_domains.specs.Each.{of_each};
ghost use Rattle.clock_domains.specs.Clocks as spec;
ghost use Rattle.clock_domains.specs.Clocks.{joins_refused, event_refusal, name_refusal, clock_refusal, connection_refusal};
ghost use Rattle.clock_domains.specs.code.Walking.{Finds, events_refused, connections_refused};

use crate::clocks::is_clock;
use crate::each::{child_ports, faces_behind};
use crate::fault::{ClockFault, refuse};
use net_ir::{Driver, Input, Role, Term, Trigger, Var};
use std::alloc::Global;
use sv_base::{Face, Kind, Place, Port};

/// Refuses the first bad event control or clock connection, in item order.
pub fn check_joins(
    alloc: Global,
    vars: &[Var],
    drivers: &[Driver],
    children: &[Face],
) -> Result<(), ClockFault>
    ensures { Finds (of_each (joins_refused vars.now) drivers.now children.now) result }
{
    let mut rest = drivers;
    let mut faces = children;
    while let [driver, behind @ ..] = rest {
        check_driver(alloc, vars, child_ports(driver, faces), driver)?;
        faces = faces_behind(driver, faces);
        rest = behind;
    }
    Ok(())
}

/// Refuses the first bad event control or clock connection of a driver.
fn check_driver(
    alloc: Global,
    vars: &[Var],
    ports: &[Port],
    driver: &Driver,
) -> Result<(), ClockFault>
    ensures { Finds (joins_refused vars.now ports.now driver.now) result }
{
    match driver {
        Driver::Assign { .. } | Driver::Comb { .. } => Ok(()),
        Driver::Clocked { triggers, .. } => check_events(alloc, vars, triggers.as_slice()),
        Driver::Instance(made) => check_connections(alloc, vars, ports, made.inputs.as_slice()),
    }
}

/// Refuses the first of these event controls that names no input port of one bit.
fn check_events(alloc: Global, vars: &[Var], triggers: &[Trigger]) -> Result<(), ClockFault>
    ensures { Finds (events_refused vars.now triggers.now) result }
{
    let mut rest = triggers;
    while let [trigger, behind @ ..] = rest {
        check_event(alloc, vars, trigger)?;
        rest = behind;
    }
    Ok(())
}

/// Refuses an event control that names no input port of one bit.
fn check_event(alloc: Global, vars: &[Var], trigger: &Trigger) -> Result<(), ClockFault>
    ensures { Finds (event_refusal vars.now trigger.now) result }
{
    if may_be_clock(variable(vars, trigger.var)) {
        Ok(())
    } else {
        Err(refuse(
            alloc,
            Kind::ClockNotPort,
            trigger.place,
            trigger.name.bytes(),
        ))
    }
}

/// Refuses the first of these connections that is a bad one of a clock.
fn check_connections(
    alloc: Global,
    vars: &[Var],
    ports: &[Port],
    inputs: &[Input],
) -> Result<(), ClockFault>
    ensures { Finds (connections_refused vars.now ports.now inputs.now) result }
{
    let mut rest = inputs;
    while let [input, behind @ ..] = rest {
        check_connection(alloc, vars, ports, input)?;
        rest = behind;
    }
    Ok(())
}

/// Refuses a connection that is a bad one of a clock.
fn check_connection(
    alloc: Global,
    vars: &[Var],
    ports: &[Port],
    input: &Input,
) -> Result<(), ClockFault>
    ensures { Finds (connection_refusal vars.now ports.now input.now) result }
{
    match ports.get(input.port as usize) {
        Some(port) => {
            if is_clock(port.class) {
                check_clock(alloc, vars, port.name.bytes(), input)
            } else {
                Ok(())
            }
        }
        None => Ok(()),
    }
}

/// Refuses the connection of a clock, whose name this is, that is no plain name of an input port of one bit.
fn check_clock(alloc: Global, vars: &[Var], port: &[u8], input: &Input) -> Result<(), ClockFault>
    ensures { Finds (clock_refusal vars.now port.now input.now input.now.plain) result }
{
    match input.plain {
        None => Err(refuse(alloc, Kind::ClockNotPlain, input.place, port)),
        Some(var) => check_name(alloc, vars.get(var as usize), name_place(input)),
    }
}

/// Refuses the name of a variable that is no input port of one bit.
fn check_name(alloc: Global, var: Option<&Var>, place: Place) -> Result<(), ClockFault>
    ensures { Finds (name_refusal place (option_copied var.entry)) result }
{
    if may_be_clock(var) {
        Ok(())
    } else {
        Err(refuse(alloc, Kind::ClockNotPort, place, name_of(var)))
    }
}

/// The variable that a name means, where it means one.
fn variable<'a>(vars: &'a [Var], var: Option<u32>) -> Option<&'a Var>
    ensures { option_copied result ≡ spec.variable vars.now var }
{
    match var {
        Some(var) => vars.get(var as usize),
        None => None,
    }
}

/// Whether what a name means is an input port of one bit.
fn may_be_clock(var: Option<&Var>) -> bool
    ensures { result ≡ spec.may_be_clock (option_copied var.entry) }
{
    match var {
        Some(var) => is_input(var.role) && var.width == 1,
        None => false,
    }
}

fn is_input(role: Role) -> bool
    ensures { result ≡ spec.is_input role }
{
    match role {
        Role::Input => true,
        Role::Output | Role::Inner => false,
    }
}

/// The name of a variable.
fn name_of<'a>(var: Option<&'a Var>) -> &'a [u8]
    ensures { result.now ≡ spec.name_of (option_copied var.entry) }
{
    match var {
        Some(var) => var.name.bytes(),
        None => &[],
    }
}

/// The place of the name in a connection that is a plain name.
fn name_place(input: &Input) -> Place
    ensures { result ≡ spec.name_place input.now }
{
    match &input.value {
        Term::Read { place, .. } => *place,
        Term::Const(_) | Term::Pick { .. } | Term::Apply { .. } => input.place,
    }
}
