//! Marks of the variables that are clocks.

ghost use Rattle.std.specs.Prelude.{◌≡◌, length, slice_get, IfOk};
ghost use Rattle.std.specs.List.{flat_map};
ghost use Rattle.sv_base.specs.Classes.{is_clock};
ghost use Rattle.net_ir.specs.Target.{var_list};
ghost use Rattle.net_ir.specs.Marks.{mark_all, AreMarksOf};
ghost use Rattle.net_ir.specs.code.Classing.{clocked_by};
ghost use Rattle.clock_domains.specs.Clocks.{is_clock_port, joined_clock, clocks_at};
ghost use Rattle.clock_domains.specs.Each.{of_each};
ghost use Rattle.clock_domains.specs.Order.{clocks_of};
ghost use Rattle.clock_domains.specs.code.Walking.{clocks_joined};

use crate::each::{child_ports, faces_behind};
use net_ir::marks::mark_named;
use net_ir::{Driver, Input, Spec, Trigger};
use std::alloc::{AllocError, Global};
use sv_base::{Class, Face, Port};

/// A mark for each variable that is a clock.
pub fn clock_marks(alloc: Global, spec: &Spec, children: &[Face]) -> Result<Vec<bool>, AllocError>
    ensures { IfOk result (λ marks. AreMarksOf (length spec.now.vars) (clocks_of spec.now children.now) marks.items) }
{
    let mut marks = vec![in alloc; false; spec.vars.len()]?;
    mark_clocks(spec.drivers.as_slice(), children, &mut marks);
    Ok(marks)
}

/// Marks the clocks of drivers, where these are the faces of their children.
fn mark_clocks(drivers: &[Driver], children: &[Face], marks: &mut Vec<bool>)
    ensures { marks.new.items ≡ mark_all (of_each clocks_at drivers.now children.now) marks.old.items }
{
    let mut faces = children;
    for driver in drivers {
        mark_driver(driver, child_ports(driver, faces), marks);
        faces = faces_behind(driver, faces);
    }
}

/// Marks what stands in a driver's event controls or is joined to clocks of its child.
fn mark_driver(driver: &Driver, ports: &[Port], marks: &mut Vec<bool>)
    ensures { marks.new.items ≡ mark_all (clocks_at ports.now driver.now) marks.old.items }
{
    match driver {
        Driver::Assign { .. } | Driver::Comb { .. } => {}
        Driver::Clocked { triggers, .. } => mark_triggers(triggers.as_slice(), marks),
        Driver::Instance(made) => mark_joined(made.inputs.as_slice(), ports, marks),
    }
}

/// Marks what event controls name.
fn mark_triggers(triggers: &[Trigger], marks: &mut Vec<bool>)
    ensures { marks.new.items ≡ mark_all (clocked_by triggers.now) marks.old.items }
{
    let mut rest = triggers;
    while let [trigger, behind @ ..] = rest {
        mark_named(trigger.var, marks);
        rest = behind;
    }
}

/// Marks what connections join to clocks among these ports.
fn mark_joined(inputs: &[Input], ports: &[Port], marks: &mut Vec<bool>)
    ensures { marks.new.items ≡ mark_all (clocks_joined ports.now inputs.now) marks.old.items }
{
    let mut rest = inputs;
    while let [input, behind @ ..] = rest {
        mark_connection(input, ports, marks);
        rest = behind;
    }
}

/// Marks what a connection joins to a clock among these ports.
fn mark_connection(input: &Input, ports: &[Port], marks: &mut Vec<bool>)
    ensures { marks.new.items ≡ mark_all (joined_clock ports.now input.now) marks.old.items }
{
    if is_clock_at(ports, input.port as usize) {
        mark_named(input.plain, marks);
    }
}

/// Whether a clock stands at a place among these ports.
fn is_clock_at(ports: &[Port], at: usize) -> bool
    ensures { result ≡ is_clock_port (slice_get ports.now at) }
{
    match ports.get(at) {
        Some(port) => is_clock(port.class),
        None => false,
    }
}

pub fn is_clock(class: Class) -> bool
    ensures { result ≡ is_clock class }
{
    match class {
        Class::Clock => true,
        Class::Value | Class::Idle | Class::Output => false,
    }
}
