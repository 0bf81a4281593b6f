//! The classes of a module's ports, or the first of what is refused of its clocks.

ghost use Rattle.std.specs.Prelude.{IfOk, IfErr};
ghost use Rattle.sv_base.specs.Faults.{IfRefused};
ghost use Rattle.clock_domains.specs.Order.{IsRefused};
ghost use Rattle.clock_domains.specs.Classes.{IsClassified};

use crate::classes::ports;
use crate::clocks::clock_marks;
use crate::fault::ClockFault;
use crate::joins::check_joins;
use crate::reads::read_marks;
use net_ir::Spec;
use std::alloc::Global;
use sv_base::{Face, Name, Sequence};

/// The face of a module: its ports, each with its class. There is a face in `children` for each instance, in
/// item order. The work is linear in the module.
pub fn classify(alloc: Global, s: &Spec, children: &Vec<Face>) -> Result<Face, ClockFault>
    ensures classified { IfOk result (IsClassified s.now children.now.items) }
    ensures refused { IfErr result (IfRefused (IsRefused s.now children.now.items)) }
{
    let vars = s.vars.as_slice();
    let drivers = s.drivers.as_slice();
    let faces = children.as_slice();
    let clocks = clock_marks(alloc, s, faces)?;
    let marked = clocks.as_slice();
    check_joins(alloc, vars, drivers, faces)?;
    let read = read_marks(alloc, vars, marked, drivers, faces)?;
    let ports = ports(alloc, vars, marked, read.as_slice())?;
    let name = Name::of(alloc, s.module.bytes())?;
    Ok(Face {
        name,
        ports: Sequence::from_vec(ports),
    })
}
