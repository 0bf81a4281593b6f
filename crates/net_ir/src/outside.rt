//! What the outside sees of a design.

ghost use Rattle.std.specs.Prelude.{◌≡◌, IfOk, length};
ghost use Rattle.net_ir.specs.Face.{clocks_of, all_reads, is_inner, ports_of, face_of};
ghost use Rattle.net_ir.specs.Marks.{AreMarksOf};
ghost use Rattle.net_ir.specs.code.Classing.{class_by};

use crate::design::{Role, Spec, Var};
use crate::marks::{clock_marks, is_clear, read_marks};
use std::alloc::{AllocError, Global};
use sv_base::{Class, Face, Name, Port, Sequence};

/// The face of a design: its ports with their classes. The work is linear in the design.
pub fn face(alloc: Global, spec: &Spec) -> Result<Face, AllocError>
    ensures { IfOk result (λ face. face ≡ face_of spec.now) }
{
    let clocks = clock_marks(alloc, spec)?;
    let read = read_marks(alloc, spec)?;
    let ports = ports(alloc, spec, &clocks, &read)?;
    let name = Name::of(alloc, spec.module.bytes())?;
    Ok(Face {
        name,
        ports: Sequence::from_vec(ports),
    })
}

/// The ports with their classes: the variables before the first that only the module sees.
fn ports(
    alloc: Global,
    spec: &Spec,
    clocks: &[bool],
    read: &[bool],
) -> Result<Vec<Port>, AllocError>
    requires clocks { AreMarksOf (length spec.now.vars) (clocks_of spec.now) clocks.now }
    requires read { AreMarksOf (length spec.now.vars) (all_reads spec.now) read.now }
    ensures { IfOk result (λ ports. ports.items ≡ ports_of spec.now) }
{
    let vars = spec.vars.as_slice();
    let mut ports = Vec::new(alloc);
    for x in 0..vars.len() {
        if is_inner(&vars[x]) {
            return Ok(ports);
        }
        let class = class(&vars[x], !is_clear(clocks, x), !is_clear(read, x));
        ports.push(port(alloc, &vars[x], class)?)?;
    }
    Ok(ports)
}

/// Whether only the module itself sees a variable.
pub fn is_inner(var: &Var) -> bool
    ensures { result ≡ is_inner var.now.role }
{
    match var.role {
        Role::Inner => true,
        Role::Input | Role::Output => false,
    }
}

/// The class of a variable, by whether it stands in an event control and whether an expression reads it.
fn class(var: &Var, clock: bool, read: bool) -> Class
    ensures { result ≡ class_by var.now.role clock read }
{
    match var.role {
        Role::Input if clock => Class::Clock,
        Role::Input if read => Class::Value,
        Role::Input => Class::Idle,
        Role::Output | Role::Inner => Class::Output,
    }
}

/// The port that a variable is.
fn port(alloc: Global, var: &Var, class: Class) -> Result<Port, AllocError>
    ensures { IfOk result (λ port. port ≡ record { name = var.now.name; class = class; signed = var.now.signed; width = var.now.width }) }
{
    Ok(Port {
        name: Name::of(alloc, var.name.bytes())?,
        class,
        signed: var.signed,
        width: var.width,
    })
}
