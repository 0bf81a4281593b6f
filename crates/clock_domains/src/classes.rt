//! The face of a module, from marks of its clocks and of what is read.

ghost use Rattle.std.specs.Prelude.{◌≡◌, IfOk};
ghost use Rattle.clock_domains.specs.code.Walking.{class_by, ports_by};

use net_ir::marks::is_clear;
use net_ir::outside::is_inner;
use net_ir::{Role, Var};
use std::alloc::{AllocError, Global};
use sv_base::{Class, Name, Port};

/// The ports with their classes: the variables before the first that only the module sees.
pub fn ports(
    alloc: Global,
    vars: &[Var],
    clocks: &[bool],
    read: &[bool],
) -> Result<Vec<Port>, AllocError>
    ensures { IfOk result (λ ports. ports.items ≡ ports_by clocks.now read.now 0 vars.now) }
{
    let mut ports = Vec::new(alloc);
    for x in 0..vars.len() {
        if is_inner(&vars[x]) {
            return Ok(ports);
        }
        let class = class(vars[x].role, !is_clear(clocks, x), !is_clear(read, x));
        ports.push(port(alloc, &vars[x], class)?)?;
    }
    Ok(ports)
}

/// The class of a variable of this role, by whether it is a clock and whether it is read.
fn class(role: Role, clock: bool, read: bool) -> Class
    ensures { result ≡ class_by role clock read }
{
    match role {
        Role::Input if clock => Class::Clock,
        Role::Input if read => Class::Value,
        Role::Input => Class::Idle,
        Role::Output | Role::Inner => Class::Output,
    }
}

/// The port that a variable is.
fn port(alloc: Global, var: &Var, class: Class) -> Result<Port, AllocError>
    ensures { IfOk result (λ port. port ≡ record { name = var.now.name; class = class; signed = var.now.signed; width = var.now.width }) }
{
    Ok(Port {
        name: Name::of(alloc, var.name.bytes())?,
        class,
        signed: var.signed,
        width: var.width,
    })
}
