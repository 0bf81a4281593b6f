//! The specialisation of a module.

ghost use Rattle.std.specs.Prelude.{◌≡◌, map, OnOk};
ghost use Rattle.module_header.specs.Header.{port_of};
ghost use Rattle.const_eval.specs.code.Agreeing.{Agrees};
ghost use Rattle.elaborate.specs.Reached.{start, in_turn};
ghost use Rattle.elaborate.specs.Declaration.{port};
ghost use Rattle.elaborate.specs.Items as spec;
ghost use Rattle.elaborate.specs.code.Walking.{reached, IsSound, IsStep};

use crate::declaration::port;
use crate::item::items;
use crate::refusal::not_yet;
use crate::walk::Walk;
use module_header::{Port, ports_of};
use net_ir::Spec;
use std::alloc::Global;
use sv_ast::{Module, Param};
use sv_base::{Fault, Name, Sequence};

/// A header's parameters are not elaborated so far.
fn parameters(alloc: Global, walk: &Walk, params: &[Param]) -> Result<(), Fault>
    ensures { IsStep (spec.parameters params.now) walk.now walk.now result }
{
    if params.is_empty() {
        Ok(())
    } else {
        Err(not_yet(alloc)?)
    }
}

/// The ports of a header.
fn ports(alloc: Global, walk: &mut Walk, ports: &[Port<'_>]) -> Result<(), Fault>
    requires sound { IsSound (reached walk.old) }
    ensures step { IsStep (in_turn port (map port_of ports.now)) walk.old walk.new result }
    ensures sound { OnOk result (IsSound (reached walk.new)) }
{
    let mut rest = ports;
    while let [one, behind @ ..] = rest {
        port(alloc, walk, *one)?;
        rest = behind;
    }
    Ok(())
}

/// What a module adds to nothing.
fn walk_through(alloc: Global, walk: &mut Walk, module: &Module) -> Result<(), Fault>
    requires start { reached walk.old ≡ start }
    requires sound { IsSound (reached walk.old) }
    ensures step { IsStep (λ r. spec.walked «module».now) walk.old walk.new result }
{
    parameters(alloc, walk, module.params.as_slice())?;
    let header = ports_of(alloc, module.ports.as_slice())?;
    ports(alloc, walk, header.as_slice())?;
    items(alloc, walk, module.items.as_slice())
}

/// The specialisation of a module, or its first refusal, from left to right, parts before the whole.
pub fn specialised(alloc: Global, module: &Module) -> Result<Spec, Fault>
    ensures { Agrees (λ found spec. found ≡ spec) result (spec.specialised «module».now) }
{
    let mut walk = Walk::new(alloc);
    walk_through(alloc, &mut walk, module)?;
    let name = Name::of(alloc, module.name.name.bytes())?;
    let Walk { scope, drivers, .. } = walk;
    Ok(Spec {
        module: name,
        place: module.name.place,
        params: Sequence::new(alloc),
        vars: scope.vars,
        drivers,
    })
}
