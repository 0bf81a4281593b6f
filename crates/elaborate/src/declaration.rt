//! What ports and declarations add to a module (IEEE 1800-2017, 6.5, 6.8, 10.3.1 and 23.2.2).

ghost use Rattle.std.specs.Prelude.{◌≡◌, false, None, Some, IfOk, OnOk};
ghost use Rattle.std.specs.Option.{option_copied};
ghost use Rattle.bit_ops.specs.Width.{IsWidth};
ghost use Rattle.module_header.specs.Header.{port_of};
ghost use Rattle.const_eval.specs.code.Agreeing.{Agrees};
ghost use Rattle.elaborate.specs.Names.{term_at};
ghost use Rattle.elaborate.specs.Refusals.{named};
ghost use Rattle.elaborate.specs.Reached.{in_turn};
ghost use Rattle.elaborate.specs.Declaration as spec;
ghost use Rattle.elaborate.specs.code.Walking.{reached, seen_in, IsSound, IsStep, integers_of};

use crate::extent::{Extent, Span, extent_of, is_net, says, span_of};
use crate::limits::PORT_LIMIT;
use crate::refusal::{told_of, too_many};
use crate::walk::Walk;
use bit_ops::Bits;
use const_eval::Bound;
use module_header::Port;
use net_ir::{Driver, Role, Target, Term, Var};
use std::alloc::{AllocError, Global};
use sv_ast::{Decl, Expr, Id, Shape};
use sv_base::{Fault, Name};

/// A net or variable of this extent, with this initial value.
fn var_of(
    alloc: Global,
    role: Role,
    wire: bool,
    extent: Extent,
    name: &Id,
    init: Bits,
) -> Result<Var, AllocError>
    ensures { IfOk result (λ var. var ≡ spec.var_of role wire extent name.now init) }
{
    Ok(Var {
        name: Name::of(alloc, name.name.bytes())?,
        place: name.place,
        role,
        width: extent.width,
        low: extent.low,
        ranged: extent.ranged,
        signed: extent.signed,
        wire,
        init,
    })
}

/// What a port is to the outside, by its direction.
fn role_of(direction: Option<&Id>) -> Role
    ensures { result ≡ spec.role_of (option_copied direction.entry) }
{
    if says(b"output", direction) {
        Role::Output
    } else {
        Role::Input
    }
}

/// Whether a port is a net: where it says so, or has no type (23.2.2.3).
fn is_net_port(words: &[Id]) -> bool
    ensures { result ≡ spec.is_net_port words.now }
{
    words.is_empty() || is_net(words)
}

/// A port, once its range is known.
fn named_port(
    alloc: Global,
    walk: &mut Walk,
    port: Port<'_>,
    span: Option<Span>,
) -> Result<(), Fault>
    requires sound { IsSound (reached walk.old) }
    ensures step { IsStep (spec.named_port (port_of port.entry) (integers_of span)) walk.old walk.new result }
    ensures sound { OnOk result (IsSound (reached walk.new)) }
{
    walk.fresh(alloc, port.name)?;
    let extent = extent_of(alloc, port.name, port.shape, span)?;
    if walk.scope.vars.len() >= PORT_LIMIT {
        return Err(too_many(alloc, b"ports", port.name.place)?);
    }
    let role = role_of(port.direction);
    let wire = is_net_port(port.shape.words.as_slice());
    let init = Bits::zero(extent.width);
    let var = var_of(alloc, role, wire, extent, port.name, init)?;
    walk.declare(alloc, var)
}

/// A port.
pub fn port(alloc: Global, walk: &mut Walk, port: Port<'_>) -> Result<(), Fault>
    requires sound { IsSound (reached walk.old) }
    ensures step { IsStep (spec.port (port_of port.entry)) walk.old walk.new result }
    ensures sound { OnOk result (IsSound (reached walk.new)) }
{
    match span_of(alloc, walk, &port.shape.range) {
        Ok(span) => named_port(alloc, walk, port, span),
        Err(fault) => Err(told_of(alloc, port.name, fault)),
    }
}

/// A variable with its initial value, in which it is visible.
fn initialised(
    alloc: Global,
    walk: &mut Walk,
    first: &Id,
    extent: Extent,
    name: &Id,
    e: &Expr,
) -> Result<(), Fault>
    requires sound { IsSound (reached walk.old) }
    requires width { IsWidth extent.width }
    ensures step { IsStep (spec.initialised first.now extent name.now e.now) walk.old walk.new result }
    ensures sound { OnOk result (IsSound (reached walk.new)) }
{
    let number = walk.next_number()?;
    let _ = walk
        .scope
        .names
        .declare(alloc, &name.name, Bound::Variable(number))?;
    match walk.initial(alloc, e, extent.width) {
        Ok(init) => {
            let var = var_of(alloc, Role::Inner, false, extent, name, init)?;
            walk.scope.vars.push(var)?;
            Ok(())
        }
        Err(fault) => Err(told_of(alloc, first, fault)),
    }
}

/// The term of an expression that is assigned to so many bits; where it has too many, that is told of a name.
fn assigned(alloc: Global, walk: &Walk, first: &Id, width: u32, e: &Expr) -> Result<Term, Fault>
    requires sound { IsSound (reached walk.now) }
    requires width { IsWidth width }
    ensures { Agrees (λ found value. found ≡ value.0) result (named first.now (term_at (seen_in walk.now) walk.now.scope.vars (Some width) false e.now)) }
{
    match walk.term(alloc, e, Some(width), false) {
        Ok((value, _)) => Ok(value),
        Err(fault) => Err(told_of(alloc, first, fault)),
    }
}

/// The whole of a net or variable as a target.
fn whole_target(alloc: Global, name: &Id, number: u32) -> Result<Target, AllocError>
    ensures { IfOk result (λ target. target ≡ spec.whole_target name.now number) }
{
    Ok(Target::Of {
        var: Some(number),
        name: Name::of(alloc, name.name.bytes())?,
        place: name.place,
        pos: None,
    })
}

/// A net that is driven by an expression of its own, in which it is visible: a continuous assignment (10.3.1).
fn driven(
    alloc: Global,
    walk: &mut Walk,
    first: &Id,
    extent: Extent,
    name: &Id,
    e: &Expr,
) -> Result<(), Fault>
    requires sound { IsSound (reached walk.old) }
    requires width { IsWidth extent.width }
    ensures step { IsStep (spec.driven first.now extent name.now e.now) walk.old walk.new result }
    ensures sound { OnOk result (IsSound (reached walk.new)) }
{
    let number = walk.next_number()?;
    plain_name(alloc, walk, true, extent, name)?;
    let value = assigned(alloc, walk, first, extent.width, e)?;
    walk.count(alloc, name.place)?;
    let target = whole_target(alloc, name, number)?;
    walk.drive(Driver::Assign {
        target,
        value,
        place: name.place,
    })
}

/// A declared name without a value.
fn plain_name(
    alloc: Global,
    walk: &mut Walk,
    wire: bool,
    extent: Extent,
    name: &Id,
) -> Result<(), Fault>
    requires sound { IsSound (reached walk.old) }
    requires width { IsWidth extent.width }
    ensures step { IsStep (spec.valued name.now wire extent name.now None) walk.old walk.new result }
    ensures sound { OnOk result (IsSound (reached walk.new)) }
{
    let init = Bits::zero(extent.width);
    let var = var_of(alloc, Role::Inner, wire, extent, name, init)?;
    walk.declare(alloc, var)
}

/// A declared name, once the range of its declaration is known; `first` is the first name of the declaration.
fn declared_name(
    alloc: Global,
    walk: &mut Walk,
    first: &Id,
    shape: &Shape,
    span: Option<Span>,
    decl: &Decl,
) -> Result<(), Fault>
    requires sound { IsSound (reached walk.old) }
    ensures step { IsStep (spec.declared_name first.now shape.now (integers_of span) decl.now) walk.old walk.new result }
    ensures sound { OnOk result (IsSound (reached walk.new)) }
{
    walk.fresh(alloc, &decl.name)?;
    let extent = extent_of(alloc, first, shape, span)?;
    let wire = is_net(shape.words.as_slice());
    match &decl.value {
        None => plain_name(alloc, walk, wire, extent, &decl.name),
        Some(e) if wire => driven(alloc, walk, first, extent, &decl.name, e),
        Some(e) => initialised(alloc, walk, first, extent, &decl.name, e),
    }
}

/// The names of a declaration, once its range is known.
fn declared_names(
    alloc: Global,
    walk: &mut Walk,
    first: &Id,
    shape: &Shape,
    span: Option<Span>,
    decls: &[Decl],
) -> Result<(), Fault>
    requires sound { IsSound (reached walk.old) }
    ensures step { IsStep (in_turn (spec.declared_name first.now shape.now (integers_of span)) decls.now) walk.old walk.new result }
    ensures sound { OnOk result (IsSound (reached walk.new)) }
{
    let mut rest = decls;
    while let [decl, behind @ ..] = rest {
        declared_name(alloc, walk, first, shape, span, decl)?;
        rest = behind;
    }
    Ok(())
}

/// A declaration, whose range is told of its first name.
pub fn declaration(
    alloc: Global,
    walk: &mut Walk,
    shape: &Shape,
    decls: &[Decl],
) -> Result<(), Fault>
    requires sound { IsSound (reached walk.old) }
    ensures step { IsStep (spec.declaration shape.now decls.now) walk.old walk.new result }
    ensures sound { OnOk result (IsSound (reached walk.new)) }
{
    let Some(first) = decls.first() else {
        return Ok(());
    };
    let first = &first.name;
    match span_of(alloc, walk, &shape.range) {
        Ok(span) => declared_names(alloc, walk, first, shape, span, decls),
        Err(fault) => Err(told_of(alloc, first, fault)),
    }
}
