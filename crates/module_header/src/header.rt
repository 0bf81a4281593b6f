//! What the entries and ports of a module's header take from those before them.

ghost use Rattle.std.specs.Prelude.{◌≡◌, map, IfOk};
ghost use Rattle.std.specs.Option.{option_copied};
ghost use Rattle.module_header.specs.Header as spec;

use std::alloc::{AllocError, Global};
use sv_ast::{Expr, Id, Param, PortDecl, Shape};

/// Whether the value of an entry may be given from outside (IEEE 1800-2017, 6.20).
#[derive(Clone, Copy, Debug, PartialEq, Eq)]
pub enum EntryKind {
    Parameter,
    Localparam,
}

/// An entry of a header with all that it has, from itself or from the entry before it.
#[derive(Clone, Copy)]
pub struct Entry<'a> {
    pub kind: EntryKind,
    pub shape: &'a Shape,
    pub name: &'a Id,
    pub value: &'a Expr,
}

/// A port of a header with all that it has, from itself or from the port before it. A first one that is a name alone has no
/// direction: no header has such a one.
#[derive(Clone, Copy)]
pub struct Port<'a> {
    pub direction: Option<&'a Id>,
    pub shape: &'a Shape,
    pub name: &'a Id,
}

fn is_unsaid(shape: &Shape) -> bool
    ensures { result ≡ spec.is_unsaid shape.now }
{
    shape.words.is_empty() && shape.sign.is_none() && shape.range.is_none()
}

fn kind_of(keyword: &Id) -> EntryKind
    ensures { result ≡ spec.kind_of keyword.now }
{
    if keyword.name.bytes() == "localparam".as_bytes() {
        EntryKind::Localparam
    } else {
        EntryKind::Parameter
    }
}

/// The kind of an entry behind one of the kind `before` (IEEE 1800-2017, 6.20.1).
fn entry_kind(before: EntryKind, param: &Param) -> EntryKind
    ensures { result ≡ spec.entry_kind before param.now }
{
    match &param.keyword {
        Some(own) => kind_of(own),
        None => before,
    }
}

/// The type of an entry behind one with the type `before`.
fn entry_shape<'a>(before: Option<&'a Shape>, param: &'a Param) -> &'a Shape
    ensures { result.now ≡ spec.entry_shape (option_copied before.entry) param.now }
{
    match before {
        Some(before) if param.keyword.is_none() && is_unsaid(&param.shape) => before,
        _ => &param.shape,
    }
}

/// The direction of a port behind one with the direction `before` (23.2.2.3).
fn port_direction<'a>(before: Option<&'a Id>, port: &'a PortDecl) -> Option<&'a Id>
    ensures { option_copied result ≡ spec.port_direction (option_copied before.entry) port.now }
{
    match &port.direction {
        Some(own) => Some(own),
        None => before,
    }
}

/// The type of a port behind one with the type `before`.
fn port_shape<'a>(before: Option<&'a Shape>, port: &'a PortDecl) -> &'a Shape
    ensures { result.now ≡ spec.port_shape (option_copied before.entry) port.now }
{
    match before {
        Some(before) if port.direction.is_none() => before,
        _ => &port.shape,
    }
}

/// The entries of a header, in its order.
pub fn entries_of<'a>(alloc: Global, params: &'a [Param]) -> Result<Vec<Entry<'a>>, AllocError>
    ensures { IfOk result (λ found. map spec.entry_of found.items ≡ spec.entries params.now) }
{
    let mut found = Vec::new(alloc);
    let mut kind = EntryKind::Parameter;
    let mut shape = None;
    let mut rest = params;
    while let [param, behind @ ..] = rest {
        kind = entry_kind(kind, param);
        let own = entry_shape(shape, param);
        shape = Some(own);
        found.push(Entry {
            kind,
            shape: own,
            name: &param.name,
            value: &param.value,
        })?;
        rest = behind;
    }
    Ok(found)
}

/// The ports of a header, in its order.
pub fn ports_of<'a>(alloc: Global, declared: &'a [PortDecl]) -> Result<Vec<Port<'a>>, AllocError>
    ensures { IfOk result (λ found. map spec.port_of found.items ≡ spec.ports declared.now) }
{
    let mut found = Vec::new(alloc);
    let mut direction = None;
    let mut shape = None;
    let mut rest = declared;
    while let [port, behind @ ..] = rest {
        direction = port_direction(direction, port);
        let own = port_shape(shape, port);
        shape = Some(own);
        found.push(Port {
            direction,
            shape: own,
            name: &port.name,
        })?;
        rest = behind;
    }
    Ok(found)
}
