//! The header of a wrapper's module.

ghost use Rattle.std.specs.Prelude.{◌≡◌, ◌++◌, OnOk};
ghost use Rattle.std.specs.List.{flat_map};
ghost use Rattle.dpi_wrapper.specs.WrapperText.{direction, signed_word, module_line, declaration, next_declaration, declarations, header};

use crate::texts::{push_between, push_ranged};
use std::alloc::{AllocError, Global};
use sv_base::{Class, Face, Port};

fn direction(class: Class) -> &'static [u8]
    ensures { result.now ≡ direction class }
{
    match class {
        Class::Output => b"output",
        Class::Value | Class::Clock | Class::Idle => b"input",
    }
}

fn signed_word(signed: bool) -> &'static [u8]
    ensures { result.now ≡ signed_word signed }
{
    if signed { b"signed " } else { b"" }
}

#[tactic(auto, unfolding(crate::specs::WrapperText::module_line))]
fn push_module(into: &mut Vec<u8>, name: &[u8]) -> Result<(), AllocError>
    ensures { OnOk result (into.new.items ≡ into.old.items ++ module_line name.now) }
{
    push_between(into, b"module ", name, b" (\n")
}

#[tactic(auto, unfolding(crate::specs::WrapperText::declaration))]
fn push_declaration(alloc: Global, into: &mut Vec<u8>, port: &Port) -> Result<(), AllocError>
    ensures { OnOk result (into.new.items ≡ into.old.items ++ declaration port.now) }
{
    push_between(into, b"  ", direction(port.class), b" logic ")?;
    push_ranged(alloc, into, signed_word(port.signed), port)
}

#[tactic(auto, unfolding(crate::specs::WrapperText::next_declaration))]
fn push_next_declaration(alloc: Global, into: &mut Vec<u8>, port: &Port) -> Result<(), AllocError>
    ensures { OnOk result (into.new.items ≡ into.old.items ++ next_declaration port.now) }
{
    into.extend_from_slice(b",\n")?;
    push_declaration(alloc, into, port)
}

fn push_next_declarations(
    alloc: Global,
    into: &mut Vec<u8>,
    ports: &[Port],
) -> Result<(), AllocError>
    ensures { OnOk result (into.new.items ≡ into.old.items ++ flat_map next_declaration ports.now) }
{
    for port in ports {
        push_next_declaration(alloc, into, port)?;
    }
    Ok(())
}

#[tactic(auto, unfolding(crate::specs::WrapperText::declarations))]
fn push_declarations(alloc: Global, into: &mut Vec<u8>, ports: &[Port]) -> Result<(), AllocError>
    ensures { OnOk result (into.new.items ≡ into.old.items ++ declarations ports.now) }
{
    match ports {
        [] => Ok(()),
        [first, rest @ ..] => {
            push_declaration(alloc, into, first)?;
            push_next_declarations(alloc, into, rest)?;
            into.extend_from_slice(b"\n")
        }
    }
}

/// Adds the header of the module.
#[tactic(auto, unfolding(crate::specs::WrapperText::header))]
pub fn push_header(alloc: Global, into: &mut Vec<u8>, face: &Face) -> Result<(), AllocError>
    ensures { OnOk result (into.new.items ≡ into.old.items ++ header face.now) }
{
    push_module(into, face.name.bytes())?;
    push_declarations(alloc, into, face.ports.as_slice())?;
    into.extend_from_slice(b");\n")
}
