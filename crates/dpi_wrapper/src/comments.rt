//! The comments of a wrapper: its version, digest, ports and dependences.

ghost use Rattle.std.specs.Prelude.{◌≡◌, ◌++◌, OnOk};
ghost use Rattle.std.specs.List.{flat_map, enumerate_from};
ghost use Rattle.dpi_wrapper.specs.WrapperText.{class_word, sign_word, version_line, digest_line, port_line, position_word, depends_line, comments};

use crate::texts::{push_between, push_decimal};
use std::alloc::{AllocError, Global};
use sv_base::{Class, Port, Sequence, WrapperFace};

fn class_word(class: Class) -> &'static [u8]
    ensures { result.now ≡ class_word class }
{
    match class {
        Class::Value => b"data",
        Class::Clock => b"clock",
        Class::Idle => b"idle",
        Class::Output => b"output",
    }
}

fn sign_word(signed: bool) -> &'static [u8]
    ensures { result.now ≡ sign_word signed }
{
    if signed { b"s" } else { b"u" }
}

#[tactic(auto, unfolding(crate::specs::WrapperText::version_line))]
fn push_version(into: &mut Vec<u8>) -> Result<(), AllocError>
    ensures { OnOk result (into.new.items ≡ into.old.items ++ version_line) }
{
    into.extend_from_slice(b"// hier_wrapper 1\n")
}

#[tactic(auto, unfolding(crate::specs::WrapperText::digest_line))]
fn push_digest(alloc: Global, into: &mut Vec<u8>, digest: &[u8]) -> Result<(), AllocError>
    ensures { OnOk result (into.new.items ≡ into.old.items ++ digest_line digest.now) }
{
    let digits = hex::encode(alloc, digest)?;
    push_between(into, b"// digest ", digits.as_bytes(), b"\n")
}

/// Adds what the comments say of a port.
#[tactic(auto, unfolding(crate::specs::WrapperText::port_line))]
fn push_port(alloc: Global, into: &mut Vec<u8>, port: &Port) -> Result<(), AllocError>
    ensures { OnOk result (into.new.items ≡ into.old.items ++ port_line port.now) }
{
    push_between(into, b"// port ", port.name.bytes(), b" ")?;
    push_between(into, class_word(port.class), b" ", sign_word(port.signed))?;
    into.push(b' ')?;
    push_decimal(alloc, into, u64::from(port.width))?;
    into.push(b'\n')?;
    Ok(())
}

fn push_ports(alloc: Global, into: &mut Vec<u8>, ports: &[Port]) -> Result<(), AllocError>
    ensures { OnOk result (into.new.items ≡ into.old.items ++ flat_map port_line ports.now) }
{
    for port in ports {
        push_port(alloc, into, port)?;
    }
    Ok(())
}

#[tactic(auto, unfolding(crate::specs::WrapperText::position_word))]
fn push_position(alloc: Global, into: &mut Vec<u8>, position: u32) -> Result<(), AllocError>
    ensures { OnOk result (into.new.items ≡ into.old.items ++ position_word position) }
{
    into.push(b' ')?;
    push_decimal(alloc, into, u64::from(position))
}

fn push_positions(alloc: Global, into: &mut Vec<u8>, row: &[u32]) -> Result<(), AllocError>
    ensures { OnOk result (into.new.items ≡ into.old.items ++ flat_map position_word row.now) }
{
    for position in row {
        push_position(alloc, into, *position)?;
    }
    Ok(())
}

/// Adds what the comments say of an output, counted from 0.
#[tactic(auto, unfolding(crate::specs::WrapperText::depends_line))]
fn push_row(alloc: Global, into: &mut Vec<u8>, output: usize, row: &[u32]) -> Result<(), AllocError>
    ensures { OnOk result (into.new.items ≡ into.old.items ++ depends_line (output, row.now)) }
{
    into.extend_from_slice(b"// depends ")?;
    push_decimal(alloc, into, output as u64)?;
    push_positions(alloc, into, row)?;
    into.push(b'\n')?;
    Ok(())
}

fn push_rows(alloc: Global, into: &mut Vec<u8>, rows: &[Sequence<u32>]) -> Result<(), AllocError>
    ensures { OnOk result (into.new.items
        ≡ into.old.items ++ flat_map depends_line (enumerate_from 0 rows.now)) }
{
    for (output, row) in rows.iter().enumerate() {
        push_row(alloc, into, output, row.as_slice())?;
    }
    Ok(())
}

/// Adds all comments.
#[tactic(auto, unfolding(crate::specs::WrapperText::comments))]
pub fn push_comments(alloc: Global, into: &mut Vec<u8>, w: &WrapperFace) -> Result<(), AllocError>
    ensures { OnOk result (into.new.items ≡ into.old.items ++ comments w.now) }
{
    push_version(into)?;
    push_digest(alloc, into, &w.digest)?;
    push_ports(alloc, into, w.face.ports.as_slice())?;
    push_rows(alloc, into, w.summary.rows.as_slice())
}
