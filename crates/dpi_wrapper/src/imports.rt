//! The functions that a wrapper imports, and its variables.

ghost use Rattle.std.specs.Prelude.{◌≡◌, ◌++◌, OnOk};
ghost use Rattle.dpi_wrapper.specs.WrapperText.{create_import, combo_import, seq_import, final_import, imports, handle_line, numbers_line, variables};

use crate::piece::{Piece, push_arguments, push_pieces};
use crate::texts::push_between;
use std::alloc::{AllocError, Global};
use sv_base::Face;

#[tactic(auto, unfolding(crate::specs::WrapperText::create_import))]
fn push_create_import(into: &mut Vec<u8>, name: &[u8]) -> Result<(), AllocError>
    ensures { OnOk result (into.new.items ≡ into.old.items ++ create_import name.now) }
{
    push_between(
        into,
        b"  import \"DPI-C\" function chandle ",
        name,
        b"_create();\n",
    )
}

#[tactic(auto, unfolding(crate::specs::WrapperText::combo_import))]
fn push_combo_import(alloc: Global, into: &mut Vec<u8>, face: &Face) -> Result<(), AllocError>
    ensures { OnOk result (into.new.items ≡ into.old.items ++ combo_import face.now) }
{
    push_between(
        into,
        b"  import \"DPI-C\" function longint ",
        face.name.bytes(),
        b"_combo(input chandle h",
    )?;
    push_arguments(
        alloc,
        into,
        Piece::InputParameter,
        Piece::OutputParameter,
        face.ports.as_slice(),
    )?;
    Ok(())
}

#[tactic(auto, unfolding(crate::specs::WrapperText::seq_import))]
fn push_seq_import(alloc: Global, into: &mut Vec<u8>, face: &Face) -> Result<(), AllocError>
    ensures { OnOk result (into.new.items ≡ into.old.items ++ seq_import face.now) }
{
    push_between(
        into,
        b"  import \"DPI-C\" function longint ",
        face.name.bytes(),
        b"_seq(input chandle h",
    )?;
    push_arguments(
        alloc,
        into,
        Piece::ClockParameter,
        Piece::OutputParameter,
        face.ports.as_slice(),
    )?;
    Ok(())
}

#[tactic(auto, unfolding(crate::specs::WrapperText::final_import))]
fn push_final_import(into: &mut Vec<u8>, name: &[u8]) -> Result<(), AllocError>
    ensures { OnOk result (into.new.items ≡ into.old.items ++ final_import name.now) }
{
    push_between(
        into,
        b"  import \"DPI-C\" function void ",
        name,
        b"_final(input chandle h);\n",
    )
}

/// Adds the functions that are imported.
#[tactic(auto, unfolding(crate::specs::WrapperText::imports))]
pub fn push_imports(alloc: Global, into: &mut Vec<u8>, face: &Face) -> Result<(), AllocError>
    ensures { OnOk result (into.new.items ≡ into.old.items ++ imports face.now) }
{
    push_create_import(into, face.name.bytes())?;
    push_combo_import(alloc, into, face)?;
    push_seq_import(alloc, into, face)?;
    push_final_import(into, face.name.bytes())
}

#[tactic(auto, unfolding(crate::specs::WrapperText::handle_line))]
fn push_handle(into: &mut Vec<u8>, name: &[u8]) -> Result<(), AllocError>
    ensures { OnOk result (into.new.items ≡ into.old.items ++ handle_line name.now) }
{
    push_between(into, b"  chandle hw_h = ", name, b"_create();\n")
}

#[tactic(auto, unfolding(crate::specs::WrapperText::numbers_line))]
fn push_numbers(into: &mut Vec<u8>) -> Result<(), AllocError>
    ensures { OnOk result (into.new.items ≡ into.old.items ++ numbers_line) }
{
    into.extend_from_slice(b"  longint hw_combo_no, hw_seq_no, hw_next_no;\n")
}

/// Adds the variables.
#[tactic(auto, unfolding(crate::specs::WrapperText::variables))]
pub fn push_variables(alloc: Global, into: &mut Vec<u8>, face: &Face) -> Result<(), AllocError>
    ensures { OnOk result (into.new.items ≡ into.old.items ++ variables face.now) }
{
    push_handle(into, face.name.bytes())?;
    push_numbers(into)?;
    push_pieces(alloc, into, Piece::Variables, face.ports.as_slice())
}
