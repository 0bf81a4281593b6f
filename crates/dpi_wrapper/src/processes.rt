//! The processes of a wrapper, and what it shows.

ghost use Rattle.std.specs.Prelude.{◌≡◌, ◌++◌, ◌∷◌, OnOk, position};
ghost use Rattle.sv_base.specs.Classes.{is_clock};
ghost use Rattle.dpi_wrapper.specs.WrapperText.{ports_of, combo_line, clock_names, always_line, seq_line, number_assignment, clocked, final_line, processes};

use crate::piece::{Piece, push_arguments, push_pieces};
use crate::texts::push_between;
use std::alloc::{AllocError, Global};
use sv_base::{Class, Face, Port};

#[tactic(auto, unfolding(crate::specs::WrapperText::combo_line))]
fn push_combo(alloc: Global, into: &mut Vec<u8>, face: &Face) -> Result<(), AllocError>
    ensures { OnOk result (into.new.items ≡ into.old.items ++ combo_line face.now) }
{
    push_between(
        into,
        b"  always_comb hw_combo_no = ",
        face.name.bytes(),
        b"_combo(hw_h",
    )?;
    push_arguments(
        alloc,
        into,
        Piece::InputArgument,
        Piece::ComboArgument,
        face.ports.as_slice(),
    )?;
    Ok(())
}

/// Adds the line of the process for clocks: a first one, and those among the ports behind it.
#[tactic(auto, unfolding(crate::specs::WrapperText::always_line, crate::specs::WrapperText::clock_names))]
fn push_always(
    alloc: Global,
    into: &mut Vec<u8>,
    first: &Port,
    behind: &[Port],
) -> Result<(), AllocError>
    ensures { OnOk result (into.new.items
        ≡ into.old.items ++ always_line (first.now ∷ ports_of is_clock behind.now)) }
{
    into.extend_from_slice(b"  always @(")?;
    into.extend_from_slice(first.name.bytes())?;
    push_pieces(alloc, into, Piece::OrClock, behind)?;
    into.extend_from_slice(b") begin\n")?;
    Ok(())
}

#[tactic(auto, unfolding(crate::specs::WrapperText::seq_line))]
fn push_seq(alloc: Global, into: &mut Vec<u8>, face: &Face) -> Result<(), AllocError>
    ensures { OnOk result (into.new.items ≡ into.old.items ++ seq_line face.now) }
{
    push_between(into, b"    hw_next_no = ", face.name.bytes(), b"_seq(hw_h")?;
    push_arguments(
        alloc,
        into,
        Piece::ClockArgument,
        Piece::NextArgument,
        face.ports.as_slice(),
    )?;
    Ok(())
}

#[tactic(auto, unfolding(crate::specs::WrapperText::number_assignment))]
fn push_number(into: &mut Vec<u8>) -> Result<(), AllocError>
    ensures { OnOk result (into.new.items ≡ into.old.items ++ number_assignment) }
{
    into.extend_from_slice(b"    hw_seq_no <= hw_next_no;\n")
}

/// Adds the process for clocks: a first one, and those among the ports behind it.
#[tactic(auto, unfolding(crate::specs::WrapperText::clocked))]
fn push_process(
    alloc: Global,
    into: &mut Vec<u8>,
    face: &Face,
    first: &Port,
    behind: &[Port],
) -> Result<(), AllocError>
    ensures { OnOk result (into.new.items
        ≡ into.old.items ++ clocked face.now (first.now ∷ ports_of is_clock behind.now)) }
{
    push_always(alloc, into, first, behind)?;
    push_seq(alloc, into, face)?;
    push_number(into)?;
    push_pieces(alloc, into, Piece::SeqAssignment, face.ports.as_slice())?;
    into.extend_from_slice(b"  end\n")
}

fn first_clock(ports: &[Port]) -> Option<usize>
    ensures { result ≡ position (λ p. is_clock p.class) ports.now }
{
    ports.iter().position(|p| matches!(p.class, Class::Clock))
}

/// Adds the process for clocks, where there are some.
fn push_clocked(alloc: Global, into: &mut Vec<u8>, face: &Face) -> Result<(), AllocError>
    ensures { OnOk result (into.new.items
        ≡ into.old.items ++ clocked face.now (ports_of is_clock face.now.ports)) }
{
    let ports = face.ports.as_slice();
    match first_clock(ports) {
        None => Ok(()),
        Some(at) => push_process(alloc, into, face, &ports[at], &ports[at + 1..]),
    }
}

#[tactic(auto, unfolding(crate::specs::WrapperText::final_line))]
fn push_final(into: &mut Vec<u8>, name: &[u8]) -> Result<(), AllocError>
    ensures { OnOk result (into.new.items ≡ into.old.items ++ final_line name.now) }
{
    push_between(into, b"  final ", name, b"_final(hw_h);\n")
}

/// Adds the processes and what is shown, up to the module's end.
#[tactic(auto, unfolding(crate::specs::WrapperText::processes))]
pub fn push_processes(alloc: Global, into: &mut Vec<u8>, face: &Face) -> Result<(), AllocError>
    ensures { OnOk result (into.new.items ≡ into.old.items ++ processes face.now) }
{
    push_combo(alloc, into, face)?;
    push_clocked(alloc, into, face)?;
    push_pieces(alloc, into, Piece::Shown, face.ports.as_slice())?;
    push_final(into, face.name.bytes())?;
    into.extend_from_slice(b"endmodule\n")
}
