//! The pieces that stand in a wrapper once for each port of a class.

ghost use Rattle.std.specs.Prelude.{◌≡◌, ◌++◌, OnOk};
ghost use Rattle.dpi_wrapper.specs.WrapperText.{input_parameter, clock_parameter, output_parameter, variables_line, port_argument, combo_argument, next_argument, or_clock, seq_assignment, shown_line};
ghost use Rattle.dpi_wrapper.specs.code.Pieces.{is_for, piece_text, pieces_text, piece_where_for, arguments_text};

use crate::texts::{push_between, push_range, push_ranged};
use std::alloc::{AllocError, Global};
use sv_base::{Class, Port};

/// What stands in a wrapper once for each port of a class.
#[derive(Clone, Copy)]
pub enum Piece {
    InputParameter,
    ClockParameter,
    OutputParameter,
    Variables,
    InputArgument,
    ClockArgument,
    ComboArgument,
    NextArgument,
    OrClock,
    SeqAssignment,
    Shown,
}

fn is_for(piece: Piece, class: Class) -> bool
    ensures { result ≡ is_for piece class }
{
    match piece {
        Piece::InputParameter | Piece::InputArgument => matches!(class, Class::Value),
        Piece::ClockParameter | Piece::ClockArgument | Piece::OrClock => {
            matches!(class, Class::Clock)
        }
        Piece::OutputParameter
        | Piece::Variables
        | Piece::ComboArgument
        | Piece::NextArgument
        | Piece::SeqAssignment
        | Piece::Shown => matches!(class, Class::Output),
    }
}

#[tactic(auto, unfolding(crate::specs::WrapperText::input_parameter))]
fn push_input_parameter(alloc: Global, into: &mut Vec<u8>, port: &Port) -> Result<(), AllocError>
    ensures { OnOk result (into.new.items ≡ into.old.items ++ input_parameter port.now) }
{
    push_ranged(alloc, into, b", input bit ", port)
}

#[tactic(auto, unfolding(crate::specs::WrapperText::clock_parameter))]
fn push_clock_parameter(into: &mut Vec<u8>, port: &Port) -> Result<(), AllocError>
    ensures { OnOk result (into.new.items ≡ into.old.items ++ clock_parameter port.now) }
{
    into.extend_from_slice(b", input bit [0:0] ")?;
    into.extend_from_slice(port.name.bytes())
}

#[tactic(auto, unfolding(crate::specs::WrapperText::output_parameter))]
fn push_output_parameter(alloc: Global, into: &mut Vec<u8>, port: &Port) -> Result<(), AllocError>
    ensures { OnOk result (into.new.items ≡ into.old.items ++ output_parameter port.now) }
{
    push_ranged(alloc, into, b", output bit ", port)
}

#[tactic(auto, unfolding(crate::specs::WrapperText::variables_line))]
fn push_variables(alloc: Global, into: &mut Vec<u8>, port: &Port) -> Result<(), AllocError>
    ensures { OnOk result (into.new.items ≡ into.old.items ++ variables_line port.now) }
{
    let name = port.name.bytes();
    into.extend_from_slice(b"  bit ")?;
    push_range(alloc, into, port.width)?;
    push_between(into, b"hw_combo_", name, b", hw_seq_")?;
    push_between(into, name, b", hw_next_", name)?;
    into.extend_from_slice(b";\n")
}

#[tactic(auto, unfolding(crate::specs::WrapperText::port_argument))]
fn push_port_argument(into: &mut Vec<u8>, port: &Port) -> Result<(), AllocError>
    ensures { OnOk result (into.new.items ≡ into.old.items ++ port_argument port.now) }
{
    into.extend_from_slice(b", ")?;
    into.extend_from_slice(port.name.bytes())
}

#[tactic(auto, unfolding(crate::specs::WrapperText::combo_argument))]
fn push_combo_argument(into: &mut Vec<u8>, port: &Port) -> Result<(), AllocError>
    ensures { OnOk result (into.new.items ≡ into.old.items ++ combo_argument port.now) }
{
    into.extend_from_slice(b", hw_combo_")?;
    into.extend_from_slice(port.name.bytes())
}

#[tactic(auto, unfolding(crate::specs::WrapperText::next_argument))]
fn push_next_argument(into: &mut Vec<u8>, port: &Port) -> Result<(), AllocError>
    ensures { OnOk result (into.new.items ≡ into.old.items ++ next_argument port.now) }
{
    into.extend_from_slice(b", hw_next_")?;
    into.extend_from_slice(port.name.bytes())
}

#[tactic(auto, unfolding(crate::specs::WrapperText::or_clock))]
fn push_or_clock(into: &mut Vec<u8>, port: &Port) -> Result<(), AllocError>
    ensures { OnOk result (into.new.items ≡ into.old.items ++ or_clock port.now) }
{
    into.extend_from_slice(b" or ")?;
    into.extend_from_slice(port.name.bytes())
}

#[tactic(auto, unfolding(crate::specs::WrapperText::seq_assignment))]
fn push_seq_assignment(into: &mut Vec<u8>, port: &Port) -> Result<(), AllocError>
    ensures { OnOk result (into.new.items ≡ into.old.items ++ seq_assignment port.now) }
{
    let name = port.name.bytes();
    push_between(into, b"    hw_seq_", name, b" <= hw_next_")?;
    into.extend_from_slice(name)?;
    into.extend_from_slice(b";\n")?;
    Ok(())
}

#[tactic(auto, unfolding(crate::specs::WrapperText::shown_line))]
fn push_shown(into: &mut Vec<u8>, port: &Port) -> Result<(), AllocError>
    ensures { OnOk result (into.new.items ≡ into.old.items ++ shown_line port.now) }
{
    let name = port.name.bytes();
    push_between(
        into,
        b"  assign ",
        name,
        b" = hw_seq_no > hw_combo_no ? hw_seq_",
    )?;
    push_between(into, name, b" : hw_combo_", name)?;
    into.extend_from_slice(b";\n")
}

fn push_piece(
    alloc: Global,
    into: &mut Vec<u8>,
    piece: Piece,
    port: &Port,
) -> Result<(), AllocError>
    ensures { OnOk result (into.new.items ≡ into.old.items ++ piece_text piece port.now) }
{
    match piece {
        Piece::InputParameter => push_input_parameter(alloc, into, port),
        Piece::ClockParameter => push_clock_parameter(into, port),
        Piece::OutputParameter => push_output_parameter(alloc, into, port),
        Piece::Variables => push_variables(alloc, into, port),
        Piece::InputArgument | Piece::ClockArgument => push_port_argument(into, port),
        Piece::ComboArgument => push_combo_argument(into, port),
        Piece::NextArgument => push_next_argument(into, port),
        Piece::OrClock => push_or_clock(into, port),
        Piece::SeqAssignment => push_seq_assignment(into, port),
        Piece::Shown => push_shown(into, port),
    }
}

fn push_piece_where_for(
    alloc: Global,
    into: &mut Vec<u8>,
    piece: Piece,
    port: &Port,
) -> Result<(), AllocError>
    ensures { OnOk result (into.new.items ≡ into.old.items ++ piece_where_for piece port.now) }
{
    if is_for(piece, port.class) {
        push_piece(alloc, into, piece, port)
    } else {
        Ok(())
    }
}

/// Adds a piece for each of these ports that has its class.
pub fn push_pieces(
    alloc: Global,
    into: &mut Vec<u8>,
    piece: Piece,
    ports: &[Port],
) -> Result<(), AllocError>
    ensures { OnOk result (into.new.items ≡ into.old.items ++ pieces_text piece ports.now) }
{
    for port in ports {
        push_piece_where_for(alloc, into, piece, port)?;
    }
    Ok(())
}

/// Adds the arguments or the parameters of a call, a piece for each input of its class and one for each output, and
/// the end of the line.
pub fn push_arguments(
    alloc: Global,
    into: &mut Vec<u8>,
    inputs: Piece,
    outputs: Piece,
    ports: &[Port],
) -> Result<(), AllocError>
    ensures { OnOk result (into.new.items ≡ into.old.items ++ arguments_text inputs outputs ports.now) }
{
    push_pieces(alloc, into, inputs, ports)?;
    push_pieces(alloc, into, outputs, ports)?;
    into.extend_from_slice(b");\n")?;
    Ok(())
}
