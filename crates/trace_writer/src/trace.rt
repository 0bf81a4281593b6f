//! The text of a trace.

ghost use Rattle.std.specs.Prelude.{◌≡◌, ◌≤◌, ◌<◌, ◌+◌, ◌++◌, List, map, length, vec_len, vec_capacity, IfSome, IfOk, OnOk};
ghost use Rattle.std.specs.Fmt.{decimal};
ghost use Rattle.bit_ops.specs.Lists.{words, widths};
ghost use Rattle.sv_base.specs.declared.face.Port.{Port};
ghost use Rattle.sv_base.specs.TraceText.{hex_digit, digits_of_width, heading, header, line};
ghost use Rattle.trace_writer.specs.Room.{value_text, value_room, line_room};

use bit_ops::Bits;
use std::alloc::{AllocError, Global};
use sv_base::{Face, Port};

/// Adds a number in decimal digits.
pub fn push_decimal(alloc: Global, text: &mut Vec<u8>, number: u64) -> Result<(), AllocError>
    ensures { OnOk result (text.new.items ≡ text.old.items ++ decimal number) }
{
    let digits = number.to_string(alloc)?;
    text.extend_from_slice(digits.as_bytes())
}

/// Adds a number in decimal digits to a vector that has room for them.
fn push_number(number: u64, into: &mut Vec<u8>)
    requires { vec_len into.old + length (decimal number) ≤ vec_capacity into.old }
    ensures text { into.new.items ≡ into.old.items ++ decimal number }
    ensures room { vec_capacity into.new ≡ vec_capacity into.old }
{
    if number < 10 {
        into.push_reserved(b'0' + number as u8);
        return;
    }
    push_number(number / 10, into);
    into.push_reserved(b'0' + (number % 10) as u8);
}

/// A hexadecimal digit in lower case.
fn digit(value: u8) -> u8
    requires { value ≤ 15 }
    ensures { result ≡ hex_digit value }
{
    if value < 10 {
        b'0' + value
    } else {
        b'a' - 10 + value
    }
}

/// How many hexadecimal digits a value of this width has.
fn digit_count(width: u32) -> u32
    ensures { result ≡ digits_of_width width }
{
    width.div_ceil(4)
}

/// Adds a blank, and a value with all the hexadecimal digits of its width.
fn push_value(value: Bits, into: &mut Vec<u8>)
    requires { vec_len into.old + value_room value.width ≤ vec_capacity into.old }
    ensures text { into.new.items ≡ into.old.items ++ value_text value }
    ensures room { vec_capacity into.new ≡ vec_capacity into.old }
{
    into.push_reserved(b' ');
    for place in (0..digit_count(value.width)).rev() {
        into.push_reserved(digit((value.word >> (4 * place) & 15) as u8));
    }
}

/// Adds what the header says of a port.
fn push_heading(alloc: Global, text: &mut Vec<u8>, port: &Port) -> Result<(), AllocError>
    ensures { OnOk result (text.new.items ≡ text.old.items ++ heading port.now) }
{
    text.push(b' ')?;
    text.extend_from_slice(port.name.bytes())?;
    text.push(b':')?;
    push_decimal(alloc, text, u64::from(port.width))
}

/// The header of a trace, with its LF.
pub fn header(alloc: Global, face: &Face) -> Result<Vec<u8>, AllocError>
    ensures { IfOk result (λ text. text.items ≡ header face.now.ports) }
{
    let mut text = Vec::from_slice(alloc, b"step")?;
    for port in face.ports.as_slice() {
        push_heading(alloc, &mut text, port)?;
    }
    text.push(b'\n')?;
    Ok(text)
}

/// The most bytes of a line over these ports, where a count of them fits.
fn room_for(ports: &[Port]) -> Option<usize>
    ensures { IfSome result (λ room. room ≡ line_room (map (λ p. p.width) ports.now)) }
{
    let mut room: usize = 21;
    for port in ports {
        room = room.checked_add(1 + digit_count(port.width) as usize)?;
    }
    Some(room)
}

/// Gives `into` room for every line of a module with this face, whatever the number of its step. What `into` holds
/// stays as it is.
pub fn reserve_line(_alloc: Global, face: &Face, into: &mut Vec<u8>) -> Result<(), AllocError>
    ensures room { OnOk result (line_room (map (λ p. p.width) face.now.ports) ≤ vec_capacity into.new) }
    ensures text { into.new.items ≡ into.old.items }
{
    match room_for(face.ports.as_slice()) {
        Some(room) => into.reserve(room),
        None => Err(AllocError),
    }
}

/// Puts the line of the step of this number, with its LF, in place of what `into` held: `values` has a value for each
/// port. Takes no memory.
pub fn line(number: u64, values: &[Bits], into: &mut Vec<u8>)
    requires { line_room (widths values.now) ≤ vec_capacity into.old }
    ensures text { (ports : List Port) → widths values.now ≡ map (λ p. p.width) ports → into.new.items ≡ line number ports (words values.now) }
    ensures room { vec_capacity into.new ≡ vec_capacity into.old }
{
    into.clear();
    push_number(number, into);
    for value in values {
        push_value(*value, into);
    }
    into.push_reserved(b'\n');
}
