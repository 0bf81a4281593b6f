//! Reading the fields of a machine. Memory is taken for parts that were read, and never for a count alone.

ghost use Rattle.std.specs.Prelude.{◌≡◌, ◌<◌, ◌≤◌, ◌^◌, nat_lt, map, IsFalse, IfOk};
ghost use Rattle.std.specs.Int.{w8, w16, w32, w64};
ghost use Rattle.bit_ops.specs.Width.{IsWidth};
ghost use Rattle.sv_base.specs.Spelling.{is_name};
ghost use Rattle.code_isa.specs.Operands.{operand_count, names_position, is_constant};
ghost use Rattle.sealed_library.specs.Fields.{number, repeated, counted};
ghost use Rattle.sealed_library.specs.Version1.{name_length, name_field, word_field, slot_field, port_count, port_field, face_field, row_field, summary_field, register_field, register_fields, child_field, child_fields, where_it_is, operands_field, operand_fields, instruction_field, instruction_fields};
ghost use Rattle.sealed_library.specs.code.Reading.{Gives};

use crate::counts::{clock_count, output_count};
use crate::fault::{FormatFault, Unread};
use crate::limits::PORT_LIMIT;
use crate::numbers::{
    bytes_at, class_at, digest_at, flag_at, operation_at, u8_at, u16_at, u32_at, u64_at, width_at,
    word_at,
};
use crate::operations::{is_constant, names_position, operand_count};
use bit_ops::{Op, Word};
use code_isa::{Instr, Kid, Reg, input_count};
use std::alloc::Global;
use sv_base::spelling::is_name;
use sv_base::{Face, NAME_LIMIT, Name, Port, Sequence, Summary};

/// How many bytes a name has, from 1 to `NAME_LIMIT`.
fn name_length_at(bytes: &[u8]) -> Result<(usize, &[u8]), Unread>
    ensures { Gives (λ x. (x.0, x.1.now)) result (name_length.read bytes.now) }
{
    let (length, rest) = u16_at(bytes)?;
    let length = usize::from(length);
    if 1 <= length && length <= NAME_LIMIT {
        Ok((length, rest))
    } else {
        Err(Unread::Refused(FormatFault::BadField))
    }
}

/// A name behind its length: its length is judged first, then its bytes must be there, and then they must
/// be a name.
#[tactic(auto, unfolding(crate::specs::Version1::name_field))]
fn name_at(alloc: Global, bytes: &[u8]) -> Result<(Name, &[u8]), Unread>
    ensures { Gives (λ x. (x.0, x.1.now)) result (name_field.read bytes.now) }
{
    let (length, rest) = name_length_at(bytes)?;
    let (text, rest) = bytes_at(length, rest)?;
    if !is_name(text) {
        return Err(Unread::Refused(FormatFault::BadField));
    }
    let name = Name::of(alloc, text)?;
    Ok((name, rest))
}

/// A port: its name, class, sign and width.
#[tactic(auto, unfolding(crate::specs::Version1::port_field))]
fn port_at(alloc: Global, bytes: &[u8]) -> Result<(Port, &[u8]), Unread>
    ensures { Gives (λ x. (x.0, x.1.now)) result (port_field.read bytes.now) }
{
    let (name, rest) = name_at(alloc, bytes)?;
    let (class, rest) = class_at(rest)?;
    let (signed, rest) = flag_at(rest)?;
    let (width, rest) = width_at(rest)?;
    Ok((
        Port {
            name,
            class,
            signed,
            width,
        },
        rest,
    ))
}

fn ports_at(alloc: Global, count: u64, bytes: &[u8]) -> Result<(Sequence<Port>, &[u8]), Unread>
    ensures { Gives (λ x. (x.0, x.1.now)) result ((repeated port_field count).read bytes.now) }
{
    let mut items = Sequence::new(alloc);
    let mut rest = bytes;
    for _ in 0..count {
        let (item, behind) = port_at(alloc, rest)?;
        items.push(item)?;
        rest = behind;
    }
    Ok((items, rest))
}

/// How many ports a face has, at most `PORT_LIMIT`.
fn port_count_at(bytes: &[u8]) -> Result<(u64, &[u8]), Unread>
    ensures { Gives (λ x. (x.0, x.1.now)) result (port_count.read bytes.now) }
{
    let (count, rest) = u16_at(bytes)?;
    if usize::from(count) <= PORT_LIMIT {
        Ok((u64::from(count), rest))
    } else {
        Err(Unread::Refused(FormatFault::BadField))
    }
}

/// A face: its name, and its ports behind their count.
#[tactic(auto, unfolding(crate::specs::Version1::face_field))]
pub fn face_at(alloc: Global, bytes: &[u8]) -> Result<(Face, &[u8]), Unread>
    ensures { Gives (λ x. (x.0, x.1.now)) result (face_field.read bytes.now) }
{
    let (name, rest) = name_at(alloc, bytes)?;
    let (count, rest) = port_count_at(rest)?;
    let (ports, rest) = ports_at(alloc, count, rest)?;
    Ok((Face { name, ports }, rest))
}

fn position_at(bytes: &[u8]) -> Result<(u32, &[u8]), Unread>
    ensures { Gives (λ x. (x.0, x.1.now)) result ((number w16).read bytes.now) }
{
    let (position, rest) = u16_at(bytes)?;
    Ok((u32::from(position), rest))
}

fn positions_at(alloc: Global, count: u64, bytes: &[u8]) -> Result<(Sequence<u32>, &[u8]), Unread>
    ensures { Gives (λ x. (x.0, x.1.now)) result ((repeated (number w16) count).read bytes.now) }
{
    let mut items = Sequence::new(alloc);
    let mut rest = bytes;
    for _ in 0..count {
        let (item, behind) = position_at(rest)?;
        items.push(item)?;
        rest = behind;
    }
    Ok((items, rest))
}

/// The row of an output: its positions behind their count.
#[tactic(auto, unfolding(crate::specs::Version1::row_field))]
fn row_at(alloc: Global, bytes: &[u8]) -> Result<(Sequence<u32>, &[u8]), Unread>
    ensures { Gives (λ x. (x.0, x.1.now)) result (row_field.read bytes.now) }
{
    let (count, rest) = u16_at(bytes)?;
    positions_at(alloc, u64::from(count), rest)
}

fn rows_at(
    alloc: Global,
    count: u64,
    bytes: &[u8],
) -> Result<(Sequence<Sequence<u32>>, &[u8]), Unread>
    ensures { Gives (λ x. (x.0, x.1.now)) result ((repeated row_field count).read bytes.now) }
{
    let mut items = Sequence::new(alloc);
    let mut rest = bytes;
    for _ in 0..count {
        let (item, behind) = row_at(alloc, rest)?;
        items.push(item)?;
        rest = behind;
    }
    Ok((items, rest))
}

/// A summary: a row for each output of a face.
#[tactic(auto, unfolding(crate::specs::Version1::summary_field))]
pub fn summary_at<'a>(
    alloc: Global,
    face: &Face,
    bytes: &'a [u8],
) -> Result<(Summary, &'a [u8]), Unread>
    ensures { Gives (λ x. (x.0, x.1.now)) result ((summary_field face.now).read bytes.now) }
{
    let (rows, rest) = rows_at(alloc, output_count(face) as u64, bytes)?;
    Ok((Summary { rows }, rest))
}

/// A register: its width, initial word, clock, edge and next slot.
#[tactic(auto, unfolding(crate::specs::Version1::register_field))]
fn register_at(bytes: &[u8]) -> Result<(Reg, &[u8]), Unread>
    ensures { Gives (λ x. (register_fields x.0, x.1.now)) result (register_field.read bytes.now) }
{
    let (width, rest) = width_at(bytes)?;
    let (init, rest) = word_at(width, rest)?;
    let (clock, rest) = u32_at(rest)?;
    let (falling, rest) = flag_at(rest)?;
    let (next, rest) = u64_at(rest)?;
    Ok((
        Reg {
            width,
            init,
            clock,
            falling,
            next,
        },
        rest,
    ))
}

fn each_register_at(
    alloc: Global,
    count: u64,
    bytes: &[u8],
) -> Result<(Sequence<Reg>, &[u8]), Unread>
    ensures { Gives (λ x. (map register_fields x.0, x.1.now)) result
        ((repeated register_field count).read bytes.now) }
{
    let mut items = Sequence::new(alloc);
    let mut rest = bytes;
    for _ in 0..count {
        let (item, behind) = register_at(rest)?;
        items.push(item)?;
        rest = behind;
    }
    Ok((items, rest))
}

/// Registers behind their count.
pub fn registers_at(alloc: Global, bytes: &[u8]) -> Result<(Sequence<Reg>, &[u8]), Unread>
    ensures { Gives (λ x. (map register_fields x.0, x.1.now)) result
        ((counted (number w64) register_field).read bytes.now) }
{
    let (count, rest) = u64_at(bytes)?;
    each_register_at(alloc, count, rest)
}

pub fn slots_at(alloc: Global, count: u64, bytes: &[u8]) -> Result<(Sequence<u64>, &[u8]), Unread>
    ensures { Gives (λ x. (x.0, x.1.now)) result ((repeated slot_field count).read bytes.now) }
{
    let mut items = Sequence::new(alloc);
    let mut rest = bytes;
    for _ in 0..count {
        let (item, behind) = u64_at(rest)?;
        items.push(item)?;
        rest = behind;
    }
    Ok((items, rest))
}

fn clocks_at(alloc: Global, count: u64, bytes: &[u8]) -> Result<(Sequence<u32>, &[u8]), Unread>
    ensures { Gives (λ x. (x.0, x.1.now)) result ((repeated (number w32) count).read bytes.now) }
{
    let mut items = Sequence::new(alloc);
    let mut rest = bytes;
    for _ in 0..count {
        let (item, behind) = u32_at(rest)?;
        items.push(item)?;
        rest = behind;
    }
    Ok((items, rest))
}

/// A child: its digest, face and summary, and what its data inputs and its clocks are joined to.
#[tactic(auto, unfolding(crate::specs::Version1::child_field))]
fn child_at(alloc: Global, bytes: &[u8]) -> Result<(Kid, &[u8]), Unread>
    ensures { Gives (λ x. (child_fields x.0, x.1.now)) result (child_field.read bytes.now) }
{
    let (digest, rest) = digest_at(bytes)?;
    let (face, rest) = face_at(alloc, rest)?;
    let (summary, rest) = summary_at(alloc, &face, rest)?;
    let (ins, rest) = slots_at(alloc, input_count(&face) as u64, rest)?;
    let (clocks, rest) = clocks_at(alloc, clock_count(&face) as u64, rest)?;
    Ok((
        Kid {
            digest,
            face,
            summary,
            ins,
            clocks,
        },
        rest,
    ))
}

fn each_child_at(alloc: Global, count: u64, bytes: &[u8]) -> Result<(Sequence<Kid>, &[u8]), Unread>
    ensures { Gives (λ x. (map child_fields x.0, x.1.now)) result
        ((repeated child_field count).read bytes.now) }
{
    let mut items = Sequence::new(alloc);
    let mut rest = bytes;
    for _ in 0..count {
        let (item, behind) = child_at(alloc, rest)?;
        items.push(item)?;
        rest = behind;
    }
    Ok((items, rest))
}

/// Children behind their count.
pub fn children_at(alloc: Global, bytes: &[u8]) -> Result<(Sequence<Kid>, &[u8]), Unread>
    ensures { Gives (λ x. (map child_fields x.0, x.1.now)) result
        ((counted (number w32) child_field).read bytes.now) }
{
    let (count, rest) = u32_at(bytes)?;
    each_child_at(alloc, u64::from(count), rest)
}

/// The slot of the condition, where the operation is a choice, and else 0.
fn condition_at(op: Op, bytes: &[u8]) -> Result<(u64, &[u8]), Unread>
    ensures read { Gives (λ x. (x.0, x.1.now)) result
        ((where_it_is (nat_lt 2 (operand_count op)) slot_field).read bytes.now) }
    ensures none { IfOk result (λ x. operand_count op ≤ 2 → x.0 ≡ 0) }
{
    if operand_count(op) > 2 {
        u64_at(bytes)
    } else {
        Ok((0, bytes))
    }
}

/// The slot of the first operand, where the operation has one, and else 0.
fn first_at(op: Op, bytes: &[u8]) -> Result<(u64, &[u8]), Unread>
    ensures read { Gives (λ x. (x.0, x.1.now)) result
        ((where_it_is (nat_lt 0 (operand_count op)) slot_field).read bytes.now) }
    ensures none { IfOk result (λ x. operand_count op ≤ 0 → x.0 ≡ 0) }
{
    if operand_count(op) > 0 {
        u64_at(bytes)
    } else {
        Ok((0, bytes))
    }
}

/// The slot of the second operand, where the operation has one, and else 0.
fn second_at(op: Op, bytes: &[u8]) -> Result<(u64, &[u8]), Unread>
    ensures read { Gives (λ x. (x.0, x.1.now)) result
        ((where_it_is (nat_lt 1 (operand_count op)) slot_field).read bytes.now) }
    ensures none { IfOk result (λ x. operand_count op ≤ 1 → x.0 ≡ 0) }
{
    if operand_count(op) > 1 {
        u64_at(bytes)
    } else {
        Ok((0, bytes))
    }
}

/// The lowest position, where the operation names one, and else 0.
fn lowest_at(op: Op, bytes: &[u8]) -> Result<(u8, &[u8]), Unread>
    ensures read { Gives (λ x. (x.0, x.1.now)) result
        ((where_it_is (names_position op) (number w8)).read bytes.now) }
    ensures none { IfOk result (λ x. IsFalse (names_position op) → x.0 ≡ 0) }
{
    if names_position(op) {
        u8_at(bytes)
    } else {
        Ok((0, bytes))
    }
}

/// The word of a constant, and 0 where the operation is another.
fn constant_at(op: Op, width: u32, bytes: &[u8]) -> Result<(Word, &[u8]), Unread>
    requires { IsWidth width }
    ensures read { Gives (λ x. (x.0, x.1.now)) result
        ((where_it_is (is_constant op) (word_field width)).read bytes.now) }
    ensures fits { IfOk result (λ x. x.0 < 2 ^ width) }
    ensures none { IfOk result (λ x. IsFalse (is_constant op) → x.0 ≡ 0) }
{
    if is_constant(op) {
        word_at(width, bytes)
    } else {
        Ok((0, bytes))
    }
}

/// The instruction of an operation and a width, which takes what stands here.
#[tactic(auto, unfolding(crate::specs::Version1::operands_field))]
fn operands_at(op: Op, width: u32, bytes: &[u8]) -> Result<(Instr, &[u8]), Unread>
    requires { IsWidth width }
    ensures read { Gives (λ x. (operand_fields x.0, x.1.now)) result
        ((operands_field op width).read bytes.now) }
    ensures op { IfOk result (λ x. x.0.op ≡ op) }
    ensures width { IfOk result (λ x. x.0.width ≡ width) }
{
    let (c, rest) = condition_at(op, bytes)?;
    let (a, rest) = first_at(op, rest)?;
    let (b, rest) = second_at(op, rest)?;
    let (lo, rest) = lowest_at(op, rest)?;
    let (value, rest) = constant_at(op, width, rest)?;
    Ok((
        Instr {
            op,
            width,
            a,
            b,
            c,
            lo: u32::from(lo),
            value,
        },
        rest,
    ))
}

/// An instruction: its operation, its width, and what it takes.
#[tactic(auto, unfolding(crate::specs::Version1::instruction_field))]
fn instruction_at(bytes: &[u8]) -> Result<(Instr, &[u8]), Unread>
    ensures { Gives (λ x. (instruction_fields x.0, x.1.now)) result (instruction_field.read bytes.now) }
{
    let (op, rest) = operation_at(bytes)?;
    let (width, rest) = width_at(rest)?;
    let (instruction, rest) = operands_at(op, width, rest)?;
    Ok((instruction, rest))
}

fn each_instruction_at(
    alloc: Global,
    count: u64,
    bytes: &[u8],
) -> Result<(Sequence<Instr>, &[u8]), Unread>
    ensures { Gives (λ x. (map instruction_fields x.0, x.1.now)) result
        ((repeated instruction_field count).read bytes.now) }
{
    let mut items = Sequence::new(alloc);
    let mut rest = bytes;
    for _ in 0..count {
        let (item, behind) = instruction_at(rest)?;
        items.push(item)?;
        rest = behind;
    }
    Ok((items, rest))
}

/// Instructions behind their count.
pub fn code_at(alloc: Global, bytes: &[u8]) -> Result<(Sequence<Instr>, &[u8]), Unread>
    ensures { Gives (λ x. (map instruction_fields x.0, x.1.now)) result
        ((counted (number w64) instruction_field).read bytes.now) }
{
    let (count, rest) = u64_at(bytes)?;
    each_instruction_at(alloc, count, rest)
}
