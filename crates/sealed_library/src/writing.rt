//! Writing the fields of a machine.

ghost use Rattle.std.specs.Prelude.{◌≡◌, ◌<◌, ◌≤◌, ◌^◌, nat_lt, length, map, All, OnOk};
ghost use Rattle.std.specs.Int.{w8, w16, w32, w64};
ghost use Rattle.bit_ops.specs.Width.{IsWidth};
ghost use Rattle.code_isa.specs.Faces.{IsName, IsPort, IsFace, IsSummary};
ghost use Rattle.code_isa.specs.Operands.{operand_count, names_position, is_constant};
ghost use Rattle.sealed_library.specs.Fields.{number, bytes_of, repeated, counted};
ghost use Rattle.sealed_library.specs.Version1.{name_field, width_field, word_field, slot_field, class_field, flag_field, operation_field, port_field, face_field, row_field, summary_field, register_field, register_fields, child_field, child_fields, where_it_is, operands_field, operand_fields, instruction_field, instruction_fields, parts_field, part_fields, machine_field, machine_fields};
ghost use Rattle.sealed_library.specs.declared.limits.TheConstants.{DIGEST_LENGTH};
ghost use Rattle.sealed_library.specs.code.Writing.{Writes};

use crate::operations::{is_constant, names_position, operand_count, operation_number};
use bit_ops::{Op, Word};
use code_isa::{Instr, Kid, Machine, Reg};
use std::alloc::AllocError;
use sv_base::{Class, Face, Name, Port, Sequence, Summary};

fn push_u8(into: &mut Vec<u8>, n: u8) -> Result<(), AllocError>
    ensures { OnOk result (Writes (number w8) into.old.items into.new.items n) }
{
    into.push(n)?;
    Ok(())
}

fn push_u16(into: &mut Vec<u8>, n: u16) -> Result<(), AllocError>
    ensures { OnOk result (Writes (number w16) into.old.items into.new.items n) }
{
    into.extend_from_slice(&n.to_be_bytes())
}

fn push_u32(into: &mut Vec<u8>, n: u32) -> Result<(), AllocError>
    ensures { OnOk result (Writes (number w32) into.old.items into.new.items n) }
{
    into.extend_from_slice(&n.to_be_bytes())
}

fn push_u64(into: &mut Vec<u8>, n: u64) -> Result<(), AllocError>
    ensures { OnOk result (Writes (number w64) into.old.items into.new.items n) }
{
    into.extend_from_slice(&n.to_be_bytes())
}

#[tactic(auto, unfolding(crate::specs::Version1::name_field))]
fn push_name(into: &mut Vec<u8>, name: &Name) -> Result<(), AllocError>
    requires { IsName name.now }
    ensures { OnOk result (Writes name_field into.old.items into.new.items name.now) }
{
    let bytes = name.bytes();
    push_u16(into, bytes.len() as u16)?;
    into.extend_from_slice(bytes)
}

#[tactic(auto, unfolding(crate::specs::Version1::width_field))]
fn push_width(into: &mut Vec<u8>, width: u32) -> Result<(), AllocError>
    requires { IsWidth width }
    ensures { OnOk result (Writes width_field into.old.items into.new.items width) }
{
    push_u8(into, width as u8)
}

#[tactic(auto, unfolding(crate::specs::Version1::word_field))]
fn push_word(into: &mut Vec<u8>, width: u32, word: Word) -> Result<(), AllocError>
    requires { word < 2 ^ width }
    ensures { OnOk result (Writes (word_field width) into.old.items into.new.items word) }
{
    push_u64(into, word)
}

#[tactic(auto, unfolding(crate::specs::Version1::class_field))]
fn push_class(into: &mut Vec<u8>, class: Class) -> Result<(), AllocError>
    ensures { OnOk result (Writes class_field into.old.items into.new.items class) }
{
    let byte = match class {
        Class::Value => 0,
        Class::Clock => 1,
        Class::Idle => 2,
        Class::Output => 3,
    };
    push_u8(into, byte)
}

#[tactic(auto, unfolding(crate::specs::Version1::flag_field))]
fn push_flag(into: &mut Vec<u8>, flag: bool) -> Result<(), AllocError>
    ensures { OnOk result (Writes flag_field into.old.items into.new.items flag) }
{
    push_u8(into, if flag { 1 } else { 0 })
}

/// Adds a port: its name, class, sign and width.
#[tactic(auto, unfolding(crate::specs::Version1::port_field))]
fn push_port(into: &mut Vec<u8>, port: &Port) -> Result<(), AllocError>
    requires { IsPort port.now }
    ensures { OnOk result (Writes port_field into.old.items into.new.items port.now) }
{
    push_name(into, &port.name)?;
    push_class(into, port.class)?;
    push_flag(into, port.signed)?;
    push_width(into, port.width)
}

fn push_ports(into: &mut Vec<u8>, ports: &[Port]) -> Result<(), AllocError>
    requires { All IsPort ports.now }
    ensures { OnOk result
        (Writes (repeated port_field (length ports.now)) into.old.items into.new.items ports.now) }
{
    for port in ports {
        push_port(into, port)?;
    }
    Ok(())
}

/// Adds a face: its name, and its ports behind their count.
#[tactic(auto, unfolding(crate::specs::Version1::face_field))]
fn push_face(into: &mut Vec<u8>, face: &Face) -> Result<(), AllocError>
    requires { IsFace face.now }
    ensures { OnOk result (Writes face_field into.old.items into.new.items face.now) }
{
    push_name(into, &face.name)?;
    push_u16(into, face.ports.len() as u16)?;
    push_ports(into, face.ports.as_slice())
}

fn push_positions(into: &mut Vec<u8>, row: &[u32]) -> Result<(), AllocError>
    requires { All (λ p. p < 2 ^ 16) row.now }
    ensures { OnOk result
        (Writes (repeated (number w16) (length row.now)) into.old.items into.new.items row.now) }
{
    for position in row {
        push_u16(into, *position as u16)?;
    }
    Ok(())
}

/// Adds the row of an output: its positions behind their count.
#[tactic(auto, unfolding(crate::specs::Version1::row_field))]
fn push_row(into: &mut Vec<u8>, row: &[u32]) -> Result<(), AllocError>
    requires short { length row.now < 2 ^ 16 }
    requires positions { All (λ p. p < 2 ^ 16) row.now }
    ensures { OnOk result (Writes row_field into.old.items into.new.items row.now) }
{
    push_u16(into, row.len() as u16)?;
    push_positions(into, row)
}

fn push_rows(into: &mut Vec<u8>, rows: &[Sequence<u32>]) -> Result<(), AllocError>
    requires short { All (λ row. length row < 2 ^ 16) rows.now }
    requires positions { All (λ row. All (λ p. p < 2 ^ 16) row) rows.now }
    ensures { OnOk result
        (Writes (repeated row_field (length rows.now)) into.old.items into.new.items rows.now) }
{
    for row in rows {
        push_row(into, row.as_slice())?;
    }
    Ok(())
}

/// Adds a row for each output of a face.
#[tactic(auto, unfolding(crate::specs::Version1::summary_field))]
fn push_summary(into: &mut Vec<u8>, face: &Face, summary: &Summary) -> Result<(), AllocError>
    requires { IsSummary face.now summary.now }
    ensures { OnOk result (Writes (summary_field face.now) into.old.items into.new.items summary.now) }
{
    push_rows(into, summary.rows.as_slice())
}

/// Adds a register: its width, initial word, clock, edge and next slot.
#[tactic(auto, unfolding(crate::specs::Version1::register_field))]
fn push_register(into: &mut Vec<u8>, r: &Reg) -> Result<(), AllocError>
    ensures { OnOk result (Writes register_field into.old.items into.new.items (register_fields r.now)) }
{
    push_width(into, r.width)?;
    push_word(into, r.width, r.init)?;
    push_u32(into, r.clock)?;
    push_flag(into, r.falling)?;
    push_u64(into, r.next)
}

fn push_each_register(into: &mut Vec<u8>, regs: &[Reg]) -> Result<(), AllocError>
    ensures { OnOk result
        (Writes (repeated register_field (length regs.now))
        into.old.items into.new.items (map register_fields regs.now)) }
{
    for item in regs {
        push_register(into, item)?;
    }
    Ok(())
}

/// Adds registers behind their count.
fn push_registers(into: &mut Vec<u8>, regs: &[Reg]) -> Result<(), AllocError>
    ensures { OnOk result
        (Writes (counted (number w64) register_field)
        into.old.items into.new.items (map register_fields regs.now)) }
{
    push_u64(into, regs.len() as u64)?;
    push_each_register(into, regs)
}

fn push_slots(into: &mut Vec<u8>, slots: &[u64]) -> Result<(), AllocError>
    ensures { OnOk result
        (Writes (repeated slot_field (length slots.now)) into.old.items into.new.items slots.now) }
{
    for slot in slots {
        push_u64(into, *slot)?;
    }
    Ok(())
}

fn push_clocks(into: &mut Vec<u8>, clocks: &[u32]) -> Result<(), AllocError>
    ensures { OnOk result
        (Writes (repeated (number w32) (length clocks.now)) into.old.items into.new.items clocks.now) }
{
    for clock in clocks {
        push_u32(into, *clock)?;
    }
    Ok(())
}

fn push_digest(into: &mut Vec<u8>, digest: &[u8; 32]) -> Result<(), AllocError>
    ensures { OnOk result (Writes (bytes_of DIGEST_LENGTH) into.old.items into.new.items digest.now) }
{
    into.extend_from_slice(digest)
}

/// Adds a child: its digest, face and summary, and what its data inputs and its clocks are joined to.
#[tactic(auto, unfolding(crate::specs::Version1::child_field))]
fn push_child(into: &mut Vec<u8>, kid: &Kid) -> Result<(), AllocError>
    ensures { OnOk result (Writes child_field into.old.items into.new.items (child_fields kid.now)) }
{
    push_digest(into, &kid.digest)?;
    push_face(into, &kid.face)?;
    push_summary(into, &kid.face, &kid.summary)?;
    push_slots(into, kid.ins.as_slice())?;
    push_clocks(into, kid.clocks.as_slice())
}

fn push_each_child(into: &mut Vec<u8>, kids: &[Kid]) -> Result<(), AllocError>
    ensures { OnOk result
        (Writes (repeated child_field (length kids.now))
        into.old.items into.new.items (map child_fields kids.now)) }
{
    for item in kids {
        push_child(into, item)?;
    }
    Ok(())
}

/// Adds children behind their count.
fn push_children(into: &mut Vec<u8>, kids: &[Kid]) -> Result<(), AllocError>
    requires { length kids.now < 2 ^ 32 }
    ensures { OnOk result
        (Writes (counted (number w32) child_field)
        into.old.items into.new.items (map child_fields kids.now)) }
{
    push_u32(into, kids.len() as u32)?;
    push_each_child(into, kids)
}

#[tactic(auto, unfolding(crate::specs::Version1::operation_field))]
fn push_operation(into: &mut Vec<u8>, op: Op) -> Result<(), AllocError>
    ensures { OnOk result (Writes operation_field into.old.items into.new.items op) }
{
    push_u8(into, operation_number(op))
}

/// Adds the slot of the condition, where the operation is a choice.
fn push_condition(into: &mut Vec<u8>, i: &Instr) -> Result<(), AllocError>
    ensures { OnOk result (Writes (where_it_is (nat_lt 2 (operand_count i.now.op)) slot_field)
        into.old.items into.new.items i.now.c) }
{
    if operand_count(i.op) > 2 {
        push_u64(into, i.c)
    } else {
        Ok(())
    }
}

/// Adds the slot of the first operand, where the operation has one.
fn push_first(into: &mut Vec<u8>, i: &Instr) -> Result<(), AllocError>
    ensures { OnOk result (Writes (where_it_is (nat_lt 0 (operand_count i.now.op)) slot_field)
        into.old.items into.new.items i.now.a) }
{
    if operand_count(i.op) > 0 {
        push_u64(into, i.a)
    } else {
        Ok(())
    }
}

/// Adds the slot of the second operand, where the operation has one.
fn push_second(into: &mut Vec<u8>, i: &Instr) -> Result<(), AllocError>
    ensures { OnOk result (Writes (where_it_is (nat_lt 1 (operand_count i.now.op)) slot_field)
        into.old.items into.new.items i.now.b) }
{
    if operand_count(i.op) > 1 {
        push_u64(into, i.b)
    } else {
        Ok(())
    }
}

/// Adds the lowest position, where the operation names one.
fn push_lowest(into: &mut Vec<u8>, i: &Instr) -> Result<(), AllocError>
    ensures { OnOk result (Writes (where_it_is (names_position i.now.op) (number w8))
        into.old.items into.new.items i.now.lo) }
{
    if names_position(i.op) {
        push_u8(into, i.lo as u8)
    } else {
        Ok(())
    }
}

/// Adds the word, where the operation is the constant.
fn push_constant(into: &mut Vec<u8>, i: &Instr) -> Result<(), AllocError>
    ensures { OnOk result (Writes (where_it_is (is_constant i.now.op) (word_field i.now.width))
        into.old.items into.new.items i.now.value) }
{
    if is_constant(i.op) {
        push_word(into, i.width, i.value)
    } else {
        Ok(())
    }
}

/// Adds what an instruction takes.
#[tactic(auto, unfolding(crate::specs::Version1::operands_field))]
fn push_operands(into: &mut Vec<u8>, i: &Instr) -> Result<(), AllocError>
    ensures { OnOk result (Writes (operands_field i.now.op i.now.width)
        into.old.items into.new.items (operand_fields i.now)) }
{
    push_condition(into, i)?;
    push_first(into, i)?;
    push_second(into, i)?;
    push_lowest(into, i)?;
    push_constant(into, i)
}

/// Adds an instruction: its operation, its width, and what it takes.
#[tactic(auto, unfolding(crate::specs::Version1::instruction_field))]
fn push_instruction(into: &mut Vec<u8>, i: &Instr) -> Result<(), AllocError>
    ensures { OnOk result
        (Writes instruction_field into.old.items into.new.items (instruction_fields i.now)) }
{
    push_operation(into, i.op)?;
    push_width(into, i.width)?;
    push_operands(into, i)
}

fn push_each_instruction(into: &mut Vec<u8>, code: &[Instr]) -> Result<(), AllocError>
    ensures { OnOk result
        (Writes (repeated instruction_field (length code.now))
        into.old.items into.new.items (map instruction_fields code.now)) }
{
    for item in code {
        push_instruction(into, item)?;
    }
    Ok(())
}

/// Adds instructions behind their count.
fn push_code(into: &mut Vec<u8>, code: &[Instr]) -> Result<(), AllocError>
    ensures { OnOk result
        (Writes (counted (number w64) instruction_field)
        into.old.items into.new.items (map instruction_fields code.now)) }
{
    push_u64(into, code.len() as u64)?;
    push_each_instruction(into, code)
}

/// Adds the registers, the children, the code and the slots of the outputs of a machine.
#[tactic(auto, unfolding(crate::specs::Version1::parts_field))]
fn push_parts(into: &mut Vec<u8>, m: &Machine) -> Result<(), AllocError>
    ensures { OnOk result
        (Writes (parts_field m.now.face) into.old.items into.new.items (part_fields m.now)) }
{
    push_registers(into, m.regs.as_slice())?;
    push_children(into, m.kids.as_slice())?;
    push_code(into, m.code.as_slice())?;
    push_slots(into, m.outs.as_slice())
}

/// Adds all fields of a machine.
#[tactic(auto, unfolding(crate::specs::Version1::machine_field))]
pub fn push_machine(into: &mut Vec<u8>, m: &Machine) -> Result<(), AllocError>
    ensures { OnOk result (Writes machine_field into.old.items into.new.items (machine_fields m.now)) }
{
    push_face(into, &m.face)?;
    push_summary(into, &m.face, &m.summary)?;
    push_u32(into, m.chain)?;
    push_parts(into, m)
}
