//! Machines.

ghost use Rattle.std.specs.Prelude.{◌≡◌, ◌<◌, ◌^◌, length, IsFalse, IfOk};
ghost use Rattle.bit_ops.specs.Width.{IsWidth};
ghost use Rattle.code_isa.specs.Operands.{operand_count, names_position, is_constant};

use crate::face::{clock_count, output_count, read_face, read_summary};
use crate::fault::TextFault;
use crate::words::Words;
use bit_ops::{Op, Word};
use code_isa::{Instr, Kid, Machine, Reg, input_count};
use std::alloc::Global;
use sv_base::Sequence;

const OPERATIONS: [(&str, Op); 28] = [
    ("Const", Op::Const),
    ("Zext", Op::Zext),
    ("Sext", Op::Sext),
    ("Slice", Op::Slice),
    ("Concat", Op::Concat),
    ("Not", Op::Not),
    ("Neg", Op::Neg),
    ("And", Op::And),
    ("Or", Op::Or),
    ("Xor", Op::Xor),
    ("Add", Op::Add),
    ("Sub", Op::Sub),
    ("Mul", Op::Mul),
    ("DivU", Op::DivU),
    ("DivS", Op::DivS),
    ("ModU", Op::ModU),
    ("ModS", Op::ModS),
    ("Shl", Op::Shl),
    ("ShrU", Op::ShrU),
    ("ShrS", Op::ShrS),
    ("Eq", Op::Eq),
    ("LtU", Op::LtU),
    ("LtS", Op::LtS),
    ("RedAnd", Op::RedAnd),
    ("RedOr", Op::RedOr),
    ("RedXor", Op::RedXor),
    ("Mux", Op::Mux),
    ("Insert", Op::Insert),
];

fn read_operation(words: &mut Words<'_>) -> Result<Op, TextFault> {
    let word = words.word();
    for (name, op) in &OPERATIONS {
        if name.as_bytes() == word {
            return Ok(*op);
        }
    }
    Err(TextFault::WrongWord)
}

/// How many slots an operation has as operands.
fn operand_count(op: Op) -> usize
    ensures { result ≡ operand_count op }
{
    match op {
        Op::Const => 0,
        Op::Zext | Op::Sext | Op::Slice | Op::Not | Op::Neg => 1,
        Op::RedAnd | Op::RedOr | Op::RedXor => 1,
        Op::Mux => 3,
        _ => 2,
    }
}

fn names_position(op: Op) -> bool
    ensures { result ≡ names_position op }
{
    matches!(op, Op::Slice | Op::Insert)
}

fn is_constant(op: Op) -> bool
    ensures { result ≡ is_constant op }
{
    matches!(op, Op::Const)
}

/// The position that an operation names, and 0 where it names none.
fn read_position(words: &mut Words<'_>, op: Op) -> Result<u32, TextFault>
    ensures low { IfOk result (λ lo. lo < 2 ^ 8) }
    ensures none { IfOk result (λ lo. IsFalse (names_position op) → lo ≡ 0) }
{
    if names_position(op) {
        Ok(words.below(256)? as u32)
    } else {
        Ok(0)
    }
}

/// The word of a constant, and 0 where the operation is another.
fn read_value(words: &mut Words<'_>, op: Op, width: u32) -> Result<Word, TextFault>
    requires { IsWidth width }
    ensures fits { IfOk result (λ value. value < 2 ^ width) }
    ensures none { IfOk result (λ value. IsFalse (is_constant op) → value ≡ 0) }
{
    if is_constant(op) {
        words.value(width)
    } else {
        Ok(0)
    }
}

/// An instruction: its operation, its width, its operands in their order, and then its position or its value.
fn read_instruction(words: &mut Words<'_>) -> Result<Instr, TextFault> {
    let op = read_operation(words)?;
    let width = words.width()?;
    let count = operand_count(op);
    let c = words.number_if(count > 2)?;
    let a = words.number_if(count > 0)?;
    let b = words.number_if(count > 1)?;
    let lo = read_position(words, op)?;
    let value = read_value(words, op, width)?;
    Ok(Instr {
        op,
        width,
        a,
        b,
        c,
        lo,
        value,
    })
}

fn read_code(alloc: Global, words: &mut Words<'_>) -> Result<Sequence<Instr>, TextFault> {
    let count = words.number()?;
    let mut code = Sequence::new(alloc);
    for _ in 0..count {
        code.push(read_instruction(words)?)?;
    }
    Ok(code)
}

/// A register: its width, its first word, the position of its clock, 1 where its edge is the falling one and else 0, and
/// its next slot.
fn read_register(words: &mut Words<'_>) -> Result<Reg, TextFault> {
    let width = words.width()?;
    let init = words.value(width)?;
    let clock = words.below(0x1_0000_0000)? as u32;
    let falling = words.below(2)? == 1;
    let next = words.number()?;
    Ok(Reg {
        width,
        init,
        clock,
        falling,
        next,
    })
}

fn read_registers(alloc: Global, words: &mut Words<'_>) -> Result<Sequence<Reg>, TextFault> {
    let count = words.number()?;
    let mut regs = Sequence::new(alloc);
    for _ in 0..count {
        regs.push(read_register(words)?)?;
    }
    Ok(regs)
}

/// This many slots.
fn read_slots(
    alloc: Global,
    words: &mut Words<'_>,
    count: usize,
) -> Result<Sequence<u64>, TextFault>
    ensures { IfOk result (λ slots. length slots ≡ count) }
{
    let mut slots = Sequence::new(alloc);
    for _ in 0..count {
        slots.push(words.number()?)?;
    }
    Ok(slots)
}

/// The positions of this many clocks.
fn read_clocks(
    alloc: Global,
    words: &mut Words<'_>,
    count: usize,
) -> Result<Sequence<u32>, TextFault>
    ensures { IfOk result (λ clocks. length clocks ≡ count) }
{
    let mut clocks = Sequence::new(alloc);
    for _ in 0..count {
        clocks.push(words.below(0x1_0000_0000)? as u32)?;
    }
    Ok(clocks)
}

/// A child: its face, its summary, a slot for each of its data inputs, and a position for each of its clocks. Its digest
/// is 0.
fn read_kid(alloc: Global, words: &mut Words<'_>) -> Result<Kid, TextFault> {
    let face = read_face(alloc, words)?;
    let summary = read_summary(alloc, words, &face)?;
    let ins = read_slots(alloc, words, input_count(&face))?;
    let clocks = read_clocks(alloc, words, clock_count(&face))?;
    Ok(Kid {
        digest: [0; 32],
        face,
        summary,
        ins,
        clocks,
    })
}

fn read_kids(alloc: Global, words: &mut Words<'_>) -> Result<Sequence<Kid>, TextFault>
    ensures { IfOk result (λ kids. length kids < 2 ^ 32) }
{
    let count = words.below(0x1_0000_0000)?;
    let mut kids = Sequence::new(alloc);
    for _ in 0..count {
        kids.push(read_kid(alloc, words)?)?;
    }
    Ok(kids)
}

/// A machine from the next words, in the order of its fields. A list has the number of its items before them, but where
/// the face has that number: the rows of a summary, the slots of outputs, and what a child is joined to. Numbers are
/// decimal.
pub fn read_machine(alloc: Global, words: &mut Words<'_>) -> Result<Machine, TextFault> {
    let face = read_face(alloc, words)?;
    let summary = read_summary(alloc, words, &face)?;
    let chain = words.below(0xffff_ffff)? as u32;
    let regs = read_registers(alloc, words)?;
    let kids = read_kids(alloc, words)?;
    let code = read_code(alloc, words)?;
    let outs = read_slots(alloc, words, output_count(&face))?;
    Ok(Machine {
        face,
        summary,
        chain,
        regs,
        kids,
        code,
        outs,
    })
}
