ghost use Rattle.std.specs.Prelude.{◌≡◌, ◌≤◌, ◌+◌, ◌<◌, ◌^◌, [], ◌∷◌, false, IfOk, length, replicate, slice_set, if◌then◌else◌, codes};
ghost use Rattle.sv_base.specs.declared.face.Class.TheVariants as class;
ghost use Rattle.bit_ops.specs.Lists.{words, widths};
ghost use Rattle.code_isa.specs.Faces.{IsFace};
ghost use Rattle.bit_ops.specs.Width.{IsWidth, WidthsFit};
ghost use Rattle.code_isa.specs.Operands.{operand_count, is_constant};
ghost use Rattle.code_isa.specs.Slots.{slot_widths, first_instruction};
ghost use Rattle.code_isa.specs.Values.{IsRun};
ghost use Rattle.code_isa.specs.Uses.{AreUsesOf};
ghost use Rattle.code_isa.specs.Activity.{HaveValuesBut};

use crate::run::value;
use crate::{Checked, Instr, Machine, Marks, Uses, mark, run_marked, run_slots, uses_of};
use bit_ops::{Bits, Op, Word};
use std::alloc::{AllocError, Global};
use std::process::Abort;
use std::test::Fail;
use sv_base::{Class, Face, Name, Port, Sequence, Summary};

fn port(alloc: Global, name: &[u8], class: Class) -> Result<Port, AllocError>
    ensures { IfOk result (λ p. p ≡ record { name = name.now; class = class; signed = false; width = 1 }) }
{
    Ok(Port {
        name: Name::of(alloc, name)?,
        class,
        signed: false,
        width: 1,
    })
}

fn ports(alloc: Global) -> Result<Sequence<Port>, AllocError>
    ensures { IfOk result (λ ps. ps ≡ record { name = codes "a"; class = class.Value; signed = false; width = 1 } ∷ record { name = codes "y"; class = class.Output; signed = false; width = 1 } ∷ []) }
{
    let mut ports = Sequence::new(alloc);
    ports.push(port(alloc, b"a", Class::Value)?)?;
    ports.push(port(alloc, b"y", Class::Output)?)?;
    Ok(ports)
}

fn face(alloc: Global) -> Result<Face, AllocError>
    ensures ports { IfOk result (λ f. f.ports ≡ record { name = codes "a"; class = class.Value; signed = false; width = 1 } ∷ record { name = codes "y"; class = class.Output; signed = false; width = 1 } ∷ []) }
    ensures fits { IfOk result IsFace }
{
    Ok(Face {
        name: Name::of(alloc, b"inv")?,
        ports: ports(alloc)?,
    })
}

fn summary(alloc: Global) -> Result<Summary, AllocError>
    ensures { IfOk result (λ s. s.rows ≡ (0 ∷ []) ∷ []) }
{
    let mut row = Sequence::new(alloc);
    row.push(0)?;
    let mut rows = Sequence::new(alloc);
    rows.push(row)?;
    Ok(Summary { rows })
}

fn outs(alloc: Global) -> Result<Sequence<u64>, AllocError>
    ensures { IfOk result (λ s. s ≡ 1 ∷ []) }
{
    let mut outs = Sequence::new(alloc);
    outs.push(1)?;
    Ok(outs)
}

/// This many times the same instruction.
fn repeated(alloc: Global, i: Instr, count: usize) -> Result<Sequence<Instr>, AllocError>
    ensures { IfOk result (λ code. code ≡ replicate count i) }
{
    let mut code = Sequence::new(alloc);
    for _ in 0..count {
        code.push(i)?;
    }
    Ok(code)
}

/// Inverters of one data input, of which the one output shows the first.
fn inverters(alloc: Global, count: usize) -> Result<Checked, AllocError>
    requires { 1 ≤ count }
    ensures shape { IfOk result (λ m. slot_widths m ≡ replicate (count + 1) 1) }
    ensures first { IfOk result (λ m. first_instruction m ≡ 1) }
{
    let not = Instr {
        op: Op::Not,
        width: 1,
        a: 0,
        b: 0,
        c: 0,
        lo: 0,
        value: 0,
    };
    let face = face(alloc)?;
    let summary = summary(alloc)?;
    let code = repeated(alloc, not, count)?;
    let outs = outs(alloc)?;
    Ok(Checked::of(Machine {
        face,
        summary,
        chain: 0,
        regs: Sequence::new(alloc),
        kids: Sequence::new(alloc),
        code,
        outs,
    }))
}

/// Slots of these inverters with this word at the data input, and 0 at the instructions.
fn slots(alloc: Global, count: usize, word: bool) -> Result<Vec<Bits>, AllocError>
    ensures { IfOk result (λ slots. widths slots.items ≡ replicate (count + 1) 1) }
{
    let mut slots = Vec::new(alloc);
    slots.push(Bits::flag(word))?;
    for _ in 0..count {
        slots.push(Bits::zero(1))?;
    }
    Ok(slots)
}

/// Gives the data input this word.
fn set_input(slots: &mut Vec<Bits>, count: usize, word: bool)
    requires { widths slots.old.items ≡ replicate (count + 1) 1 }
    ensures shape { widths slots.new.items ≡ replicate (count + 1) 1 }
    ensures words { words slots.new.items ≡ slice_set (words slots.old.items) 0 (if word then 1 else 0) }
{
    slots[0] = Bits::flag(word);
}

/// Runs these inverters with this word at the data input.
fn run(m: &Checked, slots: &mut Vec<Bits>, count: usize, word: bool)
    requires machine { slot_widths m.now ≡ replicate (count + 1) 1 }
    requires shape { widths slots.old.items ≡ replicate (count + 1) 1 }
    ensures shape { widths slots.new.items ≡ replicate (count + 1) 1 }
    ensures run { IsRun m.now (words slots.new.items) }
{
    set_input(slots, count, word);
    run_slots(m.machine(), slots);
}

/// Gives the data input this word, and does what that changes.
fn change(
    m: &Checked,
    uses: &Uses,
    slots: &mut Vec<Bits>,
    marks: &mut Marks,
    count: usize,
    word: bool,
) -> u64
    requires machine { slot_widths m.now ≡ replicate (count + 1) 1 }
    requires first { first_instruction m.now ≡ 1 }
    requires uses { AreUsesOf m.now uses.now.rows }
    requires shape { widths slots.old.items ≡ replicate (count + 1) 1 }
    requires marks { length marks.old ≡ length m.now.code }
    requires settled { HaveValuesBut m.now marks.old (words slots.old.items) }
    ensures shape { widths slots.new.items ≡ replicate (count + 1) 1 }
    ensures marks { length marks.new ≡ length m.now.code }
    ensures settled { HaveValuesBut m.now marks.new (words slots.new.items) }
{
    set_input(slots, count, word);
    mark(m, uses, 0, marks);
    run_marked(m, uses, slots, marks)
}

/// The word of a slot.
fn word_at(rt: &impl Abort, slots: &[Bits], at: usize) -> u64 {
    assert!(rt; at < slots.len());
    slots[at].word
}

#[test]
fn an_inverter_runs(rt: HostRuntime) -> Result<(), Fail> {
    let m = inverters(rt.alloc(), 1)?;
    let mut values = slots(rt.alloc(), 1, false)?;
    run(&m, &mut values, 1, true);
    assert_eq!(rt; word_at(&rt, &values, 1), 0);
    run(&m, &mut values, 1, false);
    assert_eq!(rt; word_at(&rt, &values, 1), 1);
    Ok(())
}

#[test]
fn a_marked_inverter_runs(rt: HostRuntime) -> Result<(), Fail> {
    let m = inverters(rt.alloc(), 1)?;
    let uses = uses_of(rt.alloc(), &m)?;
    let mut marks = Marks::new(rt.alloc(), &m)?;
    let mut values = slots(rt.alloc(), 1, false)?;
    run(&m, &mut values, 1, false);
    assert_eq!(rt; run_marked(&m, &uses, &mut values, &mut marks), 0);
    assert_eq!(rt; change(&m, &uses, &mut values, &mut marks, 1, true), 1);
    assert_eq!(rt; word_at(&rt, &values, 1), 0);
    Ok(())
}

/// The word of an operation on one slot.
fn of_one(op: Op, width: u32, a: Bits) -> Word
    requires width { IsWidth width }
    requires one { operand_count op ≡ 1 }
    requires plain { is_constant op ≡ false }
    requires fits { WidthsFit op width 0 (a.width ∷ []) }
{
    let i = Instr {
        op,
        width,
        a: 0,
        b: 0,
        c: 0,
        lo: 0,
        value: 0,
    };
    value(&i, &[a]).word
}

/// The word of an operation on two slots.
fn of_two(op: Op, width: u32, a: Bits, b: Bits) -> Word
    requires width { IsWidth width }
    requires two { operand_count op ≡ 2 }
    requires plain { is_constant op ≡ false }
    requires fits { WidthsFit op width 0 (a.width ∷ b.width ∷ []) }
{
    let i = Instr {
        op,
        width,
        a: 0,
        b: 1,
        c: 0,
        lo: 0,
        value: 0,
    };
    value(&i, &[a, b]).word
}

#[test]
fn operations_on_one_slot(rt: HostRuntime) {
    assert_eq!(rt; of_one(Op::Zext, 8, Bits::new(4, 0xc)), 0x0c);
    assert_eq!(rt; of_one(Op::Sext, 8, Bits::new(4, 0xc)), 0xfc);
    assert_eq!(rt; of_one(Op::Not, 4, Bits::new(4, 0xa)), 5);
    assert_eq!(rt; of_one(Op::Neg, 8, Bits::new(8, 1)), 0xff);
    assert_eq!(rt; of_one(Op::RedAnd, 1, Bits::new(4, 0xf)), 1);
    assert_eq!(rt; of_one(Op::RedOr, 1, Bits::new(4, 0)), 0);
    assert_eq!(rt; of_one(Op::RedXor, 1, Bits::new(4, 0xb)), 1);
}

#[test]
fn operations_on_two_slots(rt: HostRuntime) {
    let a = Bits::new(8, 0xc9);
    let b = Bits::new(8, 7);
    assert_eq!(rt; of_two(Op::Concat, 16, a, b), 0xc907);
    assert_eq!(rt; of_two(Op::And, 8, a, b), 1);
    assert_eq!(rt; of_two(Op::Or, 8, a, b), 0xcf);
    assert_eq!(rt; of_two(Op::Xor, 8, a, b), 0xce);
    assert_eq!(rt; of_two(Op::Add, 8, a, b), 0xd0);
    assert_eq!(rt; of_two(Op::Sub, 8, b, a), 0x3e);
    assert_eq!(rt; of_two(Op::Mul, 8, a, b), 0x7f);
    assert_eq!(rt; of_two(Op::DivU, 8, a, b), 28);
    assert_eq!(rt; of_two(Op::DivS, 8, a, b), 0xf9);
    assert_eq!(rt; of_two(Op::ModU, 8, a, b), 5);
    assert_eq!(rt; of_two(Op::ModS, 8, a, b), 0xfa);
}

#[test]
fn shifts_and_comparisons(rt: HostRuntime) {
    let a = Bits::new(8, 0x81);
    let b = Bits::new(8, 1);
    assert_eq!(rt; of_two(Op::Shl, 8, a, b), 0x02);
    assert_eq!(rt; of_two(Op::ShrU, 8, a, b), 0x40);
    assert_eq!(rt; of_two(Op::ShrS, 8, a, b), 0xc0);
    assert_eq!(rt; of_two(Op::Eq, 1, a, a), 1);
    assert_eq!(rt; of_two(Op::LtU, 1, a, b), 0);
    assert_eq!(rt; of_two(Op::LtS, 1, a, b), 1);
}

#[test]
fn operations_of_their_own_shape(rt: HostRuntime) {
    let constant = Instr {
        op: Op::Const,
        width: 8,
        a: 0,
        b: 0,
        c: 0,
        lo: 0,
        value: 0x5a,
    };
    assert_eq!(rt; value(&constant, &[]).word, 0x5a);
    let part = Instr {
        op: Op::Slice,
        width: 3,
        a: 0,
        b: 0,
        c: 0,
        lo: 2,
        value: 0,
    };
    assert_eq!(rt; value(&part, &[Bits::new(8, 0x6c)]).word, 3);
    let choice = Instr {
        op: Op::Mux,
        width: 4,
        a: 1,
        b: 2,
        c: 0,
        lo: 0,
        value: 0,
    };
    let options = [Bits::flag(true), Bits::new(4, 3), Bits::new(4, 9)];
    assert_eq!(rt; value(&choice, &options).word, 3);
    let others = [Bits::flag(false), Bits::new(4, 3), Bits::new(4, 9)];
    assert_eq!(rt; value(&choice, &others).word, 9);
    let insertion = Instr {
        op: Op::Insert,
        width: 8,
        a: 0,
        b: 1,
        c: 0,
        lo: 2,
        value: 0,
    };
    let parts = [Bits::new(8, 0xff), Bits::new(3, 2)];
    assert_eq!(rt; value(&insertion, &parts).word, 0xeb);
}
