//! Texts of worlds and of what happens in them.
//!
//! A world is a row of entries of four signs, a letter and three numbers of one sign, `0` to `9` and `a` to `z` for 10 to 35.
//! The slots are the inputs, the registers, the children, and the instructions:
//! `pKS-` a child that adds K to slot S, `gSC-` one that samples slot S at rising edges of clock C, `fSC-` at falling ones;
//! `rICS` a register of slot S with the initial word I at rising edges of clock C, `qICS` at falling ones;
//! `+AB-`, `&AB-`, `|AB-` and `^AB-` an instruction on slots A and B; `oS--` an output; `lN--` the chain.
//! With one output the machine has one clock and the input 0 alone, else two clocks and two inputs.
//!
//! A script has entries of three signs: `xAB` gives the inputs these words, `tCD` begins a strike with these levels,
//! `n0-`, `n1-` and `n2-` settle in the order that answers 0, the last place, and the sweep's number modulo how many are left,
//! and `o--`, `uI-`, `s--`, `kI-` and `c--` are an event each, of child I, and `;--` runs the events since the last such entry.
//! What is then told: how many sweeps were made or events performed, as two such numbers; `!` where no update is enabled, or `?`; the
//! outputs, the registers, and for each child its input, its output, its updates and its strikes; and a comma.

ghost use Rattle.std.specs.Prelude.{◌≡◌, ◌<◌, ◌≤◌, ◌^◌, [], IfOk, OnOk, length};
ghost use Rattle.leaf_model.specs.Leaf.{IsReadyLeaf};
ghost use Rattle.settle_loop_tests.specs.Board.{AreReady, IsBoard};

use crate::board::{Board, checked};
use crate::machines::{adder, adder_kid, binary, board, register, sampler, sampler_kid, small};
use bit_ops::{Bits, Op};
use code_check::CheckFault;
use code_isa::{Checked, Instr, Kid, Machine, Reg};
use leaf_model::Leaf;
use model_stage::Order;
use std::alloc::{AllocError, Global};
use std::process::Abort;
use std::rc::Rc;
use sv_base::Sequence;
use wrapper_core::Event;

/// The number that a sign is, or 0.
fn number(text: &[u8], at: usize) -> u32
    ensures { result < 36 }
{
    if at >= text.len() {
        return 0;
    }
    match text[at] {
        b'0'..=b'9' => (text[at] - b'0') as u32,
        b'a'..=b'z' => (text[at] - b'a') as u32 + 10,
        _ => 0,
    }
}

/// The sign of a number.
fn sign_of(n: u64) -> u8 {
    let n = n % 36;
    if n < 10 {
        b'0' + n as u8
    } else {
        b'a' + (n - 10) as u8
    }
}

/// The letter of an entry, or a blank.
fn letter(entry: &[u8]) -> u8 {
    if entry.is_empty() { b' ' } else { entry[0] }
}

/// The child of an entry, if it names one.
fn kid_at(alloc: Global, entry: &[u8]) -> Result<Option<Kid>, AllocError> {
    match letter(entry) {
        b'p' => Ok(Some(adder_kid(alloc, number(entry, 2) as u64)?)),
        b'g' | b'f' => {
            let slot = number(entry, 1) as u64;
            Ok(Some(sampler_kid(alloc, slot, number(entry, 2))?))
        }
        _ => Ok(None),
    }
}

fn kids(alloc: Global, text: &[u8]) -> Result<Sequence<Kid>, AllocError> {
    let mut kids = Sequence::new(alloc);
    for k in 0..text.len() / 4 {
        if let Some(kid) = kid_at(alloc, &text[4 * k..4 * k + 4])? {
            kids.push(kid)?;
        }
    }
    Ok(kids)
}

/// A leaf of a machine.
fn leaf(alloc: Global, code: Checked) -> Result<Leaf, AllocError>
    requires { code.kids ≡ [] }
    ensures { IfOk result IsReadyLeaf }
{
    let code = Rc::new(alloc, code)?;
    Leaf::new(alloc, code)
}

/// A leaf of a machine that adds.
fn adder_leaf(rt: &impl Abort, alloc: Global, by: u64) -> Result<Leaf, CheckFault>
    requires { by < 2 ^ 4 }
    ensures { IfOk result IsReadyLeaf }
{
    let code = checked(rt, alloc, adder(alloc, by)?)?;
    Ok(leaf(alloc, code)?)
}

/// A leaf of a machine that samples.
fn sampler_leaf(rt: &impl Abort, alloc: Global, falling: bool) -> Result<Leaf, CheckFault>
    ensures { IfOk result IsReadyLeaf }
{
    let code = checked(rt, alloc, sampler(alloc, falling)?)?;
    Ok(leaf(alloc, code)?)
}

/// Adds a leaf.
fn add(leaves: &mut Vec<Leaf>, leaf: Leaf) -> Result<(), AllocError>
    requires leaves { AreReady leaves.old.items }
    requires leaf { IsReadyLeaf leaf }
    ensures { OnOk result (AreReady leaves.new.items) }
{
    leaves.push(leaf)?;
    Ok(())
}

/// Adds the leaf of an entry, if it names one.
fn add_leaf(
    rt: &impl Abort,
    alloc: Global,
    leaves: &mut Vec<Leaf>,
    entry: &[u8],
) -> Result<(), CheckFault>
    requires { AreReady leaves.old.items }
    ensures { OnOk result (AreReady leaves.new.items) }
{
    match letter(entry) {
        b'p' => add(leaves, adder_leaf(rt, alloc, number(entry, 1) as u64 % 16)?)?,
        b'g' => add(leaves, sampler_leaf(rt, alloc, false)?)?,
        b'f' => add(leaves, sampler_leaf(rt, alloc, true)?)?,
        _ => {}
    }
    Ok(())
}

pub fn leaves(rt: &impl Abort, alloc: Global, text: &[u8]) -> Result<Vec<Leaf>, CheckFault>
    ensures { IfOk result (λ leaves. AreReady leaves.items) }
{
    let mut leaves = Vec::new(alloc);
    for k in 0..text.len() / 4 {
        add_leaf(rt, alloc, &mut leaves, &text[4 * k..4 * k + 4])?;
    }
    Ok(leaves)
}

/// The register of an entry, if it is one.
fn register_at(entry: &[u8]) -> Option<Reg> {
    let falling = letter(entry) == b'q';
    if !falling && letter(entry) != b'r' {
        return None;
    }
    let init = number(entry, 1) as u64 % 16;
    Some(register(init, number(entry, 2), falling, number(entry, 3) as u64))
}

fn regs(alloc: Global, text: &[u8]) -> Result<Sequence<Reg>, AllocError> {
    let mut regs = Sequence::new(alloc);
    for k in 0..text.len() / 4 {
        if let Some(reg) = register_at(&text[4 * k..4 * k + 4]) {
            regs.push(reg)?;
        }
    }
    Ok(regs)
}

/// The instruction of an entry, if it is one.
fn instr_at(entry: &[u8]) -> Option<Instr> {
    let a = number(entry, 1) as u64;
    let b = number(entry, 2) as u64;
    match letter(entry) {
        b'+' => Some(binary(Op::Add, a, b)),
        b'&' => Some(binary(Op::And, a, b)),
        b'|' => Some(binary(Op::Or, a, b)),
        b'^' => Some(binary(Op::Xor, a, b)),
        _ => None,
    }
}

fn code(alloc: Global, text: &[u8]) -> Result<Sequence<Instr>, AllocError> {
    let mut code = Sequence::new(alloc);
    for k in 0..text.len() / 4 {
        if let Some(i) = instr_at(&text[4 * k..4 * k + 4]) {
            code.push(i)?;
        }
    }
    Ok(code)
}

fn outs(alloc: Global, text: &[u8]) -> Result<Sequence<u64>, AllocError> {
    let mut outs = Sequence::new(alloc);
    for k in 0..text.len() / 4 {
        let entry = &text[4 * k..4 * k + 4];
        if letter(entry) == b'o' {
            outs.push(number(entry, 1) as u64)?;
        }
    }
    Ok(outs)
}

/// The chain that a text names.
fn chain(text: &[u8]) -> u32
    ensures { result < 36 }
{
    for k in 0..text.len() / 4 {
        let entry = &text[4 * k..4 * k + 4];
        if letter(entry) == b'l' {
            return number(entry, 1);
        }
    }
    0
}

/// The machine of a text.
fn machine(rt: &impl Abort, alloc: Global, text: &[u8]) -> Result<Machine, AllocError> {
    let chain = chain(text);
    let regs = regs(alloc, text)?;
    let kids = kids(alloc, text)?;
    let code = code(alloc, text)?;
    let outs = outs(alloc, text)?;
    assert!(rt; kids.len() < 0x1_0000_0000);
    if outs.len() == 1 {
        return small(alloc, chain, regs, kids, code, outs);
    }
    assert!(rt; outs.len() == 2);
    board(alloc, chain, regs, kids, code, outs)
}

/// The world of a text.
pub fn world(rt: &impl Abort, alloc: Global, text: &[u8]) -> Result<Board, CheckFault>
    ensures { IfOk result (λ b. IsBoard b.inputs b.clocks b.outputs b.registers b.world) }
{
    let leaves = leaves(rt, alloc, text)?;
    let code = checked(rt, alloc, machine(rt, alloc, text)?)?;
    Ok(Board::new(rt, alloc, code, leaves)?)
}

/// The event of an entry.
fn event_at(entry: &[u8]) -> Option<Event> {
    let child = number(entry, 1);
    match letter(entry) {
        b'o' => Some(Event::Own),
        b'u' => Some(Event::Update(child)),
        b's' => Some(Event::StrikeOwn),
        b'k' => Some(Event::Strike(child)),
        b'c' => Some(Event::Commit),
        _ => None,
    }
}

/// The word of a value, or 0 past the end.
fn word(values: &[Bits], k: usize) -> u64 {
    if k < values.len() { values[k].word } else { 0 }
}

fn tell_child(said: &mut Vec<u8>, leaf: &Leaf) -> Result<(), AllocError> {
    said.push(sign_of(word(leaf.slots(), 0)))?;
    said.push(sign_of(word(leaf.shown(), 0)))?;
    said.push(sign_of(leaf.updates()))?;
    said.push(sign_of(leaf.number().wrapping_sub(leaf.updates())))?;
    Ok(())
}

fn tell_children(rt: &impl Abort, said: &mut Vec<u8>, b: &Board) -> Result<(), AllocError>
    requires { IsBoard b.now.inputs b.now.clocks b.now.outputs b.now.registers b.now.world }
{
    for i in 0..b.children() {
        tell_child(said, b.child(rt, i))?;
    }
    Ok(())
}

fn tell_outputs(rt: &impl Abort, said: &mut Vec<u8>, b: &Board) -> Result<(), AllocError>
    requires { IsBoard b.now.inputs b.now.clocks b.now.outputs b.now.registers b.now.world }
{
    for k in 0..b.outputs() {
        said.push(sign_of(b.out(rt, k)))?;
    }
    Ok(())
}

fn tell_registers(rt: &impl Abort, said: &mut Vec<u8>, b: &Board) -> Result<(), AllocError>
    requires { IsBoard b.now.inputs b.now.clocks b.now.outputs b.now.registers b.now.world }
{
    for k in 0..b.registers() {
        said.push(sign_of(b.register(rt, k)))?;
    }
    Ok(())
}

/// Tells where a world stands after this many events.
fn tell(rt: &impl Abort, said: &mut Vec<u8>, b: &Board, done: usize) -> Result<(), AllocError>
    requires { IsBoard b.now.inputs b.now.clocks b.now.outputs b.now.registers b.now.world }
{
    said.push(sign_of(done as u64 / 36))?;
    said.push(sign_of(done as u64))?;
    said.push(if b.is_quiet() { b'!' } else { b'?' })?;
    tell_outputs(rt, said, b)?;
    tell_registers(rt, said, b)?;
    tell_children(rt, said, b)?;
    said.push(b',')?;
    Ok(())
}

/// Settles in an order, and answers how many sweeps that took.
fn settle_by(rt: &impl Abort, b: &mut Board, order: u32) -> u32
    requires { IsBoard b.old.inputs b.old.clocks b.old.outputs b.old.registers b.old.world }
    ensures { IsBoard b.new.inputs b.new.clocks b.new.outputs b.new.registers b.new.world }
{
    match order {
        0 => b.settle(rt, &Order::new(|_, _| 0)),
        1 => b.settle(rt, &Order::new(|_, n| n - 1)),
        _ => b.settle(rt, &Order::new(|s, n| s % n)),
    }
}

/// Does one entry of a script, if it is no event.
fn act(
    rt: &impl Abort,
    alloc: Global,
    b: &mut Board,
    entry: &[u8],
    events: &mut Vec<Event>,
    said: &mut Vec<u8>,
) -> Result<(), AllocError>
    requires { IsBoard b.old.inputs b.old.clocks b.old.outputs b.old.registers b.old.world }
    ensures { IsBoard b.new.inputs b.new.clocks b.new.outputs b.new.registers b.new.world }
{
    let first = number(entry, 1);
    let second = number(entry, 2);
    match letter(entry) {
        b'x' => b.set(rt, alloc, &[first as u64, second as u64])?,
        b't' => b.tick(rt, &[first == 1, second == 1]),
        b'n' => {
            let sweeps = settle_by(rt, b, first);
            tell(rt, said, b, sweeps as usize)?;
        }
        b';' => {
            let done = b.run(rt, events);
            tell(rt, said, b, done)?;
            events.clear();
        }
        _ => {}
    }
    Ok(())
}

/// Runs a script in a world, and answers what is told.
pub fn play(
    rt: &impl Abort,
    alloc: Global,
    b: &mut Board,
    text: &[u8],
) -> Result<Vec<u8>, AllocError>
    requires { IsBoard b.old.inputs b.old.clocks b.old.outputs b.old.registers b.old.world }
    ensures { IsBoard b.new.inputs b.new.clocks b.new.outputs b.new.registers b.new.world }
{
    let mut said = Vec::new(alloc);
    let mut events = Vec::new(alloc);
    for k in 0..text.len() / 3 {
        let entry = &text[3 * k..3 * k + 3];
        match event_at(entry) {
            Some(event) => events.push(event)?,
            None => act(rt, alloc, b, entry, &mut events, &mut said)?,
        }
    }
    Ok(said)
}
