//! The machines of the worlds, and their children.

ghost use Rattle.std.specs.Prelude.{◌≡◌, ◌<◌, ◌^◌, false, [], ◌∷◌, IfOk, length};
ghost use Rattle.code_isa.specs.Faces.{IsFace};
ghost use Rattle.settle_loop_tests.specs.Ports.{clock_port, input_port, output_port, adder_ports, sampler_ports, small_ports, board_ports};
ghost use Rattle.code_isa.specs.Operands.{operand_count, is_constant, names_position};

use bit_ops::Op;
use code_isa::{Instr, Kid, Machine, Reg};
use std::alloc::{AllocError, Global};
use sv_base::{Class, Face, Name, Port, Sequence, Summary};

fn port(alloc: Global, name: &[u8], class: Class, width: u32) -> Result<Port, AllocError>
    ensures { IfOk result (λ p. p ≡ record { name = name.now; class = class; signed = false; width = width }) }
{
    Ok(Port {
        name: Name::of(alloc, name)?,
        class,
        signed: false,
        width,
    })
}

fn clock(alloc: Global, name: &[u8]) -> Result<Port, AllocError>
    ensures { IfOk result (λ p. p ≡ clock_port name.now) }
{
    port(alloc, name, Class::Clock, 1)
}

fn input(alloc: Global, name: &[u8]) -> Result<Port, AllocError>
    ensures { IfOk result (λ p. p ≡ input_port name.now) }
{
    port(alloc, name, Class::Value, 4)
}

fn output(alloc: Global, name: &[u8]) -> Result<Port, AllocError>
    ensures { IfOk result (λ p. p ≡ output_port name.now) }
{
    port(alloc, name, Class::Output, 4)
}

fn adder_ports(alloc: Global) -> Result<Sequence<Port>, AllocError>
    ensures { IfOk result (λ ps. ps ≡ adder_ports) }
{
    let mut ports = Sequence::new(alloc);
    ports.push(input(alloc, b"i")?)?;
    ports.push(output(alloc, b"o")?)?;
    Ok(ports)
}

/// `p(input [3:0] i, output [3:0] o)`.
fn adder_face(alloc: Global) -> Result<Face, AllocError>
    ensures ports { IfOk result (λ f. f.ports ≡ adder_ports) }
    ensures fits { IfOk result IsFace }
{
    Ok(Face {
        name: Name::of(alloc, b"p")?,
        ports: adder_ports(alloc)?,
    })
}

fn sampler_ports(alloc: Global) -> Result<Sequence<Port>, AllocError>
    ensures { IfOk result (λ ps. ps ≡ sampler_ports) }
{
    let mut ports = Sequence::new(alloc);
    ports.push(clock(alloc, b"clk")?)?;
    ports.push(input(alloc, b"d")?)?;
    ports.push(output(alloc, b"q")?)?;
    Ok(ports)
}

/// `g(input clk, input [3:0] d, output [3:0] q)`.
fn sampler_face(alloc: Global) -> Result<Face, AllocError>
    ensures ports { IfOk result (λ f. f.ports ≡ sampler_ports) }
    ensures fits { IfOk result IsFace }
{
    Ok(Face {
        name: Name::of(alloc, b"g")?,
        ports: sampler_ports(alloc)?,
    })
}

fn one(alloc: Global, slot: u64) -> Result<Sequence<u64>, AllocError>
    ensures { IfOk result (λ s. s ≡ slot ∷ []) }
{
    let mut slots = Sequence::new(alloc);
    slots.push(slot)?;
    Ok(slots)
}

fn one_position(alloc: Global, at: u32) -> Result<Sequence<u32>, AllocError>
    ensures { IfOk result (λ s. s ≡ at ∷ []) }
{
    let mut positions = Sequence::new(alloc);
    positions.push(at)?;
    Ok(positions)
}

/// The summary of one output that depends on the first data input.
fn dependent(alloc: Global) -> Result<Summary, AllocError>
    ensures { IfOk result (λ s. s.rows ≡ (0 ∷ []) ∷ []) }
{
    let mut rows = Sequence::new(alloc);
    rows.push(one_position(alloc, 0)?)?;
    Ok(Summary { rows })
}

/// The summary of one output that depends on no data input.
fn independent(alloc: Global) -> Result<Summary, AllocError>
    ensures { IfOk result (λ s. s.rows ≡ [] ∷ []) }
{
    let mut rows = Sequence::new(alloc);
    rows.push(Sequence::new(alloc))?;
    Ok(Summary { rows })
}

/// The constant of four bits.
fn constant(value: u64) -> Instr
    requires { value < 2 ^ 4 }
{
    Instr {
        op: Op::Const,
        width: 4,
        a: 0,
        b: 0,
        c: 0,
        lo: 0,
        value,
    }
}

/// An operation on two slots of four bits.
pub fn binary(op: Op, a: u64, b: u64) -> Instr
    requires two { operand_count op ≡ 2 }
    requires plain { is_constant op ≡ false }
    requires whole { names_position op ≡ false }
{
    Instr {
        op,
        width: 4,
        a,
        b,
        c: 0,
        lo: 0,
        value: 0,
    }
}

/// Slot 0 is the input, 1 the constant, 2 the sum.
fn adder_code(alloc: Global, by: u64) -> Result<Sequence<Instr>, AllocError>
    requires { by < 2 ^ 4 }
{
    let mut code = Sequence::new(alloc);
    code.push(constant(by))?;
    code.push(binary(Op::Add, 0, 1))?;
    Ok(code)
}

/// `assign o = i + by`.
pub fn adder(alloc: Global, by: u64) -> Result<Machine, AllocError>
    requires { by < 2 ^ 4 }
    ensures { IfOk result (λ m. m.kids ≡ []) }
{
    let face = adder_face(alloc)?;
    let summary = dependent(alloc)?;
    let code = adder_code(alloc, by)?;
    let outs = one(alloc, 2)?;
    Ok(Machine {
        face,
        summary,
        chain: 0,
        regs: Sequence::new(alloc),
        kids: Sequence::new(alloc),
        code,
        outs,
    })
}

/// A register of four bits.
pub fn register(init: u64, clock: u32, falling: bool, next: u64) -> Reg
    requires { init < 2 ^ 4 }
{
    Reg {
        width: 4,
        init,
        clock,
        falling,
        next,
    }
}

fn one_register(alloc: Global, reg: Reg) -> Result<Sequence<Reg>, AllocError> {
    let mut regs = Sequence::new(alloc);
    regs.push(reg)?;
    Ok(regs)
}

/// `always_ff @(posedge clk) q <= d`, or at the falling edge: slot 0 is the input, 1 the register.
pub fn sampler(alloc: Global, falling: bool) -> Result<Machine, AllocError>
    ensures { IfOk result (λ m. m.kids ≡ []) }
{
    let face = sampler_face(alloc)?;
    let summary = independent(alloc)?;
    let regs = one_register(alloc, register(0, 0, falling, 0))?;
    let outs = one(alloc, 1)?;
    Ok(Machine {
        face,
        summary,
        chain: 0,
        regs,
        kids: Sequence::new(alloc),
        code: Sequence::new(alloc),
        outs,
    })
}

/// An adder whose input is joined to this slot.
pub fn adder_kid(alloc: Global, slot: u64) -> Result<Kid, AllocError> {
    let face = adder_face(alloc)?;
    let summary = dependent(alloc)?;
    let ins = one(alloc, slot)?;
    Ok(Kid {
        digest: [0; 32],
        face,
        summary,
        ins,
        clocks: Sequence::new(alloc),
    })
}

/// A sampler whose input is joined to this slot, and its clock to this one.
pub fn sampler_kid(alloc: Global, slot: u64, clock: u32) -> Result<Kid, AllocError> {
    let face = sampler_face(alloc)?;
    let summary = independent(alloc)?;
    let ins = one(alloc, slot)?;
    let clocks = one_position(alloc, clock)?;
    Ok(Kid {
        digest: [0; 32],
        face,
        summary,
        ins,
        clocks,
    })
}

fn small_ports(alloc: Global) -> Result<Sequence<Port>, AllocError>
    ensures { IfOk result (λ ps. ps ≡ small_ports) }
{
    let mut ports = Sequence::new(alloc);
    ports.push(clock(alloc, b"clk")?)?;
    ports.push(input(alloc, b"x")?)?;
    ports.push(output(alloc, b"y")?)?;
    Ok(ports)
}

/// `t(input clk, input [3:0] x, output [3:0] y)`.
fn small_face(alloc: Global) -> Result<Face, AllocError>
    ensures ports { IfOk result (λ f. f.ports ≡ small_ports) }
    ensures fits { IfOk result IsFace }
{
    Ok(Face {
        name: Name::of(alloc, b"t")?,
        ports: small_ports(alloc)?,
    })
}

/// A machine with a clock, a data input and an output of four bits.
pub fn small(
    alloc: Global,
    chain: u32,
    regs: Sequence<Reg>,
    kids: Sequence<Kid>,
    code: Sequence<Instr>,
    outs: Sequence<u64>,
) -> Result<Machine, AllocError>
    requires chain { chain < 36 }
    requires kids { length kids < 2 ^ 32 }
    requires outs { length outs ≡ 1 }
{
    let face = small_face(alloc)?;
    let summary = dependent(alloc)?;
    Ok(Machine {
        face,
        summary,
        chain,
        regs,
        kids,
        code,
        outs,
    })
}

fn board_ports(alloc: Global) -> Result<Sequence<Port>, AllocError>
    ensures { IfOk result (λ ps. ps ≡ board_ports) }
{
    let mut ports = Sequence::new(alloc);
    ports.push(clock(alloc, b"c")?)?;
    ports.push(clock(alloc, b"d")?)?;
    ports.push(input(alloc, b"a")?)?;
    ports.push(input(alloc, b"b")?)?;
    ports.push(output(alloc, b"y")?)?;
    ports.push(output(alloc, b"z")?)?;
    Ok(ports)
}

/// `t(input c, d, input [3:0] a, b, output [3:0] y, z)`.
fn board_face(alloc: Global) -> Result<Face, AllocError>
    ensures ports { IfOk result (λ f. f.ports ≡ board_ports) }
    ensures fits { IfOk result IsFace }
{
    Ok(Face {
        name: Name::of(alloc, b"t")?,
        ports: board_ports(alloc)?,
    })
}

fn both(alloc: Global) -> Result<Sequence<u32>, AllocError>
    ensures { IfOk result (λ s. s ≡ 0 ∷ 1 ∷ []) }
{
    let mut row = Sequence::new(alloc);
    row.push(0)?;
    row.push(1)?;
    Ok(row)
}

/// The summary of two outputs that may depend on both data inputs.
fn all_dependent(alloc: Global) -> Result<Summary, AllocError>
    ensures { IfOk result (λ s. s.rows ≡ (0 ∷ 1 ∷ []) ∷ (0 ∷ 1 ∷ []) ∷ []) }
{
    let mut rows = Sequence::new(alloc);
    rows.push(both(alloc)?)?;
    rows.push(both(alloc)?)?;
    Ok(Summary { rows })
}

/// A machine with two clocks, two data inputs and two outputs, all of four bits.
pub fn board(
    alloc: Global,
    chain: u32,
    regs: Sequence<Reg>,
    kids: Sequence<Kid>,
    code: Sequence<Instr>,
    outs: Sequence<u64>,
) -> Result<Machine, AllocError>
    requires chain { chain < 36 }
    requires kids { length kids < 2 ^ 32 }
    requires outs { length outs ≡ 2 }
{
    let face = board_face(alloc)?;
    let summary = all_dependent(alloc)?;
    Ok(Machine {
        face,
        summary,
        chain,
        regs,
        kids,
        code,
        outs,
    })
}
