//! A machine: registers, sealed children, and straight code over numbered slots.

ghost use Rattle.std.specs.Prelude.{◌≡◌, ◌^◌, ◌<◌, ◌≤◌, length, IsFalse};
ghost use Rattle.bit_ops.specs.Width.{IsWidth};
ghost use Rattle.code_isa.specs.Faces.{IsFace, IsSummary, input_count, clock_count, output_count};
ghost use Rattle.code_isa.specs.Operands.{operand_count, names_position, is_constant};

use bit_ops::{Op, Word};
use sv_base::{Face, Sequence, Summary};

/// A register: a run of bits of one variable that one clocked process writes.
#[derive(Clone, Copy, Debug)]
pub struct Reg {
    /// How many bits it has.
    pub width: u32,
    /// The word that it holds at the start.
    pub init: Word,
    /// The position of its clock among the machine's clocks, counted from 0.
    pub clock: u32,
    /// Whether its edge is the falling one.
    pub falling: bool,
    /// The slot that it samples.
    pub next: u64,
    pub ghost wide: { IsWidth width },
    pub ghost fits: { init < 2 ^ width },
}

/// A sealed child: what it is, and what it is joined to.
#[derive(Debug, Drop)]
pub struct Kid {
    /// The SHA-256 of the child's library.
    pub digest: [u8; 32],
    pub face: Face,
    pub summary: Summary,
    /// The slot that each of the child's data inputs is joined to.
    pub ins: Sequence<u64>,
    /// The position, among the clocks of the machine around it, of the clock that each of its clocks is joined to.
    pub clocks: Sequence<u32>,
    pub ghost face_fits: { IsFace face },
    pub ghost summary_fits: { IsSummary face summary },
    pub ghost all_joined: { length ins ≡ input_count face },
    pub ghost all_clocked: { length clocks ≡ clock_count face },
}

/// An instruction: an operation, the width of its result, and what it takes. A field that the operation does not use is
/// 0.
#[derive(Clone, Copy, Debug)]
pub struct Instr {
    pub op: Op,
    /// How many bits the result has.
    pub width: u32,
    /// The slot of the first operand.
    pub a: u64,
    /// The slot of the second operand.
    pub b: u64,
    /// The slot of the condition of a choice.
    pub c: u64,
    /// The lowest position that a slice takes, or an insertion writes.
    pub lo: u32,
    /// The word of a constant.
    pub value: Word,
    pub ghost wide: { IsWidth width },
    pub ghost low: { lo < 2 ^ 8 },
    pub ghost fits: { value < 2 ^ width },
    pub ghost no_first: { operand_count op ≤ 0 → a ≡ 0 },
    pub ghost no_second: { operand_count op ≤ 1 → b ≡ 0 },
    pub ghost no_third: { operand_count op ≤ 2 → c ≡ 0 },
    pub ghost no_position: { IsFalse (names_position op) → lo ≡ 0 },
    pub ghost no_value: { IsFalse (is_constant op) → value ≡ 0 },
}

/// A machine. Its slots are numbered from 0: the data inputs, the registers, the children's outputs child by child, and
/// then one for each instruction.
#[derive(Debug, Drop)]
pub struct Machine {
    pub face: Face,
    pub summary: Summary,
    /// At least how many outputs of children stand on one path of dependence.
    pub chain: u32,
    pub regs: Sequence<Reg>,
    pub kids: Sequence<Kid>,
    pub code: Sequence<Instr>,
    /// The slot of each output.
    pub outs: Sequence<u64>,
    pub ghost face_fits: { IsFace face },
    pub ghost summary_fits: { IsSummary face summary },
    pub ghost chain_fits: { chain ≤ 4294967294 },
    pub ghost few_kids: { length kids < 2 ^ 32 },
    pub ghost all_driven: { length outs ≡ output_count face },
}
