//! The values of constant positions: of terms where every variable is 0.

ghost use Rattle.std.specs.Prelude.{◌≡◌, [], ◌∷◌, ◌+◌, ◌*◌, ◌/◌, ◌%◌, ◌^◌, ◌<◌, pos, neg_ℤ, ◌<ℤ◌, ◌≤ℤ◌, length, slice_index};
ghost use Rattle.std.specs.List.{AllByRecursion};
ghost use Rattle.bit_ops.specs.Width.{IsWidth, WidthsFit};
ghost use Rattle.bit_ops.specs.Rows.{value_of};
ghost use Rattle.bit_ops.specs.Lists.{widths};
ghost use Rattle.bit_ops.specs.declared.value.TheConstants.{MAX_WIDTH};
ghost use Rattle.net_ir.specs.Value.{widths_of, whole_number, bits_from, lowest_from, picked, operands, size, val, reads_of};
ghost use Rattle.net_ir.specs.Lawful.{IsLawful, IsLawfulVar};
ghost use Rattle.net_ir.specs.Target.{is_empty};

use bit_ops::{
    Bits, MAX_WIDTH, Op, Word, add, bit_and, bit_not, bit_or, bit_xor, concat, div_s, div_u, eq,
    insert, lt_s, lt_u, mod_s, mod_u, mul, mux, neg, red_and, red_or, red_xor, sext, shl, shr_s,
    shr_u, slice, sub, zext,
};
use net_ir::{Term, Var};

/// The whole number that a value stands for, signed or not.
pub fn whole_number(signed: bool, value: Bits) -> i128
    ensures number { result ≡ whole_number signed value.width value.word }
    ensures least { neg_ℤ (pos (2 ^ MAX_WIDTH)) ≤ℤ result }
    ensures greatest { result <ℤ pos (2 ^ MAX_WIDTH) }
{
    let number = i128::from(value.word);
    if signed && value.is_negative() {
        number - (1i128 << value.width)
    } else {
        number
    }
}

/// The lowest of so many positions from one up, or from one down.
pub fn lowest_from(down: bool, width: u32, position: i128) -> i128
    requires least { neg_ℤ (pos (2 ^ MAX_WIDTH)) ≤ℤ position }
    requires greatest { position <ℤ pos (2 ^ MAX_WIDTH) }
    ensures lowest { result ≡ lowest_from down width position }
    ensures least { neg_ℤ (pos (2 ^ MAX_WIDTH + 2 ^ 32)) ≤ℤ result }
    ensures greatest { result ≤ℤ pos (2 ^ MAX_WIDTH) }
{
    if down {
        position - i128::from(width) + 1
    } else {
        position
    }
}

/// The bits of a word from so many places above its lowest on; a bit that it does not have is 0.
fn bits_above(word: Word, places: u128, width: u32) -> Bits
    requires { IsWidth width }
    ensures width { result.width ≡ width }
    ensures word { result.word ≡ word / 2 ^ places % 2 ^ width }
{
    if places < u128::from(MAX_WIDTH) {
        Bits::truncated(width, word >> places as u32)
    } else {
        Bits::zero(width)
    }
}

/// The bits of a word from so many places below its lowest on; a bit that it does not have is 0.
fn bits_below(word: Word, places: u128, width: u32) -> Bits
    requires { IsWidth width }
    ensures width { result.width ≡ width }
    ensures word { result.word ≡ word * 2 ^ places % 2 ^ width }
{
    if places < u128::from(MAX_WIDTH) {
        Bits::truncated(width, word << places as u32)
    } else {
        Bits::zero(width)
    }
}

/// The bits of a word from a place on, which may lie below its lowest; a bit that it does not have is 0.
fn bits_from(word: Word, place: i128, width: u32) -> Bits
    requires { IsWidth width }
    ensures width { result.width ≡ width }
    ensures word { result.word ≡ bits_from place width word }
{
    if place < 0 {
        bits_below(word, place.unsigned_abs(), width)
    } else {
        bits_above(word, place.unsigned_abs(), width)
    }
}

/// So many bits of a base whose lowest position is `low`, from a position up, or from it down.
fn pick(base: Bits, low: u32, at: Bits, at_signed: bool, down: bool, width: u32) -> Bits
    requires { IsWidth width }
    ensures width { result.width ≡ width }
    ensures word { result.word ≡ picked base.word low down (whole_number at_signed at.width at.word) width }
{
    let lowest = lowest_from(down, width, whole_number(at_signed, at));
    bits_from(base.word, lowest - i128::from(low), width)
}

/// The value of an operation on one operand.
fn apply_one(op: Op, width: u32, lo: u32, a: Bits) -> Bits
    requires width { IsWidth width }
    requires fits { WidthsFit op width lo (a.width ∷ []) }
    ensures width { result.width ≡ width }
    ensures word { result.word ≡ value_of op width lo ((a.width, a.word) ∷ []) }
{
    match op {
        Op::Const => a,
        Op::Zext => zext(a, width),
        Op::Sext => sext(a, width),
        Op::Slice => slice(a, lo, width),
        Op::Not => bit_not(a),
        Op::Neg => neg(a),
        Op::RedAnd => red_and(a),
        Op::RedOr => red_or(a),
        Op::RedXor => red_xor(a),
        _ => unreachable!(),
    }
}

/// The value of an operation on two operands.
fn apply_two(op: Op, width: u32, lo: u32, a: Bits, b: Bits) -> Bits
    requires width { IsWidth width }
    requires fits { WidthsFit op width lo (a.width ∷ b.width ∷ []) }
    ensures width { result.width ≡ width }
    ensures word { result.word ≡ value_of op width lo ((a.width, a.word) ∷ (b.width, b.word) ∷ []) }
{
    match op {
        Op::Concat => concat(a, b),
        Op::And => bit_and(a, b),
        Op::Or => bit_or(a, b),
        Op::Xor => bit_xor(a, b),
        Op::Add => add(a, b),
        Op::Sub => sub(a, b),
        Op::Mul => mul(a, b),
        Op::DivU => div_u(a, b),
        Op::DivS => div_s(a, b),
        Op::ModU => mod_u(a, b),
        Op::ModS => mod_s(a, b),
        Op::Shl => shl(a, b),
        Op::ShrU => shr_u(a, b),
        Op::ShrS => shr_s(a, b),
        Op::Eq => eq(a, b),
        Op::LtU => lt_u(a, b),
        Op::LtS => lt_s(a, b),
        Op::Insert => insert(a, b, lo),
        _ => unreachable!(),
    }
}

/// The value of an operation on its operands, by its row of the table of operations.
fn apply(op: Op, width: u32, lo: u32, values: &[Bits]) -> Bits
    requires width { IsWidth width }
    requires fits { WidthsFit op width lo (widths values.now) }
    ensures width { result.width ≡ width }
    ensures word { result.word ≡ value_of op width lo (operands values.now) }
{
    match values {
        [a] => apply_one(op, width, lo, *a),
        [a, b] => apply_two(op, width, lo, *a, *b),
        [a, b, c] => mux(*a, *b, *c),
        _ => unreachable!(),
    }
}

/// The value 0 of a variable.
fn zero_of(vars: &[Var], x: usize) -> Bits
    requires vars { AllByRecursion IsLawfulVar vars.now }
    requires there { x < length vars.now }
    ensures width { result.width ≡ slice_index (widths_of vars.now) x }
    ensures word { result.word ≡ 0 }
{
    Bits::zero(vars[x].init.width)
}

/// The value of a term where every variable is 0: its value, where it is a constant. Takes no memory.
pub fn value_at_zero(vars: &[Var], term: &Term) -> Bits
    requires vars { AllByRecursion IsLawfulVar vars.now }
    requires term { IsLawful (widths_of vars.now) term.now }
    ensures width { result.width ≡ size (widths_of vars.now) term.now }
    ensures word { result.word ≡ val (widths_of vars.now) [] term.now }
{
    match term {
        Term::Const(bits) => *bits,
        Term::Read { var, .. } => zero_of(vars, *var as usize),
        Term::Pick {
            base,
            low,
            at,
            at_signed,
            down,
            width,
        } => {
            let base = value_at_zero(vars, base.get());
            let at = value_at_zero(vars, at.get());
            pick(base, *low, at, *at_signed, *down, *width)
        }
        Term::Apply {
            op,
            width,
            lo,
            args,
        } => {
            let mut given = [Bits::zero(1); 3];
            let mut count = 0;
            for arg in args.as_slice() {
                given[count] = value_at_zero(vars, arg);
                count += 1;
            }
            apply(*op, *width, *lo, &given[..count])
        }
    }
}

/// Whether a term reads no variable.
pub fn is_constant(term: &Term) -> bool
    ensures { result ≡ is_empty (reads_of term.now) }
{
    match term {
        Term::Const(_) => true,
        Term::Read { .. } => false,
        Term::Pick { base, at, .. } => is_constant(base.get()) && is_constant(at.get()),
        Term::Apply { args, .. } => {
            for arg in args.as_slice() {
                if !is_constant(arg) {
                    return false;
                }
            }
            true
        }
    }
}
