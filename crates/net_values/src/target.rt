//! Values that targets take.

ghost use Rattle.std.specs.Prelude.{◌≡◌, ◌+◌, ◌/◌, ◌^◌, ◌<◌, ◌≤◌, pos, neg_ℤ, ◌-ℤ◌, ◌<ℤ◌, ◌≤ℤ◌, ℕ, List, length, slice_index};
ghost use Rattle.bit_ops.specs.Width.{IsWidth};
ghost use Rattle.bit_ops.specs.Lists.{words, widths};
ghost use Rattle.bit_ops.specs.declared.value.TheConstants.{MAX_WIDTH};
ghost use Rattle.net_ir.specs.Value.{widths_of, whole_number};
ghost use Rattle.net_ir.specs.Lawful.{IsLawful, IsLawfulPos, IsThere, IsLawfulTarget};
ghost use Rattle.net_ir.specs.Target.{target_width, writes_to, overlaid, bits_to, write_at, place_in, position_of, named_bits, bits_of, bits_where};

use crate::term::evaluate;
use bit_ops::{Bits, MAX_WIDTH, Word, insert};
use net_ir::{Pos, Target, Var};

/// How many bits the whole of a variable or some of its bits are.
fn bits_width(var: &Var, pos: &Option<Pos>) -> u32
    ensures { (ws u : List ℕ) (x : ℕ) → result ≡ (bits_of ws u x var.now pos.now).width }
{
    match pos {
        Some(pos) => pos.width,
        None => var.width,
    }
}

/// How many bits a name in a target takes.
fn named_width(vars: &[Var], var: Option<u32>, pos: &Option<Pos>) -> u32
    ensures { (u : List ℕ) → result ≡ (named_bits vars.now u var pos.now).width }
{
    match var {
        Some(x) => match vars.get(x as usize) {
            Some(var) => bits_width(var, pos),
            None => 0,
        },
        None => 0,
    }
}

/// How many bits a target has.
fn target_width(vars: &[Var], target: &Target) -> u32
    requires { target_width vars.now target.now ≤ MAX_WIDTH }
    ensures { result ≡ target_width vars.now target.now }
{
    match target {
        Target::Of { var, pos, .. } => named_width(vars, *var, pos),
        Target::List(parts) => {
            let mut width = 0;
            for part in parts.as_slice() {
                width += target_width(vars, part);
            }
            width
        }
    }
}

/// The whole number that a value stands for, signed or not.
fn whole_number(signed: bool, value: Bits) -> i128
    ensures number { result ≡ whole_number signed value.width value.word }
    ensures least { neg_ℤ (pos (2 ^ MAX_WIDTH)) ≤ℤ result }
    ensures greatest { result <ℤ pos (2 ^ MAX_WIDTH) }
{
    let number = i128::from(value.word);
    if signed && value.is_negative() {
        number - (1i128 << value.width)
    } else {
        number
    }
}

/// How far the lowest of so many bits at a position of a variable stands from the variable's lowest one.
fn first_place(low: u32, at: &Pos, seen: &[Bits]) -> i128
    requires lawful { IsLawful (widths seen.now) at.now.at }
    requires width { IsWidth at.now.width }
    ensures place { result ≡ position_of (widths seen.now) (words seen.now) at.now -ℤ pos low }
    ensures least { neg_ℤ (pos (2 ^ (MAX_WIDTH + 1))) ≤ℤ result }
    ensures greatest { result <ℤ pos (2 ^ MAX_WIDTH) }
{
    let position = whole_number(at.at_signed, evaluate(&at.at, seen));
    let above = if at.down { at.width - 1 } else { 0 };
    position - (i128::from(low) + i128::from(above))
}

/// Gives a value of one bit to a place of a variable's word; a place that the variable does not have is passed over.
fn write_bit(values: &mut [Bits], x: usize, place: i128, bit: Bits)
    requires there { x < length values.old }
    requires bit { bit.width ≡ 1 }
    ensures widths { widths values.new ≡ widths values.old }
    ensures words { words values.new ≡ overlaid (words values.old) (write_at x (place_in (slice_index (widths values.old) x) place) bit.word) }
{
    let value = values[x];
    if 0 <= place && place < i128::from(value.width) {
        values[x] = insert(value, bit, place as u32);
    }
}

/// Gives the lowest bits of a word, so many, to the places of a variable's word from one up.
fn write_bits(values: &mut [Bits], x: usize, first: i128, width: u32, word: Word)
    requires there { x < length values.old }
    requires width { IsWidth width }
    requires least { neg_ℤ (pos (2 ^ (MAX_WIDTH + 1))) ≤ℤ first }
    requires greatest { first <ℤ pos (2 ^ MAX_WIDTH) }
    ensures widths { widths values.new ≡ widths values.old }
    ensures words { words values.new ≡ overlaid (words values.old) (bits_to x (slice_index (widths values.old) x) first width word) }
{
    for n in 0..width {
        write_bit(
            values,
            x,
            first + i128::from(n),
            Bits::truncated(1, word >> n),
        );
    }
}

/// Gives a word to the whole of a variable, or to some of its bits.
fn store_bits(
    var: &Var,
    x: usize,
    pos: &Option<Pos>,
    word: Word,
    seen: &[Bits],
    values: &mut [Bits],
)
    requires there { x < length values.old }
    requires var { var.now.width ≡ slice_index (widths values.old) x }
    requires pos { IsLawfulPos (widths seen.now) pos.now }
    ensures widths { widths values.new ≡ widths values.old }
    ensures words { words values.new ≡ overlaid (words values.old) ((bits_of (widths seen.now) (words seen.now) x var.now pos.now).writes word) }
{
    match pos {
        Some(pos) => write_bits(values, x, first_place(var.low, pos, seen), pos.width, word),
        None => {
            let width = values[x].width;
            write_bits(values, x, 0, width, word);
        }
    }
}

/// Gives a word to what a name in a target takes.
fn store_named(
    var: Option<u32>,
    pos: &Option<Pos>,
    word: Word,
    vars: &[Var],
    seen: &[Bits],
    values: &mut [Bits],
)
    requires var { IsThere (widths_of vars.now) var }
    requires pos { IsLawfulPos (widths_of vars.now) pos.now }
    requires seen { widths seen.now ≡ widths_of vars.now }
    requires values { widths values.old ≡ widths_of vars.now }
    ensures widths { widths values.new ≡ widths values.old }
    ensures words { words values.new ≡ overlaid (words values.old) ((named_bits vars.now (words seen.now) var pos.now).writes word) }
{
    match var {
        Some(x) => {
            let x = x as usize;
            store_bits(&vars[x], x, pos, word, seen, values);
        }
        None => {}
    }
}

/// A word without so many of its lowest bits.
fn without_lowest(word: Word, places: u32) -> Word
    ensures { result ≡ word / 2 ^ places }
{
    if places < MAX_WIDTH {
        word >> places
    } else {
        0
    }
}

/// Gives a word to a target.
fn store_word(target: &Target, word: Word, vars: &[Var], seen: &[Bits], values: &mut [Bits])
    requires target { IsLawfulTarget (widths_of vars.now) target.now }
    requires narrow { target_width vars.now target.now ≤ MAX_WIDTH }
    requires seen { widths seen.now ≡ widths_of vars.now }
    requires values { widths values.old ≡ widths_of vars.now }
    ensures widths { widths values.new ≡ widths values.old }
    ensures words { words values.new ≡ overlaid (words values.old) (writes_to vars.now (words seen.now) target.now word) }
{
    match target {
        Target::Of { var, pos, .. } => store_named(*var, pos, word, vars, seen, values),
        Target::List(parts) => {
            let mut rest = target_width(vars, target);
            for part in parts.as_slice() {
                rest -= target_width(vars, part);
                store_word(part, without_lowest(word, rest), vars, seen, values);
            }
        }
    }
}

/// Assigns a value, which is cut to the target's width, to a target: its positions are evaluated on `seen`, and what it takes is changed in
/// `values`. A value for each variable stands in both lists. A bit at a position that the variable does not have is passed over
/// (IEEE 1800-2017, 11.5.1), and the parts of a concatenation are written from left to right. Takes no memory.
pub fn store(target: &Target, value: Bits, vars: &[Var], seen: &[Bits], values: &mut [Bits])
    requires target { IsLawfulTarget (widths_of vars.now) target.now }
    requires wide { target_width vars.now target.now ≤ value.width }
    requires seen { widths seen.now ≡ widths_of vars.now }
    requires values { widths values.old ≡ widths_of vars.now }
    ensures widths { widths values.new ≡ widths_of vars.now }
    ensures words { words values.new ≡ overlaid (words values.old) (writes_to vars.now (words seen.now) target.now value.word) }
{
    store_word(target, value.word, vars, seen, values);
}
