//! Runs of bits that targets take.

ghost use Rattle.std.specs.Prelude.{◌≡◌, ◌≤◌, ◌++◌, [], pos, ◌+ℤ◌, ◌-ℤ◌, neg_ℤ, ◌^◌, ◌+◌, ◌<ℤ◌, ◌≤ℤ◌, OnOk, slice_get};
ghost use Rattle.std.specs.List.{AllByRecursion};
ghost use Rattle.std.specs.Option.{option_to_list};
ghost use Rattle.bit_ops.specs.declared.value.TheConstants.{MAX_WIDTH};
ghost use Rattle.net_ir.specs.Value.{widths_of};
ghost use Rattle.net_ir.specs.Target.{position_of};
ghost use Rattle.net_ir.specs.Lawful.{IsLawful, IsLawfulPos, IsLawfulTarget, IsLawfulStmt, IsLawfulVar};
ghost use Rattle.driver_check.specs.code.Runs.{covered, run_at, run_of, taken_at, taken_of, taken_by, taken_in, taken_in_arm, IsLawfulInArm};

use crate::constant::{is_constant, lowest_from, value_at_zero, whole_number};
use net_ir::{Arm, Pos, Stmt, Target, Var};
use std::alloc::AllocError;

/// Bits of a variable side by side, by their places in its word: from `low` on, below `end`.
#[derive(Clone, Copy, Debug, PartialEq, Eq)]
pub struct Run {
    pub low: u32,
    pub end: u32,
}

/// Bits that a name in a target may take: the variable's number and the run.
#[derive(Clone, Copy, Debug, PartialEq, Eq)]
pub struct Taken {
    pub var: u32,
    pub run: Run,
}

/// Of so many bits from a place on, those that a word of `all` bits has.
fn covered(first: i128, width: u32, all: u32) -> Run
    requires least { neg_ℤ (pos (2 ^ MAX_WIDTH + 2 ^ 33)) ≤ℤ first }
    requires greatest { first ≤ℤ pos (2 ^ MAX_WIDTH) }
    ensures { result ≡ covered first width all }
{
    let end = first + i128::from(width);
    let top = i128::from(all);
    if end <= 0 || top <= first {
        return Run { low: 0, end: 0 };
    }
    Run {
        low: if first < 0 { 0 } else { first as u32 },
        end: if top < end { all } else { end as u32 },
    }
}

/// The bits that a constant position takes of a variable.
fn fixed_run(vars: &[Var], var: &Var, position: &Pos) -> Run
    requires vars { AllByRecursion IsLawfulVar vars.now }
    requires position { IsLawful (widths_of vars.now) position.now.at }
    ensures { result ≡ covered (position_of (widths_of vars.now) [] position.now -ℤ pos var.now.low) position.now.width var.now.width }
{
    let number = whole_number(position.at_signed, value_at_zero(vars, &position.at));
    let lowest = lowest_from(position.down, position.width, number);
    covered(lowest - i128::from(var.low), position.width, var.width)
}

/// The bits that a position takes of a variable; where it is not constant it may take any.
fn run_at(vars: &[Var], var: &Var, pos: &Pos) -> Run
    requires vars { AllByRecursion IsLawfulVar vars.now }
    requires pos { IsLawful (widths_of vars.now) pos.now.at }
    ensures { result ≡ run_at (widths_of vars.now) var.now pos.now }
{
    if is_constant(&pos.at) {
        fixed_run(vars, var, pos)
    } else {
        Run {
            low: 0,
            end: var.width,
        }
    }
}

/// The bits that a name in a target may take of a variable.
fn run_of(vars: &[Var], var: &Var, pos: &Option<Pos>) -> Run
    requires vars { AllByRecursion IsLawfulVar vars.now }
    requires pos { IsLawfulPos (widths_of vars.now) pos.now }
    ensures { result ≡ run_of (widths_of vars.now) var.now pos.now }
{
    match pos {
        Some(pos) => run_at(vars, var, pos),
        None => Run {
            low: 0,
            end: var.width,
        },
    }
}

/// What a name takes of the variable of this number, where it is there.
fn taken_at(vars: &[Var], x: u32, pos: &Option<Pos>) -> Option<Taken>
    requires vars { AllByRecursion IsLawfulVar vars.now }
    requires pos { IsLawfulPos (widths_of vars.now) pos.now }
    ensures { option_to_list result ≡ taken_at vars.now x (slice_get vars.now x) pos.now }
{
    match vars.get(x as usize) {
        Some(var) => Some(Taken {
            var: x,
            run: run_of(vars, var, pos),
        }),
        None => None,
    }
}

/// What a name in a target takes, where it means a variable.
fn taken_of(vars: &[Var], var: Option<u32>, pos: &Option<Pos>) -> Option<Taken>
    requires vars { AllByRecursion IsLawfulVar vars.now }
    requires pos { IsLawfulPos (widths_of vars.now) pos.now }
    ensures { option_to_list result ≡ taken_of vars.now var pos.now }
{
    match var {
        Some(x) => taken_at(vars, x, pos),
        None => None,
    }
}

/// Adds what is taken, where something is.
fn push_some(found: Option<Taken>, taken: &mut Vec<Taken>) -> Result<(), AllocError>
    ensures { OnOk result (taken.new.items ≡ taken.old.items ++ option_to_list found) }
{
    match found {
        Some(found) => taken.push(found)?,
        None => {}
    }
    Ok(())
}

/// Adds what the names of a target may take, from left to right.
pub fn push_target(vars: &[Var], target: &Target, taken: &mut Vec<Taken>) -> Result<(), AllocError>
    requires vars { AllByRecursion IsLawfulVar vars.now }
    requires target { IsLawfulTarget (widths_of vars.now) target.now }
    ensures { OnOk result (taken.new.items ≡ taken.old.items ++ taken_by vars.now target.now) }
{
    match target {
        Target::Of { var, pos, .. } => push_some(taken_of(vars, *var, pos), taken),
        Target::List(parts) => {
            for part in parts.as_slice() {
                push_target(vars, part, taken)?;
            }
            Ok(())
        }
    }
}

/// Adds what the targets of a statement may take, in the order of the text.
#[cycle(taking)]
pub fn push_statement(
    vars: &[Var],
    statement: &Stmt,
    taken: &mut Vec<Taken>,
) -> Result<(), AllocError>
    requires vars { AllByRecursion IsLawfulVar vars.now }
    requires statement { IsLawfulStmt vars.now statement.now }
    ensures { OnOk result (taken.new.items ≡ taken.old.items ++ taken_in vars.now statement.now) }
{
    match statement {
        Stmt::Block(parts) => {
            for part in parts.as_slice() {
                push_statement(vars, part, taken)?;
            }
            Ok(())
        }
        Stmt::If(_, first, second) => {
            push_statement(vars, first.get(), taken)?;
            match second {
                Some(second) => push_statement(vars, second.get(), taken),
                None => Ok(()),
            }
        }
        Stmt::Case(_, arms) => {
            for arm in arms.as_slice() {
                push_arm(vars, arm, taken)?;
            }
            Ok(())
        }
        Stmt::Assign { target, .. } => push_target(vars, target, taken),
    }
}

/// Adds what the targets of an arm may take.
#[cycle(taking)]
fn push_arm(vars: &[Var], arm: &Arm, taken: &mut Vec<Taken>) -> Result<(), AllocError>
    requires vars { AllByRecursion IsLawfulVar vars.now }
    requires body { IsLawfulInArm vars.now arm.now }
    ensures { OnOk result (taken.new.items ≡ taken.old.items ++ taken_in_arm vars.now arm.now) }
{
    push_statement(vars, &arm.body, taken)
}
