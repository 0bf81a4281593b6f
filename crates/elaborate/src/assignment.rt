//! Assignments: what they write, and the values that they give (IEEE 1800-2017, 10.3, 10.4 and 10.7).

ghost use Rattle.std.specs.Prelude.{◌≡◌, ℕ, List, Option, option_map, IfOk, IfSome};
ghost use Rattle.bit_ops.specs.Width.{IsWidth};
ghost use Rattle.const_eval.specs.code.Agreeing.{Agrees};
ghost use Rattle.net_ir.specs.declared.statement.Pos.{Pos};
ghost use Rattle.net_ir.specs.Target.{target_width, named_bits};
ghost use Rattle.elaborate.specs.Targets as spec;
ghost use Rattle.elaborate.specs.code.Walking.{reached, seen_in, IsSound};
ghost use Rattle.elaborate.specs.code.Selecting.{IsCapped, parts_width};

use crate::refusal::told_of_first;
use crate::target::{first_name, place_of, target};
use crate::walk::Walk;
use bit_ops::MAX_WIDTH;
use const_eval::refuse::unnamed_at;
use net_ir::{Target, Term, Var};
use std::alloc::Global;
use sv_ast::{Expr, Lval};
use sv_base::{Fault, Kind, Place};

/// How many bits a name takes as a target, none where it means no variable.
fn named_width(vars: &[Var], var: Option<u32>, width: Option<u32>) -> usize
    ensures { (u : List ℕ) (p : Option Pos) → width ≡ option_map (λ (p : Pos). p.width) p → result ≡ (named_bits vars.now u var p).width }
{
    match var {
        Some(x) => match (vars.get(x as usize), width) {
            (Some(_), Some(width)) => width as usize,
            (Some(var), None) => var.width as usize,
            (None, _) => 0,
        },
        None => 0,
    }
}

/// How many bits a target has.
#[cycle(widths)]
fn target_width(vars: &[Var], to: &Target) -> usize
    ensures { IsCapped result (target_width vars.now to.now) }
{
    match to {
        Target::Of { var, pos, .. } => match pos {
            Some(pos) => named_width(vars, *var, Some(pos.width)),
            None => named_width(vars, *var, None),
        },
        Target::List(parts) => list_width(vars, parts.as_slice()),
    }
}

/// How many bits several targets have together.
#[cycle(widths)]
fn list_width(vars: &[Var], parts: &[Target]) -> usize
    ensures { IsCapped result (parts_width vars.now parts.now) }
{
    let mut width = 0_usize;
    for part in parts {
        width = width.saturating_add(target_width(vars, part));
    }
    width
}

/// The width of a target, where it takes bits, and no more than a value may have.
fn target_size(alloc: Global, place: Place, width: usize) -> Result<Option<u32>, Fault>
    ensures size { (n : ℕ) → IsCapped width n → Agrees (λ found size. found ≡ size) result (spec.target_size place n) }
    ensures width { IfOk result (λ size. IfSome size IsWidth) }
{
    if width > MAX_WIDTH as usize {
        return Err(unnamed_at(alloc, Kind::TooWide, place));
    }
    if width == 0 {
        Ok(None)
    } else {
        Ok(Some(width as u32))
    }
}

/// The value that is assigned to a target.
fn value_for(alloc: Global, walk: &Walk, place: Place, to: &Target, e: &Expr) -> Result<Term, Fault>
    requires { IsSound (reached walk.now) }
    ensures { Agrees (λ found value. found ≡ value) result (spec.value_for (seen_in walk.now) walk.now.scope.vars place to.now e.now) }
{
    let width = target_width(walk.scope.vars.as_slice(), to);
    let size = target_size(alloc, place, width)?;
    let (value, _) = walk.term(alloc, e, size, false)?;
    Ok(value)
}

/// What an assignment writes, then its value.
fn unnamed(
    alloc: Global,
    walk: &Walk,
    needed: bool,
    to: &Lval,
    e: &Expr,
) -> Result<(Target, Term), Fault>
    requires { IsSound (reached walk.now) }
    ensures { Agrees (λ found made. found ≡ made) result (spec.unnamed needed (seen_in walk.now) walk.now.scope.vars to.now e.now) }
{
    let target = target(alloc, walk, needed, to)?;
    let value = value_for(alloc, walk, place_of(to), &target, e)?;
    Ok((target, value))
}

/// What an assignment writes, then its value; where either has too many bits, that is told of the first name that is
/// assigned.
pub fn assignment(
    alloc: Global,
    walk: &Walk,
    needed: bool,
    to: &Lval,
    e: &Expr,
) -> Result<(Target, Term), Fault>
    requires { IsSound (reached walk.now) }
    ensures { Agrees (λ found made. found ≡ made) result (spec.assignment needed (seen_in walk.now) walk.now.scope.vars to.now e.now) }
{
    match unnamed(alloc, walk, needed, to, e) {
        Ok(found) => Ok(found),
        Err(fault) => Err(told_of_first(alloc, first_name(to), fault)),
    }
}
