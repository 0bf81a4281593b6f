//! From an expression to its size, its sign and its value.

ghost use Rattle.std.specs.Prelude.{◌≡◌, true, map};
ghost use Rattle.const_eval.specs.Constant.{constant_of, names_of, constant_named};
ghost use Rattle.const_eval.specs.Expressions as spec;
ghost use Rattle.const_eval.specs.code.Agreeing.{Agrees, Matches, IsJoined, ArePositions};

use crate::apply::{binary_by, chosen, function_by, unary_by};
use crate::env::Env;
use crate::fault::ConstFault;
use crate::join::{concatenation, repeated};
use crate::joined::Joined;
use crate::literal::{fill, number};
use crate::measured::Measured;
use crate::name::{Constant, constant_by};
use crate::own::alone;
use crate::pending::Pending;
use crate::refuse::{refused_at, second_select};
use crate::select::{take, whole};
use crate::taking::Taking;
use std::alloc::Global;
use sv_ast::{Expr, Id, Sel};
use sv_base::{Kind, Place};

/// What an expression is by itself, or its first refusal.
#[cycle(measuring)]
pub fn measure(alloc: Global, env: &Env, e: &Expr) -> Result<Measured, ConstFault>
    ensures { Agrees Matches result (constant_of env.now e.now) }
{
    match e {
        Expr::Number(text) => literal(alloc, text),
        Expr::Fill(text) => filled(alloc, text),
        Expr::Read(name, selects) => {
            let constant = constant_by(alloc, env, name)?;
            read(alloc, env, name, constant, selects.as_slice())
        }
        Expr::Unary(sign, operand) => {
            let a = measure(alloc, env, operand.get())?;
            unary_by(alloc, sign, a)
        }
        Expr::Binary(sign, left, right) => {
            let a = measure(alloc, env, left.get())?;
            let b = measure(alloc, env, right.get())?;
            binary_by(alloc, sign, a, b)
        }
        Expr::Choice(_, test, first, second) => {
            let condition = measure(alloc, env, test.get())?;
            let a = measure(alloc, env, first.get())?;
            let b = measure(alloc, env, second.get())?;
            Ok(chosen(&condition, a, b))
        }
        Expr::Concat(place, parts) => {
            let joined = join(alloc, env, parts.as_slice())?;
            concatenation(alloc, *place, joined)
        }
        Expr::Repeat(place, count, parts) => {
            let count = measure(alloc, env, count.get())?;
            let joined = join(alloc, env, parts.as_slice())?;
            repeated(alloc, *place, &count, joined)
        }
        Expr::System(name, argument) => {
            let a = measure(alloc, env, argument.get())?;
            function_by(alloc, name, &a)
        }
    }
}

/// A number.
fn literal(alloc: Global, text: &Id) -> Result<Measured, ConstFault>
    ensures { Agrees Matches result (spec.literal text.now) }
{
    match number(text.name.bytes()) {
        Some(literal) => Ok(alone(literal.value, literal.signed)),
        None => Err(refused_at(alloc, Kind::BadNumber, text)?),
    }
}

/// A fill.
fn filled(alloc: Global, text: &Id) -> Result<Measured, ConstFault>
    ensures { Agrees Matches result (spec.filled text.now) }
{
    match fill(text.name.bytes()) {
        Some(one) => Ok(Measured {
            size: 1,
            signed: false,
            pending: Pending::Fill(one),
        }),
        None => Err(refused_at(alloc, Kind::BadNumber, text)?),
    }
}

/// A constant with its selects: none, or one.
#[cycle(measuring)]
fn read(
    alloc: Global,
    env: &Env,
    name: &Id,
    constant: Constant,
    selects: &[Sel],
) -> Result<Measured, ConstFault>
    ensures { Agrees Matches result
        (spec.selected (map (spec.select_of (names_of env.now)) selects.now) true
        (constant_named constant.value constant.low) name.now) }
{
    match selects {
        [] => Ok(whole(constant)),
        [only] => select(alloc, env, name, constant, only),
        [first, second, ..] => {
            let _ = positions(alloc, env, first)?;
            let _ = positions(alloc, env, second)?;
            Err(second_select(alloc, place_of(second))?)
        }
    }
}

/// What one select takes of a constant.
#[cycle(measuring)]
fn select(
    alloc: Global,
    env: &Env,
    name: &Id,
    constant: Constant,
    select: &Sel,
) -> Result<Measured, ConstFault>
    ensures { Agrees Matches result
        (spec.selected_by (spec.select_of (names_of env.now) select.now) true
        (constant_named constant.value constant.low) name.now) }
{
    let taking = positions(alloc, env, select)?;
    take(alloc, &taking, constant, name)
}

/// Where the `[` of a select stands.
fn place_of(select: &Sel) -> Place
    ensures { (names : spec.Names) → result ≡ (spec.select_of names select.now).place }
{
    match select {
        Sel::Bit(place, _)
        | Sel::Part(place, _, _)
        | Sel::Up(place, _, _)
        | Sel::Down(place, _, _) => *place,
    }
}

/// The positions of a select.
#[cycle(measuring)]
fn positions(alloc: Global, env: &Env, select: &Sel) -> Result<Taking, ConstFault>
    ensures { Agrees ArePositions result
        ((spec.select_of (names_of env.now) select.now).positions true) }
{
    match select {
        Sel::Bit(_, at) => {
            let at = measure(alloc, env, at.get())?;
            Ok(Taking::At(at))
        }
        Sel::Part(_, high, low) => {
            let high = measure(alloc, env, high.get())?;
            let low = measure(alloc, env, low.get())?;
            Ok(Taking::DownTo(high, low))
        }
        Sel::Up(_, at, width) => {
            let at = measure(alloc, env, at.get())?;
            let width = measure(alloc, env, width.get())?;
            Ok(Taking::UpFrom(at, width))
        }
        Sel::Down(_, at, width) => {
            let at = measure(alloc, env, at.get())?;
            let width = measure(alloc, env, width.get())?;
            Ok(Taking::DownFrom(at, width))
        }
    }
}

/// Parts, joined.
#[cycle(measuring)]
fn join(alloc: Global, env: &Env, parts: &[Expr]) -> Result<Joined, ConstFault>
    ensures { Agrees IsJoined result (spec.meanings_of (names_of env.now) true parts.now) }
{
    let mut joined = Joined::Nothing;
    for part in parts {
        let part = measure(alloc, env, part)?;
        joined = joined.with(part.own());
    }
    Ok(joined)
}
