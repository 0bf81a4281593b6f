//! From an expression to its size, its sign and its term.

ghost use Rattle.std.specs.Prelude.{◌≡◌, true, map, IfOk};
ghost use Rattle.sv_ast.specs.declared.expression.Id.{Id};
ghost use Rattle.sv_ast.specs.declared.expression.Expr.{Number, Fill};
ghost use Rattle.const_eval.specs.Env.{bound_of};
ghost use Rattle.const_eval.specs.Constant.{names_of};
ghost use Rattle.const_eval.specs.Expressions.{Names, meaning_of, select_of};
ghost use Rattle.const_eval.specs.code.Agreeing.{Agrees};
ghost use Rattle.width_rules.specs.declared.joined.Joined.TheVariants.{Nothing};
ghost use Rattle.width_rules.specs.Scope.{IsScope, IsBoundIn};
ghost use Rattle.width_rules.specs.Values.{constant_of};
ghost use Rattle.width_rules.specs.Selecting.{bound_by};
ghost use Rattle.width_rules.specs.Built as spec;
ghost use Rattle.width_rules.specs.Built.{built_of, built_select_of, measured_of};

use crate::fault::WidthFault;
use crate::join::{concatenation, repeated};
use crate::joined::Joined;
use crate::measured::Measured;
use crate::operators::{binary_by, chosen, function_by, unary_by};
use crate::own::alone;
use crate::pending::Pending;
use crate::scope::Scope;
use crate::select::{take, whole};
use crate::taking::Taking;
use const_eval::refuse::{refused_at, second_select};
use const_eval::{Bound, Const, constant};
use net_ir::Term;
use std::alloc::Global;
use sv_ast::{Expr, Id, Sel};
use sv_base::{Kind, Place};

/// What an expression is by itself, or its first refusal.
#[cycle(measuring)]
pub fn measure(alloc: Global, scope: &Scope, e: &Expr) -> Result<Measured, WidthFault>
    requires { IsScope scope.now }
    ensures built { Agrees (λ r m. r ≡ m) result (measured_of (bound_of scope.now.names) scope.now.vars e.now) }
{
    match e {
        Expr::Number(_) => literal(alloc, scope, e),
        Expr::Fill(_) => filled(alloc, scope, e),
        Expr::Read(name, selects) => {
            let bound = bound(alloc, scope, name)?;
            read(alloc, scope, name, bound, selects.as_slice())
        }
        Expr::Unary(sign, operand) => {
            let a = measure(alloc, scope, operand.get())?;
            unary_by(alloc, sign, a)
        }
        Expr::Binary(sign, left, right) => {
            let a = measure(alloc, scope, left.get())?;
            let b = measure(alloc, scope, right.get())?;
            binary_by(alloc, sign, a, b)
        }
        Expr::Choice(_, test, first, second) => {
            let condition = measure(alloc, scope, test.get())?;
            let a = measure(alloc, scope, first.get())?;
            let b = measure(alloc, scope, second.get())?;
            Ok(chosen(alloc, condition, a, b)?)
        }
        Expr::Concat(place, parts) => {
            let joined = join(alloc, scope, parts.as_slice())?;
            concatenation(alloc, *place, joined)
        }
        Expr::Repeat(place, count, parts) => {
            let count = constant_in(alloc, scope, count.get())?;
            let joined = join(alloc, scope, parts.as_slice())?;
            repeated(alloc, *place, count.number(), joined)
        }
        Expr::System(name, argument) => {
            let a = measure(alloc, scope, argument.get())?;
            function_by(alloc, name, a)
        }
    }
}

/// A number.
fn literal(alloc: Global, scope: &Scope, e: &Expr) -> Result<Measured, WidthFault>
    ensures built { (text : Id) → e.now ≡ Number text → Agrees (λ r m. r ≡ m) result (spec.literal text) }
{
    let number = constant_in(alloc, scope, e)?;
    let bits = number.value;
    Ok(alone(bits.width, Term::Const(bits), number.signed))
}

/// A fill.
fn filled(alloc: Global, scope: &Scope, e: &Expr) -> Result<Measured, WidthFault>
    ensures built { (text : Id) → e.now ≡ Fill text → Agrees (λ r m. r ≡ m) result (spec.filled text) }
{
    let bit = constant_in(alloc, scope, e)?;
    Ok(Measured {
        size: 1,
        signed: false,
        pending: Pending::Fill(bit.value),
    })
}

/// What a name stands for.
fn bound(alloc: Global, scope: &Scope, name: &Id) -> Result<Bound, WidthFault>
    requires { IsScope scope.now }
    ensures bound { IfOk result (IsBoundIn scope.now) }
    ensures built { Agrees (λ r b. r ≡ b) result (bound_by (bound_of scope.now.names) name.now) }
{
    match scope.names.bound(&name.name) {
        Some(bound) => Ok(bound),
        None => Err(refused_at(alloc, Kind::UnknownName, name)?),
    }
}

/// The value of an expression where a constant is needed.
fn constant_in(alloc: Global, scope: &Scope, e: &Expr) -> Result<Const, WidthFault>
    ensures built { Agrees (λ r c. r ≡ c) result (constant_of (meaning_of (names_of scope.now.names) true e.now)) }
{
    constant(alloc, e, &scope.names)
}

/// A name with its selects: none, or one.
#[cycle(measuring)]
fn read(
    alloc: Global,
    scope: &Scope,
    name: &Id,
    bound: Bound,
    selects: &[Sel],
) -> Result<Measured, WidthFault>
    requires scope { IsScope scope.now }
    requires bound { IsBoundIn scope.now bound }
    ensures built { Agrees (λ r m. r ≡ m) result (spec.selected scope.now.vars name.now bound
        (map (built_select_of (bound_of scope.now.names) scope.now.vars) selects.now)) }
{
    match selects {
        [] => Ok(whole(scope, name, bound)),
        [only] => select(alloc, scope, name, bound, only),
        [first, second, ..] => {
            let _ = positions(alloc, scope, first)?;
            let _ = positions(alloc, scope, second)?;
            Err(second_select(alloc, place_of(second))?)
        }
    }
}

/// What one select takes of a name.
#[cycle(measuring)]
fn select(
    alloc: Global,
    scope: &Scope,
    name: &Id,
    bound: Bound,
    select: &Sel,
) -> Result<Measured, WidthFault>
    requires scope { IsScope scope.now }
    requires bound { IsBoundIn scope.now bound }
    ensures built { Agrees (λ r m. r ≡ m) result
        (spec.selected_by scope.now.vars name.now bound (built_select_of (bound_of scope.now.names) scope.now.vars select.now)) }
{
    let taking = positions(alloc, scope, select)?;
    take(alloc, scope, name, bound, taking)
}

/// Where the `[` of a select stands.
fn place_of(select: &Sel) -> Place
    ensures { (names : Names) → result ≡ (select_of names select.now).place }
{
    match select {
        Sel::Bit(place, _)
        | Sel::Part(place, _, _)
        | Sel::Up(place, _, _)
        | Sel::Down(place, _, _) => { *place }
    }
}

/// The positions of a select.
#[cycle(measuring)]
fn positions(alloc: Global, scope: &Scope, select: &Sel) -> Result<Taking, WidthFault>
    requires { IsScope scope.now }
    ensures built { Agrees (λ r t. r ≡ t) result
        (built_select_of (bound_of scope.now.names) scope.now.vars select.now).taking }
{
    match select {
        Sel::Bit(_, at) => {
            let at = measure(alloc, scope, at.get())?;
            Ok(Taking::At(at))
        }
        Sel::Part(_, high, low) => {
            let high = constant_in(alloc, scope, high.get())?;
            let low = constant_in(alloc, scope, low.get())?;
            Ok(Taking::DownTo(high, low))
        }
        Sel::Up(_, at, width) => {
            let at = measure(alloc, scope, at.get())?;
            let width = constant_in(alloc, scope, width.get())?;
            Ok(Taking::UpFrom(at, width))
        }
        Sel::Down(_, at, width) => {
            let at = measure(alloc, scope, at.get())?;
            let width = constant_in(alloc, scope, width.get())?;
            Ok(Taking::DownFrom(at, width))
        }
    }
}

/// Parts, joined.
#[cycle(measuring)]
fn join(alloc: Global, scope: &Scope, parts: &[Expr]) -> Result<Joined, WidthFault>
    requires { IsScope scope.now }
    ensures built { Agrees (λ r j. r ≡ j) result
        (spec.joined_after Nothing (map (built_of (bound_of scope.now.names) scope.now.vars) parts.now)) }
{
    let mut joined = Joined::Nothing;
    for part in parts {
        let part = measure(alloc, scope, part)?;
        joined = joined.with(alloc, part)?;
    }
    Ok(joined)
}
