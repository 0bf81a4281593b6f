//! Terms of names and of what is selected of them (IEEE 1800-2017, 11.5.1).

ghost use Rattle.std.specs.Prelude.{◌≡◌, pos, IfOk};
ghost use Rattle.const_eval.specs.code.Agreeing.{Agrees};
ghost use Rattle.width_rules.specs.Scope.{IsScope, IsBoundIn};
ghost use Rattle.width_rules.specs.Waiting.{own_term};
ghost use Rattle.width_rules.specs.Selecting as spec;
ghost use Rattle.width_rules.specs.Selecting.{shape_of};
ghost use Rattle.width_rules.specs.declared.taking.Taking.TheVariants as taking;
ghost use Rattle.width_rules.specs.code.Taking.{indexed};

use crate::fault::WidthFault;
use crate::measured::Measured;
use crate::own::alone;
use crate::scope::Scope;
use crate::taking::Taking;
use bit_ops::Word;
use const_eval::refuse::{part_width, refused_at};
use const_eval::{Bound, Const, span};
use net_ir::Term;
use sqlite_items::Boxed;
use std::alloc::{AllocError, Global};
use sv_ast::Id;
use sv_base::Kind;

/// The width of what a name stands for.
fn width_of(scope: &Scope, bound: Bound) -> u32
    requires { IsBoundIn scope.now bound }
    ensures { result ≡ (shape_of scope.now.vars bound).size }
{
    match bound {
        Bound::Constant { value, .. } => value.value.width,
        Bound::Variable(x) => scope.vars.as_slice()[x as usize].width,
    }
}

/// Whether bits can be selected from it.
fn is_ranged(scope: &Scope, bound: Bound) -> bool
    requires { IsBoundIn scope.now bound }
    ensures { result ≡ (shape_of scope.now.vars bound).ranged }
{
    match bound {
        Bound::Constant { .. } => true,
        Bound::Variable(x) => scope.vars.as_slice()[x as usize].ranged,
    }
}

/// Whether it is signed.
fn is_signed(scope: &Scope, bound: Bound) -> bool
    requires { IsBoundIn scope.now bound }
    ensures { result ≡ (shape_of scope.now.vars bound).signed }
{
    match bound {
        Bound::Constant { value, .. } => value.signed,
        Bound::Variable(x) => scope.vars.as_slice()[x as usize].signed,
    }
}

/// The lowest position of its range.
fn low_of(scope: &Scope, bound: Bound) -> u32
    requires { IsBoundIn scope.now bound }
    ensures { result ≡ (shape_of scope.now.vars bound).low }
{
    match bound {
        Bound::Constant { low, .. } => low,
        Bound::Variable(x) => scope.vars.as_slice()[x as usize].low,
    }
}

/// The whole of it as a term.
fn term_of(name: &Id, bound: Bound) -> Term
    ensures built { result ≡ spec.name_term name.now bound }
{
    match bound {
        Bound::Constant { value, .. } => Term::Const(value.value),
        Bound::Variable(var) => Term::Read {
            var,
            place: name.place,
        },
    }
}

/// A whole name.
pub fn whole(scope: &Scope, name: &Id, bound: Bound) -> Measured
    requires scope { IsScope scope.now }
    requires bound { IsBoundIn scope.now bound }
    ensures built { result ≡ spec.whole scope.now.vars name.now bound }
{
    let term = term_of(name, bound);
    alone(width_of(scope, bound), term, is_signed(scope, bound))
}

/// So many bits of a name from a position up, or from it down; the position is a number by a sign.
fn pick(
    alloc: Global,
    scope: &Scope,
    name: &Id,
    bound: Bound,
    at: Term,
    at_signed: bool,
    down: bool,
    width: u32,
) -> Result<Measured, AllocError>
    requires { IsBoundIn scope.now bound }
    ensures built { IfOk result (λ r.
        r ≡ spec.picked scope.now.vars name.now bound at at_signed down width) }
{
    let at = Boxed::new(alloc, at)?;
    let base = Boxed::new(alloc, term_of(name, bound))?;
    let picked = Term::Pick {
        base,
        low: low_of(scope, bound),
        at,
        at_signed,
        down,
        width,
    };
    Ok(alone(width, picked, false))
}

/// So many bits of a name from a position that was measured up, or from it down.
fn pick_at(
    alloc: Global,
    scope: &Scope,
    name: &Id,
    bound: Bound,
    at: Measured,
    down: bool,
    width: u32,
) -> Result<Measured, AllocError>
    requires { IsBoundIn scope.now bound }
    ensures built { IfOk result (λ r.
        r ≡ spec.picked scope.now.vars name.now bound (own_term at) at.signed down width) }
{
    let signed = at.signed;
    let at = at.own(alloc)?;
    pick(alloc, scope, name, bound, at, signed, down, width)
}

/// A count as the width of a part of a name, where bits can be selected from it.
fn taken_width(
    alloc: Global,
    scope: &Scope,
    name: &Id,
    bound: Bound,
    count: Word,
) -> Result<u32, WidthFault>
    requires { IsBoundIn scope.now bound }
    ensures told { Agrees (λ w n. w ≡ n) result
        (spec.taken_width (pos count) (shape_of scope.now.vars bound) name.now) }
{
    if is_ranged(scope, bound) {
        part_width(alloc, name, count)
    } else {
        Err(refused_at(alloc, Kind::BadRange, name)?)
    }
}

/// The bit at a position.
fn take_at(
    alloc: Global,
    scope: &Scope,
    name: &Id,
    bound: Bound,
    at: Measured,
) -> Result<Measured, WidthFault>
    requires { IsBoundIn scope.now bound }
    ensures built { Agrees (λ r m. r ≡ m) result (spec.take scope.now.vars name.now bound (taking.At at)) }
{
    let width = taken_width(alloc, scope, name, bound, 1)?;
    Ok(pick_at(alloc, scope, name, bound, at, false, width)?)
}

/// The bits from one position down to another.
fn take_part(
    alloc: Global,
    scope: &Scope,
    name: &Id,
    bound: Bound,
    high: Const,
    low: Const,
) -> Result<Measured, WidthFault>
    requires { IsBoundIn scope.now bound }
    ensures built { Agrees (λ r m. r ≡ m) result
        (spec.take scope.now.vars name.now bound (taking.DownTo high low)) }
{
    let width = taken_width(alloc, scope, name, bound, span(high.number(), low.number()))?;
    let at = Term::Const(low.value);
    Ok(pick(alloc, scope, name, bound, at, low.signed, false, width)?)
}

/// So many bits from a position up, or from it down.
fn take_from(
    alloc: Global,
    scope: &Scope,
    name: &Id,
    bound: Bound,
    at: Measured,
    width: Const,
    down: bool,
) -> Result<Measured, WidthFault>
    requires { IsBoundIn scope.now bound }
    ensures built { Agrees (λ r m. r ≡ m) result
        (spec.take scope.now.vars name.now bound (indexed down at width)) }
{
    let width = taken_width(alloc, scope, name, bound, width.number().count())?;
    Ok(pick_at(alloc, scope, name, bound, at, down, width)?)
}

/// What a select takes of a name.
pub fn take(
    alloc: Global,
    scope: &Scope,
    name: &Id,
    bound: Bound,
    taking: Taking,
) -> Result<Measured, WidthFault>
    requires { IsBoundIn scope.now bound }
    ensures built { Agrees (λ r m. r ≡ m) result (spec.take scope.now.vars name.now bound taking) }
{
    match taking {
        Taking::At(at) => take_at(alloc, scope, name, bound, at),
        Taking::DownTo(high, low) => take_part(alloc, scope, name, bound, high, low),
        Taking::UpFrom(at, width) => take_from(alloc, scope, name, bound, at, width, false),
        Taking::DownFrom(at, width) => take_from(alloc, scope, name, bound, at, width, true),
    }
}
