//! What assignments write (IEEE 1800-2017, 10.3, 10.4, 11.4.12 and 11.5.1).

ghost use Rattle.std.specs.Prelude.{◌≡◌, map, Some};
ghost use Rattle.std.specs.Option.{option_copied};
ghost use Rattle.const_eval.specs.Meaning.{Meaning};
ghost use Rattle.const_eval.specs.code.Agreeing.{Agrees};
ghost use Rattle.width_rules.specs.Values.{const_of};
ghost use Rattle.elaborate.specs.Targets as spec;
ghost use Rattle.elaborate.specs.code.Walking.{reached, seen_in, IsSound};
ghost use Rattle.elaborate.specs.code.Selecting.{IsSelected};

use crate::names::Seen;
use crate::walk::Walk;
use bit_ops::Word;
use const_eval::law::sizes_and_values;
use const_eval::refuse::{part_width, refused_at, second_select};
use const_eval::{Bound, Const, span};
use net_ir::{Pos, Target, Term};
use sqlite_items::Items;
use std::alloc::Global;
use sv_ast::{Expr, Id, Lval, Sel};
use sv_base::{Fault, Kind, Name, Place};

/// What a select says: the width that it asks for, and from which position, up or down.
#[derive(Drop)]
pub struct Selected {
    count: Word,
    at: Term,
    at_signed: bool,
    down: bool,
}

/// A constant as a term of its own size.
fn constant_term(value: Const) -> Term
    ensures { (m : Meaning) → value ≡ const_of m → result ≡ (spec.constant_term m).0 }
{
    Term::Const(value.value)
}

/// A position and its sign; it is a constant where one is needed.
fn position(alloc: Global, walk: &Walk, needed: bool, e: &Expr) -> Result<(Term, bool), Fault>
    requires { IsSound (reached walk.now) }
    ensures { Agrees (λ found at. found ≡ at) result (spec.position_at needed (seen_in walk.now) walk.now.scope.vars e.now) }
{
    if needed {
        let value = walk.constant(alloc, e)?;
        Ok((constant_term(value), value.signed))
    } else {
        walk.term(alloc, e, None, false)
    }
}

/// So many bits from a position up, or from it down.
fn indexed(
    alloc: Global,
    walk: &Walk,
    needed: bool,
    at: &Expr,
    width: &Expr,
    down: bool,
) -> Result<Selected, Fault>
    requires { IsSound (reached walk.now) }
    ensures { Agrees IsSelected result (spec.indexed needed (seen_in walk.now) walk.now.scope.vars at.now width.now down) }
{
    sizes_and_values();
    let (at, at_signed) = position(alloc, walk, needed, at)?;
    let width = walk.constant(alloc, width)?;
    Ok(Selected {
        count: width.number().count(),
        at,
        at_signed,
        down,
    })
}

/// A select of a target: its positions are constants where they are needed; both bounds of a part and the width of
/// an indexed part always are.
fn select(alloc: Global, walk: &Walk, needed: bool, select: &Sel) -> Result<Selected, Fault>
    requires { IsSound (reached walk.now) }
    ensures { Agrees IsSelected result (spec.select_at needed (seen_in walk.now) walk.now.scope.vars select.now) }
{
    match select {
        Sel::Bit(_, at) => {
            let (at, at_signed) = position(alloc, walk, needed, at.get())?;
            Ok(Selected {
                count: 1,
                at,
                at_signed,
                down: false,
            })
        }
        Sel::Part(_, high, low) => {
            sizes_and_values();
            let high = walk.constant(alloc, high.get())?;
            let low = walk.constant(alloc, low.get())?;
            Ok(Selected {
                count: span(high.number(), low.number()),
                at: constant_term(low),
                at_signed: low.signed,
                down: false,
            })
        }
        Sel::Up(_, at, width) => indexed(alloc, walk, needed, at.get(), width.get(), false),
        Sel::Down(_, at, width) => indexed(alloc, walk, needed, at.get(), width.get(), true),
    }
}

/// Where the `[` of a select stands.
fn place_of_select(select: &Sel) -> Place
    ensures { result ≡ spec.place_of_select select.now }
{
    match select {
        Sel::Bit(place, _)
        | Sel::Part(place, _, _)
        | Sel::Up(place, _, _)
        | Sel::Down(place, _, _) => { *place }
    }
}

/// The variable that a visible name stands for, where it stands for one.
pub fn variable_of(seen: Seen) -> Option<u32>
    ensures { result ≡ spec.variable_of seen }
{
    match seen {
        Seen::Stands(Bound::Variable(number)) => Some(number),
        _ => None,
    }
}

/// Whether bits can be selected from what a name stands for.
fn is_ranged(walk: &Walk, seen: Seen) -> bool
    ensures { result ≡ spec.is_ranged walk.now.scope.vars seen }
{
    match seen {
        Seen::Stands(Bound::Variable(x)) => match walk.scope.vars.get(x as usize) {
            Some(var) => var.ranged,
            None => false,
        },
        Seen::Stands(Bound::Constant { .. }) => true,
        Seen::Label => false,
    }
}

/// The bits that a select takes of a name that has a range.
fn bits_taken(alloc: Global, ranged: bool, name: &Id, selected: Selected) -> Result<Pos, Fault>
    ensures { (s : spec.Selection) → IsSelected selected s → Agrees (λ found bits. Some found ≡ bits) result (spec.bits_taken ranged name.now s) }
{
    if !ranged {
        return Err(refused_at(alloc, Kind::BadRange, name)?);
    }
    let width = part_width(alloc, name, selected.count)?;
    Ok(Pos {
        at: selected.at,
        at_signed: selected.at_signed,
        down: selected.down,
        width,
    })
}

/// The bits that a target takes of a name: all, or those of one select; a second one is refused.
fn bits(
    alloc: Global,
    walk: &Walk,
    needed: bool,
    name: &Id,
    ranged: bool,
    selects: &[Sel],
) -> Result<Option<Pos>, Fault>
    requires { IsSound (reached walk.now) }
    ensures { Agrees (λ found bits. found ≡ bits) result (spec.selected needed (seen_in walk.now) walk.now.scope.vars name.now ranged selects.now) }
{
    match selects {
        [] => Ok(None),
        [only] => {
            let selected = select(alloc, walk, needed, only)?;
            Ok(Some(bits_taken(alloc, ranged, name, selected)?))
        }
        [first, second, ..] => {
            let _ = select(alloc, walk, needed, first)?;
            let _ = select(alloc, walk, needed, second)?;
            Err(second_select(alloc, place_of_select(second))?)
        }
    }
}

/// A name with its selects as a target; one that stands for no net or variable is a target without one.
fn named_target(
    alloc: Global,
    walk: &Walk,
    needed: bool,
    name: &Id,
    selects: &[Sel],
) -> Result<Target, Fault>
    requires { IsSound (reached walk.now) }
    ensures { Agrees (λ found target. found ≡ target) result (spec.named_target needed (seen_in walk.now) walk.now.scope.vars name.now selects.now) }
{
    let seen = walk.visible(alloc, name)?;
    let pos = bits(alloc, walk, needed, name, is_ranged(walk, seen), selects)?;
    Ok(Target::Of {
        var: variable_of(seen),
        name: Name::of(alloc, name.name.bytes())?,
        place: name.place,
        pos,
    })
}

/// A target, whose positions are constants where they are needed.
#[cycle(targets)]
pub fn target(alloc: Global, walk: &Walk, needed: bool, to: &Lval) -> Result<Target, Fault>
    requires { IsSound (reached walk.now) }
    ensures { Agrees (λ found target. found ≡ target) result (spec.target_of needed (seen_in walk.now) walk.now.scope.vars to.now) }
{
    match to {
        Lval::Of(name, selects) => named_target(alloc, walk, needed, name, selects.as_slice()),
        Lval::List(_, parts) => Ok(Target::List(targets(alloc, walk, needed, parts.as_slice())?)),
    }
}

/// The parts of a concatenated target, from the left.
#[cycle(targets)]
fn targets(alloc: Global, walk: &Walk, needed: bool, parts: &[Lval]) -> Result<Items<Target>, Fault>
    requires { IsSound (reached walk.now) }
    ensures { Agrees (λ found targets. found ≡ targets) result (spec.all_of (map (spec.target_of needed (seen_in walk.now) walk.now.scope.vars) parts.now)) }
{
    let mut found = Items::new(alloc);
    for part in parts {
        found.push(target(alloc, walk, needed, part)?)?;
    }
    Ok(found)
}

/// The first name of a target.
#[cycle(first_names)]
pub fn first_name<'a>(to: &'a Lval) -> Option<&'a Id>
    ensures { option_copied result ≡ spec.first_name to.now }
{
    match to {
        Lval::Of(name, _) => Some(name),
        Lval::List(_, parts) => first_of(parts.as_slice()),
    }
}

/// The first name of several targets.
#[cycle(first_names)]
fn first_of<'a>(parts: &'a [Lval]) -> Option<&'a Id>
    ensures { option_copied result ≡ spec.first_of (map spec.first_name parts.now) }
{
    for part in parts {
        if let Some(name) = first_name(part) {
            return Some(name);
        }
    }
    None
}

/// Where the first token of a target stands.
pub fn place_of(to: &Lval) -> Place
    ensures { result ≡ spec.place_of to.now }
{
    match to {
        Lval::Of(name, _) => name.place,
        Lval::List(place, _) => *place,
    }
}
