//! What the items of a module add (IEEE 1800-2017, 9.2.2 and 10.3).

ghost use Rattle.std.specs.Prelude.{◌≡◌, OnOk};
ghost use Rattle.const_eval.specs.code.Agreeing.{Agrees};
ghost use Rattle.elaborate.specs.Reached.{in_turn};
ghost use Rattle.elaborate.specs.Targets.{all_of};
ghost use Rattle.elaborate.specs.Items as spec;
ghost use Rattle.elaborate.specs.code.Walking.{reached, seen_in, IsSound, IsStep};

use crate::assignment::assignment;
use crate::declaration::declaration;
use crate::refusal::not_yet;
use crate::statement::statement;
use crate::target::{place_of, variable_of};
use crate::walk::Walk;
use net_ir::{Driver, Trigger};
use std::alloc::Global;
use sv_ast::{Edge, Item, Pair, Stmt};
use sv_base::{Fault, Name, Place, Sequence};

/// A continuous assignment, whose positions are constants (10.3).
fn continuous(alloc: Global, walk: &mut Walk, pair: &Pair) -> Result<(), Fault>
    requires sound { IsSound (reached walk.old) }
    ensures step { IsStep (spec.continuous pair.now) walk.old walk.new result }
    ensures sound { OnOk result (IsSound (reached walk.new)) }
{
    let (target, value) = assignment(alloc, walk, true, &pair.target, &pair.value)?;
    let place = place_of(&pair.target);
    walk.count(alloc, place)?;
    walk.drive(Driver::Assign {
        target,
        value,
        place,
    })
}

/// Continuous assignments one behind another.
fn assignments(alloc: Global, walk: &mut Walk, pairs: &[Pair]) -> Result<(), Fault>
    requires sound { IsSound (reached walk.old) }
    ensures step { IsStep (in_turn spec.continuous pairs.now) walk.old walk.new result }
    ensures sound { OnOk result (IsSound (reached walk.new)) }
{
    let mut rest = pairs;
    while let [pair, behind @ ..] = rest {
        continuous(alloc, walk, pair)?;
        rest = behind;
    }
    Ok(())
}

/// An event control, whose name is visible (9.4.2).
fn trigger(alloc: Global, walk: &Walk, edge: &Edge) -> Result<Trigger, Fault>
    ensures { Agrees (λ found trigger. found ≡ trigger) result (spec.trigger (seen_in walk.now) edge.now) }
{
    let seen = walk.visible(alloc, &edge.name)?;
    Ok(Trigger {
        name: Name::of(alloc, edge.name.name.bytes())?,
        var: variable_of(seen),
        falling: edge.word.name.bytes() == "negedge".as_bytes(),
        place: edge.name.place,
    })
}

/// Event controls, from the left.
fn triggers(alloc: Global, walk: &Walk, edges: &[Edge]) -> Result<Sequence<Trigger>, Fault>
    ensures { Agrees (λ found triggers. found ≡ triggers) result (all_of (spec.triggers_of (seen_in walk.now) edges.now)) }
{
    let mut found = Sequence::new(alloc);
    let mut rest = edges;
    while let [edge, behind @ ..] = rest {
        found.push(trigger(alloc, walk, edge)?)?;
        rest = behind;
    }
    Ok(found)
}

/// A clocked process: its event controls, then its statement (9.2.2.4).
fn clocked(
    alloc: Global,
    walk: &mut Walk,
    place: Place,
    edges: &[Edge],
    body: &Stmt,
) -> Result<(), Fault>
    requires sound { IsSound (reached walk.old) }
    ensures step { IsStep (spec.clocked place edges.now body.now) walk.old walk.new result }
    ensures sound { OnOk result (IsSound (reached walk.new)) }
{
    let triggers = triggers(alloc, walk, edges)?;
    let body = statement(alloc, walk, body)?;
    walk.drive(Driver::Clocked {
        triggers,
        body,
        place,
    })
}

/// A combinational process (9.2.2.2).
fn combinational(alloc: Global, walk: &mut Walk, place: Place, body: &Stmt) -> Result<(), Fault>
    requires sound { IsSound (reached walk.old) }
    ensures step { IsStep (spec.combinational place body.now) walk.old walk.new result }
    ensures sound { OnOk result (IsSound (reached walk.new)) }
{
    let body = statement(alloc, walk, body)?;
    walk.drive(Driver::Comb { body, place })
}

/// An item; parameters, instances and what is generated are not elaborated so far.
fn item(alloc: Global, walk: &mut Walk, item: &Item) -> Result<(), Fault>
    requires sound { IsSound (reached walk.old) }
    ensures step { IsStep (spec.step_of item.now) walk.old walk.new result }
    ensures sound { OnOk result (IsSound (reached walk.new)) }
{
    match item {
        Item::Declare(shape, decls) => declaration(alloc, walk, shape, decls.as_slice()),
        Item::Assign(pairs) => assignments(alloc, walk, pairs.as_slice()),
        Item::Comb(place, body) => combinational(alloc, walk, *place, body),
        Item::Clocked(place, edges, body) => {
            clocked(alloc, walk, *place, edges.as_slice(), body)
        }
        Item::Empty => Ok(()),
        Item::Param(_, _, _)
        | Item::Genvar(_)
        | Item::Instance(_, _, _)
        | Item::Generate(_)
        | Item::For(_, _, _, _)
        | Item::If(_, _, _, _) => Err(not_yet(alloc)?),
    }
}

/// Items one behind another.
pub fn items(alloc: Global, walk: &mut Walk, items: &[Item]) -> Result<(), Fault>
    requires sound { IsSound (reached walk.old) }
    ensures step { IsStep (in_turn spec.step_of items.now) walk.old walk.new result }
    ensures sound { OnOk result (IsSound (reached walk.new)) }
{
    let mut rest = items;
    while let [one, behind @ ..] = rest {
        item(alloc, walk, one)?;
        rest = behind;
    }
    Ok(())
}
