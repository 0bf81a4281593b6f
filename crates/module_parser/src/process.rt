//! Processes and their event controls (9.2, 9.4.2).

ghost use Rattle.std.specs.Prelude.{◌≡◌, Option, IfOk};
ghost use Rattle.sv_ast.specs.declared.expression.Id.{Id};
ghost use Rattle.sv_ast.specs.declared.item.Edge.{Edge};
ghost use Rattle.expr_parser.specs.Input.{Gives};
ghost use Rattle.module_parser.specs.Grammar.{process_of};
ghost use Rattle.module_parser.specs.Reading as spec;
ghost use Rattle.module_parser.specs.code.Steps as steps;

use crate::bracket::parenthesised;
use crate::cursor::Cursor;
use crate::kept::kept;
use crate::list::single;
use crate::statement::statement;
use expr_parser::ParseFault;
use std::alloc::{AllocError, Global};
use sv_ast::{Edge, Item, Stmt};
use sv_base::{Place, Sequence};

const EDGES: [&str; 2] = ["posedge", "negedge"];

#[tactic(auto, unfolding(crate::specs::Reading::combinational))]
pub fn combinational(alloc: Global, tokens: &mut Cursor<'_>) -> Result<Item, ParseFault>
    ensures { Gives (spec.combinational tokens.old) result tokens.new }
{
    let place = tokens.take_word(alloc, "always_comb")?.place;
    let body = statement(alloc, tokens)?;
    Ok(Item::Comb(place, body))
}

#[tactic(auto, unfolding(crate::specs::Reading::edge))]
fn edge(alloc: Global, tokens: &mut Cursor<'_>) -> Result<Edge, ParseFault>
    ensures { Gives (spec.edge tokens.old) result tokens.new }
{
    let word = tokens.take_word_of(alloc, &EDGES)?;
    let name = tokens.take_identifier(alloc)?;
    Ok(Edge { word, name })
}

fn parenthesised_edge(alloc: Global, tokens: &mut Cursor<'_>) -> Result<Edge, ParseFault>
    ensures { Gives (spec.parenthesised spec.edge tokens.old) result tokens.new }
{
    parenthesised(alloc, tokens, edge)
}

/// The one edge that a clocked process waits for.
fn edges(alloc: Global, tokens: &mut Cursor<'_>) -> Result<Sequence<Edge>, ParseFault>
    ensures { Gives (steps.edges tokens.old) result tokens.new }
{
    tokens.expect(alloc, "@")?;
    let found = parenthesised_edge(alloc, tokens)?;
    Ok(single(alloc, found)?)
}

#[tactic(auto, unfolding(crate::specs::Reading::clocked))]
pub fn clocked(alloc: Global, tokens: &mut Cursor<'_>) -> Result<Item, ParseFault>
    ensures { Gives (spec.clocked tokens.old) result tokens.new }
{
    let place = tokens.take_word(alloc, "always_ff")?.place;
    let edges = edges(alloc, tokens)?;
    let (edges, body) = kept(edges, statement(alloc, tokens))?;
    Ok(Item::Clocked(place, edges, body))
}

/// `*` or an edge.
fn event(alloc: Global, tokens: &mut Cursor<'_>) -> Result<Option<Edge>, ParseFault>
    ensures { Gives (spec.event tokens.old) result tokens.new }
{
    if tokens.sees("*") {
        tokens.expect(alloc, "*")?;
        Ok(None)
    } else {
        Ok(Some(edge(alloc, tokens)?))
    }
}

fn parenthesised_event(alloc: Global, tokens: &mut Cursor<'_>) -> Result<Option<Edge>, ParseFault>
    ensures { Gives (spec.parenthesised spec.event tokens.old) result tokens.new }
{
    parenthesised(alloc, tokens, event)
}

/// `*`, `(*)` or an edge.
#[tactic(auto, unfolding(crate::specs::Reading::control))]
fn control(alloc: Global, tokens: &mut Cursor<'_>) -> Result<Option<Edge>, ParseFault>
    ensures { Gives (spec.control tokens.old) result tokens.new }
{
    if tokens.sees("*") {
        tokens.expect(alloc, "*")?;
        Ok(None)
    } else {
        parenthesised_event(alloc, tokens)
    }
}

/// The edge of an event control as a list, where it has one.
fn listed_edge(alloc: Global, control: Option<Edge>) -> Result<Option<Sequence<Edge>>, AllocError>
    ensures { IfOk result (λ edges. edges ≡ steps.listed_edge control) }
{
    match control {
        None => Ok(None),
        Some(edge) => Ok(Some(single(alloc, edge)?)),
    }
}

fn process_of(place: Place, edges: Option<Sequence<Edge>>, body: Stmt) -> Item
    ensures { (keyword : Id) (control : Option Edge) → keyword.place ≡ place → edges ≡ steps.listed_edge control → result ≡ process_of keyword control body }
{
    match edges {
        None => Item::Comb(place, body),
        Some(edges) => Item::Clocked(place, edges, body),
    }
}

#[tactic(auto, unfolding(crate::specs::Reading::always))]
pub fn always(alloc: Global, tokens: &mut Cursor<'_>) -> Result<Item, ParseFault>
    ensures { Gives (spec.always tokens.old) result tokens.new }
{
    let place = tokens.take_word(alloc, "always")?.place;
    tokens.expect(alloc, "@")?;
    let found = control(alloc, tokens)?;
    let edges = listed_edge(alloc, found)?;
    let (edges, body) = kept(edges, statement(alloc, tokens))?;
    Ok(process_of(place, edges, body))
}
