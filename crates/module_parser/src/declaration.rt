//! Declarations and continuous assignments (clauses 6, 10.3).

ghost use Rattle.std.specs.Prelude.{◌≡◌, codes};
ghost use Rattle.expr_parser.specs.Input.{Gives};
ghost use Rattle.expr_parser.specs.Spelling.{is_identifier, is_this};
ghost use Rattle.module_parser.specs.Input.{take_one};
ghost use Rattle.module_parser.specs.Reading as spec;

use crate::cursor::Cursor;
use crate::kept::kept;
use crate::list::listed;
use crate::shape::{port_shape, variable_shape};
use crate::target::target;
use expr_parser::ParseFault;
use std::alloc::Global;
use sv_ast::{Decl, Expr, Id, Item, Pair};
use sv_base::Sequence;

/// The words that begin a parameter.
pub const PARAMETER_WORDS: [&str; 2] = ["parameter", "localparam"];

/// What stands behind a name: `=` and an expression.
#[tactic(auto, unfolding(crate::specs::Reading::value))]
pub fn value(alloc: Global, tokens: &mut Cursor<'_>) -> Result<Expr, ParseFault>
    ensures { Gives (spec.value tokens.old) result tokens.new }
{
    tokens.expect(alloc, "=")?;
    tokens.expression(alloc)
}

fn maybe_value(alloc: Global, tokens: &mut Cursor<'_>) -> Result<Option<Expr>, ParseFault>
    ensures { Gives (spec.maybe (is_this (codes "=")) spec.value tokens.old) result tokens.new }
{
    if tokens.sees("=") {
        Ok(Some(value(alloc, tokens)?))
    } else {
        Ok(None)
    }
}

#[tactic(auto, unfolding(crate::specs::Reading::declared))]
fn declared(alloc: Global, tokens: &mut Cursor<'_>) -> Result<Decl, ParseFault>
    ensures { Gives (spec.declared tokens.old) result tokens.new }
{
    let name = tokens.take_identifier(alloc)?;
    let value = maybe_value(alloc, tokens)?;
    Ok(Decl { name, value })
}

#[tactic(auto, unfolding(crate::specs::Reading::parameter))]
fn parameter(alloc: Global, tokens: &mut Cursor<'_>) -> Result<Decl, ParseFault>
    ensures { Gives (spec.parameter tokens.old) result tokens.new }
{
    let name = tokens.take_identifier(alloc)?;
    let value = Some(value(alloc, tokens)?);
    Ok(Decl { name, value })
}

fn identifier(alloc: Global, tokens: &mut Cursor<'_>) -> Result<Id, ParseFault>
    ensures { Gives (spec.identifier tokens.old) result tokens.new }
{
    tokens.take_identifier(alloc)
}

#[tactic(auto, unfolding(crate::specs::Reading::pair))]
fn pair(alloc: Global, tokens: &mut Cursor<'_>) -> Result<Pair, ParseFault>
    ensures { Gives (spec.pair tokens.old) result tokens.new }
{
    let target = target(alloc, tokens)?;
    let (target, ()) = kept(target, tokens.expect(alloc, "="))?;
    let (target, value) = kept(target, tokens.expression(alloc))?;
    Ok(Pair { target, value })
}

fn parameter_list(alloc: Global, tokens: &mut Cursor<'_>) -> Result<Sequence<Decl>, ParseFault>
    ensures { Gives (spec.listed spec.parameter tokens.old) result tokens.new }
{
    listed(alloc, tokens, parameter)
}

#[tactic(auto, unfolding(crate::specs::Reading::parameters))]
pub fn parameters(alloc: Global, tokens: &mut Cursor<'_>) -> Result<Item, ParseFault>
    ensures { Gives (spec.parameters tokens.old) result tokens.new }
{
    let keyword = tokens.take_word_of(alloc, &PARAMETER_WORDS)?;
    let shape = variable_shape(alloc, tokens)?;
    let all = kept(shape, parameter_list(alloc, tokens))?;
    let ((shape, found), ()) = kept(all, tokens.expect(alloc, ";"))?;
    Ok(Item::Param(keyword, shape, found))
}

fn declared_list(alloc: Global, tokens: &mut Cursor<'_>) -> Result<Sequence<Decl>, ParseFault>
    ensures { Gives (spec.listed spec.declared tokens.old) result tokens.new }
{
    listed(alloc, tokens, declared)
}

#[tactic(auto, unfolding(crate::specs::Reading::declaration))]
pub fn declaration(alloc: Global, tokens: &mut Cursor<'_>) -> Result<Item, ParseFault>
    ensures { Gives (spec.declaration tokens.old) result tokens.new }
{
    let shape = port_shape(alloc, tokens)?;
    let all = kept(shape, declared_list(alloc, tokens))?;
    let ((shape, found), ()) = kept(all, tokens.expect(alloc, ";"))?;
    Ok(Item::Declare(shape, found))
}

#[tactic(auto, unfolding(crate::specs::Reading::genvars))]
pub fn genvars(alloc: Global, tokens: &mut Cursor<'_>) -> Result<Item, ParseFault>
    ensures { Gives (spec.genvars tokens.old) result tokens.new }
{
    tokens.expect_word(alloc, "genvar")?;
    let names = listed(alloc, tokens, identifier)?;
    tokens.expect(alloc, ";")?;
    Ok(Item::Genvar(names))
}

#[tactic(auto, unfolding(crate::specs::Reading::assignments))]
pub fn assignments(alloc: Global, tokens: &mut Cursor<'_>) -> Result<Item, ParseFault>
    ensures { Gives (spec.assignments tokens.old) result tokens.new }
{
    tokens.expect_word(alloc, "assign")?;
    let pairs = listed(alloc, tokens, pair)?;
    tokens.expect(alloc, ";")?;
    Ok(Item::Assign(pairs))
}
