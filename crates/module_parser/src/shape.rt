//! What a declaration says of its names: the words of a type, a sign and a range (clause 6).

ghost use Rattle.std.specs.Prelude.{◌≡◌, codes, IfOk};
ghost use Rattle.expr_parser.specs.Input.{Gives};
ghost use Rattle.expr_parser.specs.Spelling.{is_this};
ghost use Rattle.module_parser.specs.Grammar.{net_words};
ghost use Rattle.module_parser.specs.Input.{take_one};
ghost use Rattle.module_parser.specs.Reading as spec;
ghost use Rattle.module_parser.specs.code.Steps as steps;
ghost use Rattle.module_parser.specs.Words.{is_keyword};

use crate::cursor::Cursor;
use crate::kept::kept;
use crate::list::single;
use expr_parser::ParseFault;
use std::alloc::{AllocError, Global};
use sv_ast::{Id, Range, Shape};
use sv_base::Sequence;

/// Two expressions with `:` between.
fn bounds(alloc: Global, tokens: &mut Cursor<'_>) -> Result<Range, ParseFault>
    ensures { Gives (steps.bounds tokens.old) result tokens.new }
{
    let high = tokens.expression(alloc)?;
    let (high, ()) = kept(high, tokens.expect(alloc, ":"))?;
    let (high, low) = kept(high, tokens.expression(alloc))?;
    Ok(Range { high, low })
}

#[tactic(auto, unfolding(crate::specs::Reading::range))]
fn range(alloc: Global, tokens: &mut Cursor<'_>) -> Result<Range, ParseFault>
    ensures { Gives (spec.range tokens.old) result tokens.new }
{
    let outer = tokens.enter();
    tokens.open(alloc, "[")?;
    let bounds = bounds(alloc, tokens)?;
    tokens.leave(outer);
    let (bounds, ()) = kept(bounds, tokens.expect(alloc, "]"))?;
    Ok(bounds)
}

fn maybe_range(alloc: Global, tokens: &mut Cursor<'_>) -> Result<Option<Range>, ParseFault>
    ensures { Gives (spec.maybe (is_this (codes "[")) spec.range tokens.old) result tokens.new }
{
    if tokens.sees("[") {
        Ok(Some(range(alloc, tokens)?))
    } else {
        Ok(None)
    }
}

#[tactic(auto, unfolding(crate::specs::Reading::sign_word))]
fn sign_word(alloc: Global, tokens: &mut Cursor<'_>) -> Result<Option<Id>, ParseFault>
    ensures { Gives (spec.sign_word tokens.old) result tokens.new }
{
    if tokens.sees_word_of(&SIGNS) {
        Ok(Some(tokens.take_word_of(alloc, &SIGNS)?))
    } else {
        Ok(None)
    }
}

/// A sign and a range, behind the words of a type.
#[tactic(auto, unfolding(crate::specs::Reading::bare))]
fn bare(alloc: Global, tokens: &mut Cursor<'_>, words: Sequence<Id>) -> Result<Shape, ParseFault>
    ensures { Gives (spec.bare words tokens.old) result tokens.new }
{
    let sign = sign_word(alloc, tokens)?;
    let range = maybe_range(alloc, tokens)?;
    Ok(Shape { words, sign, range })
}

#[tactic(auto, unfolding(crate::specs::Reading::vector_shape))]
fn vector_shape(alloc: Global, tokens: &mut Cursor<'_>) -> Result<Shape, ParseFault>
    ensures { Gives (spec.vector_shape tokens.old) result tokens.new }
{
    let word = tokens.take_word_of(alloc, &VECTOR_TYPES)?;
    bare(alloc, tokens, single(alloc, word)?)
}

#[tactic(auto, unfolding(crate::specs::Reading::integer_shape))]
fn integer_shape(alloc: Global, tokens: &mut Cursor<'_>) -> Result<Shape, ParseFault>
    ensures { Gives (spec.integer_shape tokens.old) result tokens.new }
{
    let word = tokens.take_word_of(alloc, &INTEGER_TYPES)?;
    let sign = sign_word(alloc, tokens)?;
    Ok(Shape {
        words: single(alloc, word)?,
        sign,
        range: None,
    })
}

fn maybe_logic(alloc: Global, tokens: &mut Cursor<'_>) -> Result<Option<Id>, ParseFault>
    ensures { Gives (spec.maybe (is_keyword (codes "logic")) (take_one (is_keyword (codes "logic"))) tokens.old) result tokens.new }
{
    if tokens.sees_word("logic") {
        Ok(Some(tokens.take_word(alloc, "logic")?))
    } else {
        Ok(None)
    }
}

fn net_words(alloc: Global, wire: Id, logic: Option<Id>) -> Result<Sequence<Id>, AllocError>
    ensures { IfOk result (λ words. words ≡ net_words wire logic) }
{
    let mut words = single(alloc, wire)?;
    if let Some(logic) = logic {
        words.push(logic)?;
    }
    Ok(words)
}

#[tactic(auto, unfolding(crate::specs::Reading::net_shape))]
fn net_shape(alloc: Global, tokens: &mut Cursor<'_>) -> Result<Shape, ParseFault>
    ensures { Gives (spec.net_shape tokens.old) result tokens.new }
{
    let wire = tokens.take_word(alloc, "wire")?;
    let logic = maybe_logic(alloc, tokens)?;
    bare(alloc, tokens, net_words(alloc, wire, logic)?)
}

/// A type with its sign and range, or these alone.
#[tactic(auto, unfolding(crate::specs::Reading::variable_shape))]
pub fn variable_shape(alloc: Global, tokens: &mut Cursor<'_>) -> Result<Shape, ParseFault>
    ensures { Gives (spec.variable_shape tokens.old) result tokens.new }
{
    if tokens.sees_word_of(&VECTOR_TYPES) {
        vector_shape(alloc, tokens)
    } else if tokens.sees_word_of(&INTEGER_TYPES) {
        integer_shape(alloc, tokens)
    } else {
        bare(alloc, tokens, Sequence::new(alloc))
    }
}

#[tactic(auto, unfolding(crate::specs::Reading::port_shape))]
pub fn port_shape(alloc: Global, tokens: &mut Cursor<'_>) -> Result<Shape, ParseFault>
    ensures { Gives (spec.port_shape tokens.old) result tokens.new }
{
    if tokens.sees_word("wire") {
        net_shape(alloc, tokens)
    } else {
        variable_shape(alloc, tokens)
    }
}

const VECTOR_TYPES: [&str; 3] = ["logic", "reg", "bit"];

const INTEGER_TYPES: [&str; 2] = ["int", "integer"];

const SIGNS: [&str; 2] = ["signed", "unsigned"];
