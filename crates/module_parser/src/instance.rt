//! Instances and their connections (23.3.2, 23.10.2).

ghost use Rattle.std.specs.Prelude.{◌≡◌, codes, IfOk};
ghost use Rattle.expr_parser.specs.Input.{Gives, ◌>>◌, pure};
ghost use Rattle.expr_parser.specs.Reading.{any};
ghost use Rattle.module_parser.specs.Words.{is_no_sign};
ghost use Rattle.module_parser.specs.Reading as spec;

use crate::bracket::parenthesised;
use crate::cursor::Cursor;
use crate::list::listed;
use expr_parser::ParseFault;
use sqlite_items::Items;
use std::alloc::{AllocError, Global};
use sv_ast::{Arg, Expr, Id, Inst, Item};
use sv_base::{Name, Sequence};

fn copied(alloc: Global, id: &Id) -> Result<Id, AllocError>
    ensures { IfOk result (λ copy. copy ≡ id.now) }
{
    Ok(Id {
        name: Name::of(alloc, id.name.bytes())?,
        place: id.place,
    })
}

fn maybe_joined(alloc: Global, tokens: &mut Cursor<'_>) -> Result<Option<Expr>, ParseFault>
    ensures { Gives (spec.maybe (is_no_sign (codes ")")) any tokens.old) result tokens.new }
{
    if tokens.sees_no_sign(")") {
        Ok(Some(tokens.expression(alloc)?))
    } else {
        Ok(None)
    }
}

/// What stands in parentheses behind a port.
fn joined(alloc: Global, tokens: &mut Cursor<'_>) -> Result<Option<Expr>, ParseFault>
    ensures { Gives (spec.parenthesised (spec.maybe (is_no_sign (codes ")")) any) tokens.old) result tokens.new }
{
    parenthesised(alloc, tokens, maybe_joined)
}

/// Behind `.p`: what is joined to that port, where nothing stands there the name `p` itself.
#[tactic(auto, unfolding(crate::specs::Reading::connected))]
fn connected(alloc: Global, tokens: &mut Cursor<'_>, port: Id) -> Result<Arg, ParseFault>
    ensures { Gives (spec.connected port tokens.old) result tokens.new }
{
    if tokens.sees("(") {
        let value = joined(alloc, tokens)?;
        Ok(Arg {
            port: Some(port),
            value,
        })
    } else {
        let value = Expr::Read(copied(alloc, &port)?, Items::new(alloc));
        Ok(Arg {
            port: Some(port),
            value: Some(value),
        })
    }
}

#[tactic(auto, unfolding(crate::specs::Reading::named_arg))]
fn named_arg(alloc: Global, tokens: &mut Cursor<'_>) -> Result<Arg, ParseFault>
    ensures { Gives (spec.named_arg tokens.old) result tokens.new }
{
    tokens.expect(alloc, ".")?;
    let port = tokens.take_identifier(alloc)?;
    connected(alloc, tokens, port)
}

#[tactic(auto, unfolding(crate::specs::Reading::ordered_arg))]
fn ordered_arg(alloc: Global, tokens: &mut Cursor<'_>) -> Result<Arg, ParseFault>
    ensures { Gives (spec.ordered_arg tokens.old) result tokens.new }
{
    let value = tokens.expression(alloc)?;
    Ok(Arg {
        port: None,
        value: Some(value),
    })
}

/// All by name, or all by order.
#[tactic(auto, unfolding(crate::specs::Reading::args))]
fn args(alloc: Global, tokens: &mut Cursor<'_>) -> Result<Sequence<Arg>, ParseFault>
    ensures { Gives (spec.args tokens.old) result tokens.new }
{
    if !tokens.sees_no_sign(")") {
        Ok(Sequence::new(alloc))
    } else if tokens.sees(".") {
        listed(alloc, tokens, named_arg)
    } else {
        listed(alloc, tokens, ordered_arg)
    }
}

fn parenthesised_args(alloc: Global, tokens: &mut Cursor<'_>) -> Result<Sequence<Arg>, ParseFault>
    ensures { Gives (spec.parenthesised spec.args tokens.old) result tokens.new }
{
    parenthesised(alloc, tokens, args)
}

#[tactic(auto, unfolding(crate::specs::Reading::instance))]
fn instance(alloc: Global, tokens: &mut Cursor<'_>) -> Result<Inst, ParseFault>
    ensures { Gives (spec.instance tokens.old) result tokens.new }
{
    let name = tokens.take_identifier(alloc)?;
    let args = parenthesised_args(alloc, tokens)?;
    Ok(Inst { name, args })
}

fn parameter_values(alloc: Global, tokens: &mut Cursor<'_>) -> Result<Sequence<Arg>, ParseFault>
    ensures { Gives (spec.parameter_values tokens.old) result tokens.new }
{
    if tokens.sees("#") {
        tokens.expect(alloc, "#")?;
        parenthesised_args(alloc, tokens)
    } else {
        Ok(Sequence::new(alloc))
    }
}

#[tactic(auto, unfolding(crate::specs::Reading::instances))]
pub fn instances(alloc: Global, tokens: &mut Cursor<'_>) -> Result<Item, ParseFault>
    ensures { Gives (spec.instances tokens.old) result tokens.new }
{
    let module = tokens.take_identifier(alloc)?;
    let values = parameter_values(alloc, tokens)?;
    let found = listed(alloc, tokens, instance)?;
    tokens.expect(alloc, ";")?;
    Ok(Item::Instance(module, values, found))
}
