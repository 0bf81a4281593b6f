//! Modules and their headers (23.2).

ghost use Rattle.std.specs.Prelude.{◌≡◌};
ghost use Rattle.std.specs.List.{list_any};
ghost use Rattle.expr_parser.specs.Input.{Gives};
ghost use Rattle.expr_parser.specs.Spelling.{is_mark};
ghost use Rattle.module_parser.specs.Input.{take_one};
ghost use Rattle.module_parser.specs.Reading as spec;
ghost use Rattle.module_parser.specs.code.Steps as steps;
ghost use Rattle.module_parser.specs.Words.{is_keyword_of, parameter_words};

use crate::bracket::{end_label, parenthesised};
use crate::cursor::Cursor;
use crate::declaration::{PARAMETER_WORDS, value};
use crate::item::item_to;
use crate::kept::kept;
use crate::list::{listed, up_to};
use crate::shape::{port_shape, variable_shape};
use crate::target::LEVELS;
use expr_parser::{ParseFault, is_mark};
use std::alloc::Global;
use sv_ast::{Id, Item, Module, Param, PortDecl, Shape};
use sv_base::Sequence;
use sv_lexer::Token;

const DIRECTIONS: [&str; 2] = ["input", "output"];

fn maybe_keyword(alloc: Global, tokens: &mut Cursor<'_>) -> Result<Option<Id>, ParseFault>
    ensures { Gives (spec.maybe (is_keyword_of parameter_words) (take_one (is_keyword_of parameter_words)) tokens.old) result tokens.new }
{
    if tokens.sees_word_of(&PARAMETER_WORDS) {
        Ok(Some(tokens.take_word_of(alloc, &PARAMETER_WORDS)?))
    } else {
        Ok(None)
    }
}

#[tactic(auto, unfolding(crate::specs::Reading::header_parameter))]
fn header_parameter(alloc: Global, tokens: &mut Cursor<'_>) -> Result<Param, ParseFault>
    ensures { Gives (spec.header_parameter tokens.old) result tokens.new }
{
    let keyword = maybe_keyword(alloc, tokens)?;
    let shape = variable_shape(alloc, tokens)?;
    let (shape, name) = kept(shape, tokens.take_identifier(alloc))?;
    let (shape, value) = kept(shape, value(alloc, tokens))?;
    Ok(Param {
        keyword,
        shape,
        name,
        value,
    })
}

fn parameter_list(alloc: Global, tokens: &mut Cursor<'_>) -> Result<Sequence<Param>, ParseFault>
    ensures { Gives (spec.listed spec.header_parameter tokens.old) result tokens.new }
{
    listed(alloc, tokens, header_parameter)
}

fn parenthesised_parameters(
    alloc: Global,
    tokens: &mut Cursor<'_>,
) -> Result<Sequence<Param>, ParseFault>
    ensures { Gives (spec.parenthesised (spec.listed spec.header_parameter) tokens.old) result tokens.new }
{
    parenthesised(alloc, tokens, parameter_list)
}

#[tactic(auto, unfolding(crate::specs::Reading::header_parameters))]
fn header_parameters(alloc: Global, tokens: &mut Cursor<'_>) -> Result<Sequence<Param>, ParseFault>
    ensures { Gives (spec.header_parameters tokens.old) result tokens.new }
{
    if tokens.sees("#") {
        tokens.expect(alloc, "#")?;
        parenthesised_parameters(alloc, tokens)
    } else {
        Ok(Sequence::new(alloc))
    }
}

#[tactic(auto, unfolding(crate::specs::Reading::whole_port))]
fn whole_port(alloc: Global, tokens: &mut Cursor<'_>) -> Result<PortDecl, ParseFault>
    ensures { Gives (spec.whole_port tokens.old) result tokens.new }
{
    let direction = Some(tokens.take_word_of(alloc, &DIRECTIONS)?);
    let shape = port_shape(alloc, tokens)?;
    let (shape, name) = kept(shape, tokens.take_identifier(alloc))?;
    Ok(PortDecl {
        direction,
        shape,
        name,
    })
}

/// A name alone takes what the port before it has.
#[tactic(auto, unfolding(crate::specs::Reading::further_port))]
fn further_port(alloc: Global, tokens: &mut Cursor<'_>) -> Result<PortDecl, ParseFault>
    ensures { Gives (spec.further_port tokens.old) result tokens.new }
{
    if tokens.sees_identifier() {
        let name = tokens.take_identifier(alloc)?;
        Ok(PortDecl {
            direction: None,
            shape: Shape {
                words: Sequence::new(alloc),
                sign: None,
                range: None,
            },
            name,
        })
    } else {
        whole_port(alloc, tokens)
    }
}

fn ports(alloc: Global, tokens: &mut Cursor<'_>) -> Result<Sequence<PortDecl>, ParseFault>
    ensures { Gives (spec.ports tokens.old) result tokens.new }
{
    let mut found = Sequence::new(alloc);
    found.push(whole_port(alloc, tokens)?)?;
    'turn: for _turn in 0..tokens.len() {
        if !tokens.sees(",") {
            return Ok(found);
        }
        tokens.expect(alloc, ",")?;
        found.push(further_port(alloc, tokens)?)?;
    }
    Ok(found)
}

fn port_list(alloc: Global, tokens: &mut Cursor<'_>) -> Result<Sequence<PortDecl>, ParseFault>
    ensures { Gives (spec.port_list tokens.old) result tokens.new }
{
    if tokens.sees_no_sign(")") {
        ports(alloc, tokens)
    } else {
        Ok(Sequence::new(alloc))
    }
}

fn parenthesised_ports(
    alloc: Global,
    tokens: &mut Cursor<'_>,
) -> Result<Sequence<PortDecl>, ParseFault>
    ensures { Gives (spec.parenthesised spec.port_list tokens.old) result tokens.new }
{
    parenthesised(alloc, tokens, port_list)
}

#[tactic(auto, unfolding(crate::specs::Reading::header_ports))]
fn header_ports(alloc: Global, tokens: &mut Cursor<'_>) -> Result<Sequence<PortDecl>, ParseFault>
    ensures { Gives (spec.header_ports tokens.old) result tokens.new }
{
    if tokens.sees("(") {
        parenthesised_ports(alloc, tokens)
    } else {
        Ok(Sequence::new(alloc))
    }
}

fn has_mark(tokens: &[Token]) -> bool
    ensures { result ≡ list_any (λ t. is_mark t.kind) tokens.now }
{
    tokens.iter().any(|token| is_mark(token))
}

/// The items up to `endmodule`.
fn body_items(alloc: Global, tokens: &mut Cursor<'_>) -> Result<Sequence<Item>, ParseFault>
    ensures { Gives (spec.body_items tokens.old) result tokens.new }
{
    let items = up_to(alloc, tokens, "endmodule", LEVELS, &item_to)?;
    let (items, ()) = kept(items, tokens.expect_word(alloc, "endmodule"))?;
    Ok(items)
}

/// The items up to `endmodule`, and whether a mark stands before or among them.
#[tactic(auto, unfolding(crate::specs::Reading::body, crate::specs::Input::marked_between, expr_parser::specs::Input::turns))]
fn body(alloc: Global, tokens: &mut Cursor<'_>) -> Result<(Sequence<Item>, bool), ParseFault>
    ensures { Gives (spec.body tokens.old) result tokens.new }
{
    let before = tokens.rest();
    let items = body_items(alloc, tokens)?;
    let taken = before.len().saturating_sub(tokens.len());
    Ok((items, has_mark(&before[..taken])))
}

/// What stands before the items of a module.
#[derive(Drop)]
struct Head {
    name: Id,
    params: Sequence<Param>,
    ports: Sequence<PortDecl>,
}

/// The parameters and ports of a header, with the `;` behind them.
fn header_lists(
    alloc: Global,
    tokens: &mut Cursor<'_>,
) -> Result<(Sequence<Param>, Sequence<PortDecl>), ParseFault>
    ensures { Gives (steps.header_lists tokens.old) result tokens.new }
{
    let params = header_parameters(alloc, tokens)?;
    let lists = kept(params, header_ports(alloc, tokens))?;
    let (lists, ()) = kept(lists, tokens.expect(alloc, ";"))?;
    Ok(lists)
}

fn module_head(alloc: Global, tokens: &mut Cursor<'_>) -> Result<Head, ParseFault>
    ensures { Gives (steps.module_head tokens.old) result tokens.new }
{
    tokens.expect_word(alloc, "module")?;
    let name = tokens.take_identifier(alloc)?;
    let (name, (params, ports)) = kept(name, header_lists(alloc, tokens))?;
    Ok(Head {
        name,
        params,
        ports,
    })
}

#[tactic(auto, unfolding(crate::specs::Reading::module_of))]
fn module_of(alloc: Global, tokens: &mut Cursor<'_>) -> Result<Module, ParseFault>
    ensures { Gives (spec.module_of tokens.old) result tokens.new }
{
    let head = module_head(alloc, tokens)?;
    let (head, (items, marked)) = kept(head, body(alloc, tokens))?;
    let ended = end_label(alloc, tokens, Some(&head.name));
    let ((head, items), ()) = kept((head, items), ended)?;
    Ok(Module {
        name: head.name,
        marked,
        params: head.params,
        ports: head.ports,
        items,
    })
}

/// The modules of a file. Every token belongs to one.
pub fn file(alloc: Global, tokens: &mut Cursor<'_>) -> Result<Sequence<Module>, ParseFault>
    ensures { Gives (spec.file tokens.old) result tokens.new }
{
    let mut found = Sequence::new(alloc);
    'turn: for _turn in 0..tokens.len() {
        if !tokens.sees_any() {
            return Ok(found);
        }
        found.push(module_of(alloc, tokens)?)?;
    }
    Ok(found)
}
