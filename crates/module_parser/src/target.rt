//! Targets of assignments (IEEE 1800-2017, 10.4, 11.4.12, 11.5.1).

ghost use Rattle.expr_parser.specs.Input.{Gives};
ghost use Rattle.expr_parser.specs.Reading.{any};
ghost use Rattle.module_parser.specs.Nests.{Nests};
ghost use Rattle.module_parser.specs.Reading as spec;
ghost use Rattle.module_parser.specs.code.Steps as steps;

use crate::cursor::Cursor;
use crate::kept::kept;
use crate::list;
use expr_parser::{NESTING_LIMIT, ParseFault};
use sqlite_items::{Boxed, Items};
use std::alloc::Global;
use sv_ast::{Expr, Id, Lval, Sel};

/// How many targets, statements or items stand inside one another at most: each has a token before it that counts as
/// nesting.
pub const LEVELS: usize = NESTING_LIMIT as usize + 1;

/// The second bound of a part, behind this sign.
fn bound(alloc: Global, tokens: &mut Cursor<'_>, text: &str) -> Result<Boxed<Expr>, ParseFault>
    ensures { Gives (steps.behind_sign text.now any tokens.old) result tokens.new }
{
    tokens.expect(alloc, text)?;
    let found = tokens.expression(alloc)?;
    Ok(Boxed::new(alloc, found)?)
}

fn select_from(
    alloc: Global,
    tokens: &mut Cursor<'_>,
    opens: &Id,
    first: Expr,
) -> Result<Sel, ParseFault>
    ensures { Gives (spec.select_from opens.now first tokens.old) result tokens.new }
{
    let first = Boxed::new(alloc, first)?;
    if tokens.sees(":") {
        let (first, second) = kept(first, bound(alloc, tokens, ":"))?;
        Ok(Sel::Part(opens.place, first, second))
    } else if tokens.sees("+:") {
        let (first, second) = kept(first, bound(alloc, tokens, "+:"))?;
        Ok(Sel::Up(opens.place, first, second))
    } else if tokens.sees("-:") {
        let (first, second) = kept(first, bound(alloc, tokens, "-:"))?;
        Ok(Sel::Down(opens.place, first, second))
    } else {
        Ok(Sel::Bit(opens.place, first))
    }
}

#[tactic(auto, unfolding(crate::specs::Reading::select))]
fn select(alloc: Global, tokens: &mut Cursor<'_>) -> Result<Sel, ParseFault>
    ensures { Gives (spec.select tokens.old) result tokens.new }
{
    let outer = tokens.enter();
    let opens = tokens.open(alloc, "[")?;
    let first = tokens.expression(alloc)?;
    let found = select_from(alloc, tokens, &opens, first)?;
    tokens.leave(outer);
    let (found, ()) = kept(found, tokens.expect(alloc, "]"))?;
    Ok(found)
}

#[tactic(auto, unfolding(crate::specs::Reading::selects))]
fn selects(alloc: Global, tokens: &mut Cursor<'_>) -> Result<Items<Sel>, ParseFault>
    ensures { Gives (spec.selects tokens.old) result tokens.new }
{
    if tokens.sees("[") {
        let found = select(alloc, tokens)?;
        Ok(list::single_item(alloc, found)?)
    } else {
        Ok(Items::new(alloc))
    }
}

#[tactic(auto, unfolding(crate::specs::Reading::named_target))]
fn named_target(alloc: Global, tokens: &mut Cursor<'_>) -> Result<Lval, ParseFault>
    ensures { Gives (spec.named_target tokens.old) result tokens.new }
{
    let name = tokens.take_identifier(alloc)?;
    Ok(Lval::Of(name, selects(alloc, tokens)?))
}

/// The rules that hold targets take the reader of those as a parameter, so that each is proved by itself.
#[derive(Clone, Copy)]
pub struct Targets<F> {
    alloc: Global,
    /// How many targets may still stand inside one another.
    depth: usize,
    target: F,
}

impl<F: Fn(Global, &mut Cursor<'_>, usize) -> Result<Lval, ParseFault>> Targets<F> {
    fn inner(&self, alloc: Global, tokens: &mut Cursor<'_>) -> Result<Lval, ParseFault>
        requires { Nests spec.target_to self.now.depth (F.pre self.now.target) (F.post self.now.target) }
        ensures { Gives (spec.target_to self.now.depth tokens.old) result tokens.new }
    {
        (self.target)(alloc, tokens, self.depth)
    }

    #[tactic(auto, unfolding(crate::specs::Reading::target_list))]
    fn target_list(&self, tokens: &mut Cursor<'_>) -> Result<Lval, ParseFault>
        requires { Nests spec.target_to self.now.depth (F.pre self.now.target) (F.post self.now.target) }
        ensures { Gives (spec.target_list (spec.target_to self.now.depth) tokens.old) result tokens.new }
    {
        let outer = tokens.enter();
        let place = tokens.open(self.alloc, "{")?.place;
        let found = list::listed(
            self.alloc,
            tokens,
            |alloc, tokens| self.inner(alloc, tokens),
        )?;
        tokens.leave(outer);
        let (found, ()) = kept(found, tokens.expect(self.alloc, "}"))?;
        Ok(Lval::List(place, Items::from_vec(found.into_vec())))
    }

    #[tactic(auto, unfolding(crate::specs::Reading::target_level))]
    fn target_level(&self, tokens: &mut Cursor<'_>) -> Result<Lval, ParseFault>
        requires { Nests spec.target_to self.now.depth (F.pre self.now.target) (F.post self.now.target) }
        ensures { Gives (spec.target_level (spec.target_to self.now.depth) tokens.old) result tokens.new }
    {
        if tokens.sees("{") {
            self.target_list(tokens)
        } else {
            named_target(self.alloc, tokens)
        }
    }
}

/// A target with targets inside one another to this depth.
fn target_to(alloc: Global, tokens: &mut Cursor<'_>, depth: usize) -> Result<Lval, ParseFault>
    ensures { Gives (spec.target_to depth tokens.old) result tokens.new }
{
    if depth == 0 {
        return Err(tokens.refuse(alloc));
    }
    Targets {
        alloc,
        depth: depth - 1,
        target: target_to,
    }
    .target_level(tokens)
}

/// What an assignment writes.
#[tactic(auto, unfolding(crate::specs::Reading::target))]
pub fn target(alloc: Global, tokens: &mut Cursor<'_>) -> Result<Lval, ParseFault>
    ensures { Gives (spec.target tokens.old) result tokens.new }
{
    target_to(alloc, tokens, LEVELS)
}
