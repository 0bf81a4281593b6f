//! The rules that hold expressions take the reader of those as a parameter, so that each is proved by itself.

ghost use Rattle.std.specs.Prelude.{◌≤◌, IfOk, IfErr};
ghost use Rattle.sv_base.specs.Faults.{IfRefused};
ghost use Rattle.expr_parser.specs.Input.{Gives};
ghost use Rattle.expr_parser.specs.Reading as spec;
ghost use Rattle.expr_parser.specs.Nests.{Nests};
ghost use Rattle.expr_parser.specs.Nesting.{greatest_nesting};
ghost use Rattle.expr_parser.specs.Steady.{ReadsFrom, IsRefusedAt};

use crate::cursor::{Cursor, NESTING_LIMIT};
use crate::fault::ParseFault;
use std::alloc::Global;
use sv_ast::Expr;

/// How many expressions stand inside one another at most, operands among them: each has an operator or a
/// bracket before it that counts as nesting.
pub const DEPTH: usize = NESTING_LIMIT as usize + 1;

#[derive(Clone, Copy)]
pub struct Grammar<F> {
    pub alloc: Global,
    /// How many expressions may still stand inside one another.
    pub depth: usize,
    pub expr: F,
}

impl<F: Fn(Global, &mut Cursor<'_>, usize, u8) -> Result<Expr, ParseFault>> Grammar<F> {
    pub fn expr(&self, tokens: &mut Cursor<'_>, least: u8) -> Result<Expr, ParseFault>
        requires { Nests self.now.depth (F.pre self.now.expr) (F.post self.now.expr) }
        ensures { Gives (spec.expr self.now.depth least tokens.old) result tokens.new }
    {
        (self.expr)(self.alloc, tokens, self.depth, least)
    }

    /// An expression of a rule, whose operators no longer count behind it.
    #[tactic(auto, unfolding(crate::specs::Reading::whole))]
    pub fn whole(&self, tokens: &mut Cursor<'_>) -> Result<Expr, ParseFault>
        requires { Nests self.now.depth (F.pre self.now.expr) (F.post self.now.expr) }
        ensures { Gives (spec.whole (spec.expr self.now.depth) tokens.old) result tokens.new }
    {
        let outer = tokens.enter();
        let tree = self.expr(tokens, 0)?;
        tokens.leave(outer);
        Ok(tree)
    }
}

/// An expression that holds together at least as tightly as `least`, thus `? :` only where it is 0.
pub fn expr(
    alloc: Global,
    tokens: &mut Cursor<'_>,
    depth: usize,
    least: u8,
) -> Result<Expr, ParseFault>
    ensures { Gives (spec.expr depth least tokens.old) result tokens.new }
{
    if depth == 0 {
        return Err(tokens.refuse(alloc));
    }
    Grammar {
        alloc,
        depth: depth - 1,
        expr,
    }
    .level(tokens, least)
}

/// Reads a whole expression, the longest that stands at the cursor. Where the longest run of tokens with
/// which an expression begins is none, the token behind it is refused, or the end of the list; the first
/// token of the run at which the open nesting is above `NESTING_LIMIT` is refused before. What is read or
/// refused depends on the tokens alone, unless memory runs out.
pub fn any(alloc: Global, tokens: &mut Cursor<'_>) -> Result<Expr, ParseFault>
    ensures gives { Gives (spec.any tokens.old) result tokens.new }
    ensures read { tokens.old.nested ≤ greatest_nesting
        → IfOk result (λ tree. ReadsFrom tokens.old tree tokens.new) }
    ensures refused { tokens.old.nested ≤ greatest_nesting
        → IfErr result (IfRefused (IsRefusedAt tokens.old)) }
{
    Grammar {
        alloc,
        depth: DEPTH,
        expr,
    }
    .whole(tokens)
}
