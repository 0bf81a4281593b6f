ghost use Rattle.std.specs.Prelude.{◌≤◌, length, IfOk, IfErr};
ghost use Rattle.sv_base.specs.Faults.{IfRefused};
ghost use Rattle.expr_parser.specs.declared.cursor.TheConstants.{NESTING_LIMIT};
ghost use Rattle.expr_parser.specs.Outcome.{IsRead, IsRefused};
ghost use Rattle.expr_parser.specs.Spelled.{AreSpelled, IsWritten};

use crate::cursor::{Cursor, last_place};
use crate::fault::ParseFault;
use crate::grammar;
use std::alloc::Global;
use sv_ast::Expr;
use sv_lexer::Token;

/// Reads the longest run of tokens from `at` on with which an expression begins. Where that run is an
/// expression, it is given with the place after its last token, so that marks behind it stay; else the token
/// after the run is refused, or the end of the list. The first token of the run at which the open nesting is
/// above `NESTING_LIMIT` is refused before either. `depth` is the open nesting before `at`. What is read or
/// refused depends on the tokens alone, unless memory runs out.
///
/// Operators between two operands bind and are grouped as their `Level` says. `? :` binds looser than all of
/// them and is grouped to the right, a sign before an operand tighter.
pub fn parse_expr(
    alloc: Global,
    tokens: &Vec<Token>,
    at: usize,
    depth: u32,
) -> Result<(Expr, usize), ParseFault>
    requires place { at ≤ length tokens.now.items }
    requires nesting { depth ≤ NESTING_LIMIT }
    ensures read { IfOk result (λ r. IsRead tokens.now.items at depth r.0 r.1) }
    ensures written { IfOk result (λ r. AreSpelled tokens.now.items → IsWritten r.0) }
    ensures refused { IfErr result (IfRefused (IsRefused tokens.now.items at depth)) }
{
    let last = last_place(tokens.as_slice());
    let mut cursor = Cursor::new(&tokens.as_slice()[at..], depth, last);
    match grammar::any(alloc, &mut cursor) {
        Ok(tree) => Ok((tree, tokens.len().saturating_sub(cursor.len()))),
        Err(fault) => Err(fault),
    }
}
