//! Headers of loops (IEEE 1800-2017, 12.7.1, 27.4).

ghost use Rattle.expr_parser.specs.Input.{Gives};
ghost use Rattle.module_parser.specs.Reading as spec;
ghost use Rattle.module_parser.specs.code.Steps as steps;

use crate::cursor::Cursor;
use crate::kept::kept;
use expr_parser::ParseFault;
use std::alloc::Global;
use sv_ast::{Expr, Id, Loop, Step};

/// The step of the loop over this variable.
#[tactic(auto, unfolding(crate::specs::Reading::step))]
fn step(alloc: Global, tokens: &mut Cursor<'_>, variable: &Id) -> Result<Step, ParseFault>
    ensures { Gives (spec.step variable.now tokens.old) result tokens.new }
{
    let name = tokens.take_named(alloc, variable)?;
    if tokens.sees_sign_of(&["++", "--"]) {
        let sign = tokens.take_sign_of(alloc, &["++", "--"])?;
        Ok(Step {
            name,
            sign,
            value: None,
        })
    } else {
        let sign = tokens.take_sign_of(alloc, &["=", "+=", "-="])?;
        let value = Some(tokens.expression(alloc)?);
        Ok(Step { name, sign, value })
    }
}

/// An expression with `;` behind it.
fn ended(alloc: Global, tokens: &mut Cursor<'_>) -> Result<Expr, ParseFault>
    ensures { Gives (steps.ended tokens.old) result tokens.new }
{
    let found = tokens.expression(alloc)?;
    let (found, ()) = kept(found, tokens.expect(alloc, ";"))?;
    Ok(found)
}

/// What the variable of a loop begins with, and the test.
fn start(alloc: Global, tokens: &mut Cursor<'_>) -> Result<(Expr, Expr), ParseFault>
    ensures { Gives (steps.start tokens.old) result tokens.new }
{
    tokens.expect(alloc, "=")?;
    let first = ended(alloc, tokens)?;
    let both = kept(first, ended(alloc, tokens))?;
    Ok(both)
}

/// What stands between the parentheses of a loop, behind `int` or `genvar`.
pub fn loop_header(alloc: Global, tokens: &mut Cursor<'_>) -> Result<Loop, ParseFault>
    ensures { Gives (spec.loop tokens.old) result tokens.new }
{
    let name = tokens.take_identifier(alloc)?;
    let start = start(alloc, tokens)?;
    let ((first, test), step) = kept(start, step(alloc, tokens, &name))?;
    Ok(Loop {
        name,
        first,
        test,
        step,
    })
}
