//! Operators and their operands, by how tightly they bind.

ghost use Rattle.std.specs.Prelude.{◌≡◌, ◌≤◌, Ok};
ghost use Rattle.sv_base.specs.declared.operator.TheConstants.{TIGHTEST};
ghost use Rattle.expr_parser.specs.Input.{Gives, next};
ghost use Rattle.expr_parser.specs.Reading as spec;
ghost use Rattle.expr_parser.specs.Nests.{Nests};

use crate::cursor::Cursor;
use crate::fault::ParseFault;
use crate::grammar::Grammar;
use crate::spelling;
use sqlite_items::Boxed;
use std::alloc::Global;
use sv_ast::Expr;
use sv_base::TIGHTEST;

/// How tightly an operand with a sign before it holds together: tighter than every operator between two
/// operands.
const SIGNED_STRENGTH: u8 = TIGHTEST + 1;

/// How tightly the next token binds between two operands.
fn binds_next(tokens: &Cursor<'_>) -> u8
    ensures value { result ≡ spec.binds_next (next tokens.now) }
    ensures greatest { result ≤ TIGHTEST }
{
    match tokens.next() {
        None => 0,
        Some(token) => spelling::binds(token),
    }
}

/// How tightly the operand behind the next token holds together at least.
fn right_least_next(tokens: &Cursor<'_>) -> u8
    ensures { result ≡ spec.right_least_next (next tokens.now) }
{
    match tokens.next() {
        None => 0,
        Some(token) => spelling::right_least(token),
    }
}

/// Whether no operator that binds so stands in an expression that holds together at least so tightly, where 0
/// is none.
fn is_looser(level: u8, least: u8) -> bool
    ensures { result ≡ spec.is_looser level least }
{
    level == 0 || level < least
}

fn is_unary_next(tokens: &Cursor<'_>) -> bool
    ensures { result ≡ spec.is_unary_next (next tokens.now) }
{
    match tokens.next() {
        None => false,
        Some(token) => spelling::is_unary(token),
    }
}

impl<F: Fn(Global, &mut Cursor<'_>, usize, u8) -> Result<Expr, ParseFault>> Grammar<F> {
    #[tactic(auto, unfolding(crate::specs::Reading::primary))]
    fn primary(&self, tokens: &mut Cursor<'_>) -> Result<Expr, ParseFault>
        requires { Nests self.now.depth (F.pre self.now.expr) (F.post self.now.expr) }
        ensures { Gives (spec.primary (spec.expr self.now.depth) tokens.old) result tokens.new }
    {
        let Some(token) = tokens.next() else {
            return Err(tokens.refuse(self.alloc));
        };
        if spelling::is_number(token) {
            Ok(Expr::Number(tokens.take_id(self.alloc)?))
        } else if spelling::is_fill(token) {
            Ok(Expr::Fill(tokens.take_id(self.alloc)?))
        } else if spelling::is_identifier(token) {
            self.read(tokens)
        } else if spelling::is_function(token) {
            self.system(tokens)
        } else if tokens.sees("(") {
            self.parenthesised(tokens)
        } else if tokens.sees("{") {
            self.braced(tokens)
        } else {
            Err(tokens.refuse(self.alloc))
        }
    }

    #[tactic(auto, unfolding(crate::specs::Reading::prefixed))]
    fn prefixed(&self, tokens: &mut Cursor<'_>) -> Result<Expr, ParseFault>
        requires { Nests self.now.depth (F.pre self.now.expr) (F.post self.now.expr) }
        ensures { Gives (spec.prefixed (spec.expr self.now.depth) tokens.old) result tokens.new }
    {
        tokens.rise(self.alloc)?;
        let sign = tokens.take_id(self.alloc)?;
        let operand = self.expr(tokens, SIGNED_STRENGTH)?;
        Ok(Expr::Unary(sign, Boxed::new(self.alloc, operand)?))
    }

    #[tactic(auto, unfolding(crate::specs::Reading::operand))]
    fn operand(&self, tokens: &mut Cursor<'_>) -> Result<Expr, ParseFault>
        requires { Nests self.now.depth (F.pre self.now.expr) (F.post self.now.expr) }
        ensures { Gives (spec.operand (spec.expr self.now.depth) tokens.old) result tokens.new }
    {
        if is_unary_next(tokens) {
            self.prefixed(tokens)
        } else {
            self.primary(tokens)
        }
    }

    #[tactic(auto, unfolding(crate::specs::Reading::operation))]
    fn operation(&self, tokens: &mut Cursor<'_>, left: Expr, least: u8) -> Result<Expr, ParseFault>
        requires { Nests self.now.depth (F.pre self.now.expr) (F.post self.now.expr) }
        ensures { Gives (spec.operation (spec.expr self.now.depth) left least tokens.old) result tokens.new }
    {
        tokens.rise(self.alloc)?;
        let sign = tokens.take_id(self.alloc)?;
        let left = Boxed::new(self.alloc, left)?;
        let right = Boxed::new(self.alloc, self.expr(tokens, least)?)?;
        Ok(Expr::Binary(sign, left, right))
    }

    fn operations(
        &self,
        tokens: &mut Cursor<'_>,
        least: u8,
        mut left: Expr,
    ) -> Result<Expr, ParseFault>
        requires { Nests self.now.depth (F.pre self.now.expr) (F.post self.now.expr) }
        ensures { Gives (spec.operations (spec.expr self.now.depth) least left tokens.old) result tokens.new }
    {
        'turn: for _turn in 0..tokens.len() {
            if is_looser(binds_next(tokens), least) {
                return Ok(left);
            }
            let right = right_least_next(tokens);
            left = self.operation(tokens, left, right)?;
        }
        Ok(left)
    }

    #[tactic(auto, unfolding(crate::specs::Reading::chosen))]
    fn chosen(&self, tokens: &mut Cursor<'_>, test: Expr) -> Result<Expr, ParseFault>
        requires { Nests self.now.depth (F.pre self.now.expr) (F.post self.now.expr) }
        ensures { Gives (spec.chosen (spec.expr self.now.depth) test tokens.old) result tokens.new }
    {
        tokens.rise(self.alloc)?;
        let question = tokens.take_id(self.alloc)?;
        let test = Boxed::new(self.alloc, test)?;
        let first = Boxed::new(self.alloc, self.expr(tokens, 0)?)?;
        tokens.expect(self.alloc, ":")?;
        let second = Boxed::new(self.alloc, self.expr(tokens, 0)?)?;
        Ok(Expr::Choice(question, test, first, second))
    }

    #[tactic(auto, unfolding(crate::specs::Reading::level))]
    pub fn level(&self, tokens: &mut Cursor<'_>, least: u8) -> Result<Expr, ParseFault>
        requires { Nests self.now.depth (F.pre self.now.expr) (F.post self.now.expr) }
        ensures { Gives (spec.level (spec.expr self.now.depth) least tokens.old) result tokens.new }
    {
        let first = self.operand(tokens)?;
        let left = self.operations(tokens, least, first)?;
        if least == 0 && tokens.sees("?") {
            self.chosen(tokens, left)
        } else {
            Ok(left)
        }
    }
}
