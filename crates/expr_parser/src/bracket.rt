//! Selects, parentheses, system functions, concatenations and replications.

ghost use Rattle.std.specs.Prelude.{◌≡◌, [], ◌∷◌, ◌+◌, ◌<◌, ◌^◌, length, Ok};
ghost use Rattle.expr_parser.specs.Input.{Gives, turns};
ghost use Rattle.expr_parser.specs.Reading as spec;
ghost use Rattle.expr_parser.specs.Nests.{Nests};

use crate::cursor::Cursor;
use crate::fault::ParseFault;
use crate::grammar::Grammar;
use sqlite_items::{Boxed, Items};
use std::alloc::Global;
use sv_ast::{Expr, Id, Sel};
use sv_base::Place;

/// Takes an opening bracket, which counts from itself on.
fn open_bracket(alloc: Global, tokens: &mut Cursor<'_>, text: &str) -> Result<Id, ParseFault>
    ensures { Gives (spec.opening text.now tokens.old) result tokens.new }
{
    if !tokens.sees(text) {
        return Err(tokens.refuse(alloc));
    }
    tokens.rise(alloc)?;
    tokens.take_id(alloc)
}

impl<F: Fn(Global, &mut Cursor<'_>, usize, u8) -> Result<Expr, ParseFault>> Grammar<F> {
    fn part_from(
        &self,
        tokens: &mut Cursor<'_>,
        place: Place,
        first: Boxed<Expr>,
    ) -> Result<Sel, ParseFault>
        requires { Nests self.now.depth (F.pre self.now.expr) (F.post self.now.expr) }
        ensures { Gives (spec.select_from (spec.expr self.now.depth) place first tokens.old) result tokens.new }
    {
        if tokens.sees(":") {
            tokens.advance();
            let second = Boxed::new(self.alloc, self.whole(tokens)?)?;
            Ok(Sel::Part(place, first, second))
        } else if tokens.sees("+:") {
            tokens.advance();
            let second = Boxed::new(self.alloc, self.whole(tokens)?)?;
            Ok(Sel::Up(place, first, second))
        } else if tokens.sees("-:") {
            tokens.advance();
            let second = Boxed::new(self.alloc, self.whole(tokens)?)?;
            Ok(Sel::Down(place, first, second))
        } else {
            Ok(Sel::Bit(place, first))
        }
    }

    #[tactic(auto, unfolding(crate::specs::Reading::select))]
    fn select(&self, tokens: &mut Cursor<'_>) -> Result<Sel, ParseFault>
        requires { Nests self.now.depth (F.pre self.now.expr) (F.post self.now.expr) }
        ensures { Gives (spec.select (spec.expr self.now.depth) tokens.old) result tokens.new }
    {
        let outer = tokens.enter();
        let bracket = open_bracket(self.alloc, tokens, "[")?;
        let first = Boxed::new(self.alloc, self.whole(tokens)?)?;
        let found = self.part_from(tokens, bracket.place, first)?;
        tokens.expect(self.alloc, "]")?;
        tokens.leave(outer);
        Ok(found)
    }

    #[tactic(auto, unfolding(crate::specs::Reading::selects))]
    fn selects(&self, tokens: &mut Cursor<'_>) -> Result<Items<Sel>, ParseFault>
        requires { Nests self.now.depth (F.pre self.now.expr) (F.post self.now.expr) }
        ensures { Gives (spec.selects (spec.expr self.now.depth) tokens.old) result tokens.new }
    {
        let mut found = Items::new(self.alloc);
        if tokens.sees("[") {
            found.push(self.select(tokens)?)?;
        }
        Ok(found)
    }

    #[tactic(auto, unfolding(crate::specs::Reading::read))]
    pub fn read(&self, tokens: &mut Cursor<'_>) -> Result<Expr, ParseFault>
        requires { Nests self.now.depth (F.pre self.now.expr) (F.post self.now.expr) }
        ensures { Gives (spec.read (spec.expr self.now.depth) tokens.old) result tokens.new }
    {
        let name = tokens.take_id(self.alloc)?;
        Ok(Expr::Read(name, self.selects(tokens)?))
    }

    #[tactic(auto, unfolding(crate::specs::Reading::parenthesised))]
    pub fn parenthesised(&self, tokens: &mut Cursor<'_>) -> Result<Expr, ParseFault>
        requires { Nests self.now.depth (F.pre self.now.expr) (F.post self.now.expr) }
        ensures { Gives (spec.parenthesised (spec.expr self.now.depth) tokens.old) result tokens.new }
    {
        let outer = tokens.enter();
        open_bracket(self.alloc, tokens, "(")?;
        let tree = self.whole(tokens)?;
        tokens.expect(self.alloc, ")")?;
        tokens.leave(outer);
        Ok(tree)
    }

    #[tactic(auto, unfolding(crate::specs::Reading::system))]
    pub fn system(&self, tokens: &mut Cursor<'_>) -> Result<Expr, ParseFault>
        requires { Nests self.now.depth (F.pre self.now.expr) (F.post self.now.expr) }
        ensures { Gives (spec.system (spec.expr self.now.depth) tokens.old) result tokens.new }
    {
        let function = tokens.take_id(self.alloc)?;
        let argument = self.parenthesised(tokens)?;
        Ok(Expr::System(function, Boxed::new(self.alloc, argument)?))
    }

    fn more(&self, tokens: &mut Cursor<'_>, first: Expr) -> Result<Items<Expr>, ParseFault>
        requires { Nests self.now.depth (F.pre self.now.expr) (F.post self.now.expr) }
        ensures { Gives (spec.more (spec.expr self.now.depth) first tokens.old) result tokens.new }
    {
        let mut found = Items::new(self.alloc);
        found.push(first)?;
        'turn: for _turn in 0..tokens.len() {
            if !tokens.sees(",") {
                return Ok(found);
            }
            tokens.advance();
            found.push(self.whole(tokens)?)?;
        }
        Ok(found)
    }

    #[tactic(auto, unfolding(crate::specs::Reading::repeated))]
    fn repeated(&self, tokens: &mut Cursor<'_>) -> Result<Items<Expr>, ParseFault>
        requires { Nests self.now.depth (F.pre self.now.expr) (F.post self.now.expr) }
        ensures { Gives (spec.repeated (spec.expr self.now.depth) tokens.old) result tokens.new }
    {
        let outer = tokens.enter();
        open_bracket(self.alloc, tokens, "{")?;
        let first = self.whole(tokens)?;
        let parts = self.more(tokens, first)?;
        tokens.expect(self.alloc, "}")?;
        tokens.leave(outer);
        Ok(parts)
    }

    fn braced_from(
        &self,
        tokens: &mut Cursor<'_>,
        place: Place,
        first: Expr,
    ) -> Result<Expr, ParseFault>
        requires { Nests self.now.depth (F.pre self.now.expr) (F.post self.now.expr) }
        ensures { Gives (spec.braced_from (spec.expr self.now.depth) place first tokens.old) result tokens.new }
    {
        if tokens.sees("{") {
            let count = Boxed::new(self.alloc, first)?;
            Ok(Expr::Repeat(place, count, self.repeated(tokens)?))
        } else {
            Ok(Expr::Concat(place, self.more(tokens, first)?))
        }
    }

    #[tactic(auto, unfolding(crate::specs::Reading::braced))]
    pub fn braced(&self, tokens: &mut Cursor<'_>) -> Result<Expr, ParseFault>
        requires { Nests self.now.depth (F.pre self.now.expr) (F.post self.now.expr) }
        ensures { Gives (spec.braced (spec.expr self.now.depth) tokens.old) result tokens.new }
    {
        let outer = tokens.enter();
        let bracket = open_bracket(self.alloc, tokens, "{")?;
        let first = self.whole(tokens)?;
        let tree = self.braced_from(tokens, bracket.place, first)?;
        tokens.expect(self.alloc, "}")?;
        tokens.leave(outer);
        Ok(tree)
    }
}
