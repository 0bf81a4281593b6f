//! Statements (IEEE 1800-2017, clause 12).

ghost use Rattle.std.specs.Prelude.{◌≡◌};
ghost use Rattle.expr_parser.specs.Input.{Gives};
ghost use Rattle.expr_parser.specs.Reading.{any};
ghost use Rattle.module_parser.specs.Grammar.{is_empty, has_default, is_first_default};
ghost use Rattle.module_parser.specs.Input.{comes};
ghost use Rattle.module_parser.specs.Parts as parts;
ghost use Rattle.module_parser.specs.code.Steps as steps;
ghost use Rattle.module_parser.specs.Nests.{Nests};
ghost use Rattle.module_parser.specs.Reading as spec;

use crate::cursor::Cursor;
use crate::kept::kept;
use crate::target::{self, LEVELS};
use crate::{bracket, list, repetition};
use expr_parser::ParseFault;
use sqlite_items::{Boxed, Items};
use std::alloc::Global;
use sv_ast::{CaseItem, Expr, Loop, Stmt};
use sv_base::Sequence;

fn expression(alloc: Global, tokens: &mut Cursor<'_>) -> Result<Expr, ParseFault>
    ensures { Gives (any tokens.old) result tokens.new }
{
    tokens.expression(alloc)
}

/// An expression between `(` and `)`.
pub fn test(alloc: Global, tokens: &mut Cursor<'_>) -> Result<Expr, ParseFault>
    ensures { Gives (spec.parenthesised any tokens.old) result tokens.new }
{
    bracket::parenthesised(alloc, tokens, expression)
}

fn counted(alloc: Global, tokens: &mut Cursor<'_>) -> Result<Loop, ParseFault>
    ensures { Gives (parts.counted tokens.old) result tokens.new }
{
    tokens.expect_word(alloc, "int")?;
    repetition::loop_header(alloc, tokens)
}

/// The labels of an item, with the `:` behind them.
fn labels(alloc: Global, tokens: &mut Cursor<'_>) -> Result<Sequence<Expr>, ParseFault>
    ensures { Gives (steps.labels tokens.old) result tokens.new }
{
    let labels = list::listed(alloc, tokens, expression)?;
    let (labels, ()) = kept(labels, tokens.expect(alloc, ":"))?;
    Ok(labels)
}

fn is_default(item: &CaseItem) -> bool
    ensures { result ≡ is_empty item.now.labels }
{
    match item.labels.as_slice() {
        [] => true,
        [_, ..] => false,
    }
}

/// Whether a `default` stands among these.
fn has_default(items: &[CaseItem]) -> bool
    ensures { result ≡ has_default items.now }
{
    let mut rest = items;
    while let [item, behind @ ..] = rest {
        if is_default(item) {
            return true;
        }
        rest = behind;
    }
    false
}

/// Whether a `default` comes next, and none stands among these.
#[tactic(auto, unfolding(crate::specs::Input::comes))]
fn sees_default(tokens: &Cursor<'_>, found: &[CaseItem]) -> bool
    ensures { result ≡ comes (is_first_default found.now) tokens.now }
{
    tokens.sees_word("default") && !has_default(found)
}

/// The rules that hold statements take the reader of those as a parameter, so that each is proved by itself.
#[derive(Clone, Copy)]
pub struct Statements<F> {
    alloc: Global,
    /// How many statements may still stand inside one another.
    depth: usize,
    statement: F,
}

impl<F: Fn(Global, &mut Cursor<'_>, usize) -> Result<Stmt, ParseFault>> Statements<F> {
    fn inner(&self, alloc: Global, tokens: &mut Cursor<'_>) -> Result<Stmt, ParseFault>
        requires { Nests spec.statement_to self.now.depth (F.pre self.now.statement) (F.post self.now.statement) }
        ensures { Gives (spec.statement_to self.now.depth tokens.old) result tokens.new }
    {
        (self.statement)(alloc, tokens, self.depth)
    }

    fn boxed(&self, tokens: &mut Cursor<'_>) -> Result<Boxed<Stmt>, ParseFault>
        requires { Nests spec.statement_to self.now.depth (F.pre self.now.statement) (F.post self.now.statement) }
        ensures { Gives (spec.statement_to self.now.depth tokens.old) result tokens.new }
    {
        let found = self.inner(self.alloc, tokens)?;
        Ok(Boxed::new(self.alloc, found)?)
    }

    #[tactic(auto, unfolding(crate::specs::Reading::block))]
    fn block(&self, tokens: &mut Cursor<'_>) -> Result<Stmt, ParseFault>
        requires { Nests spec.statement_to self.now.depth (F.pre self.now.statement) (F.post self.now.statement) }
        ensures { Gives (spec.block (spec.statement_to self.now.depth) tokens.old) result tokens.new }
    {
        let (name, parts) = bracket::block_of(self.alloc, tokens, self.depth, &self.statement)?;
        Ok(Stmt::Block(name, parts))
    }

    fn otherwise(&self, tokens: &mut Cursor<'_>) -> Result<Option<Boxed<Stmt>>, ParseFault>
        requires { Nests spec.statement_to self.now.depth (F.pre self.now.statement) (F.post self.now.statement) }
        ensures { Gives (parts.otherwise (spec.statement_to self.now.depth) tokens.old) result tokens.new }
    {
        if !tokens.sees_word("else") {
            return Ok(None);
        }
        let outer = tokens.enter();
        tokens.open_word(self.alloc, "else")?;
        let second = self.boxed(tokens)?;
        tokens.leave(outer);
        Ok(Some(second))
    }

    #[tactic(auto, unfolding(crate::specs::Reading::conditional))]
    fn conditional(&self, tokens: &mut Cursor<'_>) -> Result<Stmt, ParseFault>
        requires { Nests spec.statement_to self.now.depth (F.pre self.now.statement) (F.post self.now.statement) }
        ensures { Gives (spec.conditional (spec.statement_to self.now.depth) tokens.old) result tokens.new }
    {
        let outer = tokens.enter();
        let place = tokens.open_word(self.alloc, "if")?.place;
        let test = test(self.alloc, tokens)?;
        let front = kept(test, self.boxed(tokens))?;
        tokens.leave(outer);
        let ((test, first), second) = kept(front, self.otherwise(tokens))?;
        Ok(Stmt::If(place, test, first, second))
    }

    #[tactic(auto, unfolding(crate::specs::Reading::default_item))]
    fn default_item(&self, tokens: &mut Cursor<'_>) -> Result<CaseItem, ParseFault>
        requires { Nests spec.statement_to self.now.depth (F.pre self.now.statement) (F.post self.now.statement) }
        ensures { Gives (spec.default_item (spec.statement_to self.now.depth) tokens.old) result tokens.new }
    {
        tokens.expect_word(self.alloc, "default")?;
        if tokens.sees(":") {
            tokens.expect(self.alloc, ":")?;
        }
        let body = self.inner(self.alloc, tokens)?;
        Ok(CaseItem {
            labels: Sequence::new(self.alloc),
            body,
        })
    }

    #[tactic(auto, unfolding(crate::specs::Reading::labelled_item))]
    fn labelled_item(&self, tokens: &mut Cursor<'_>) -> Result<CaseItem, ParseFault>
        requires { Nests spec.statement_to self.now.depth (F.pre self.now.statement) (F.post self.now.statement) }
        ensures { Gives (spec.labelled_item (spec.statement_to self.now.depth) tokens.old) result tokens.new }
    {
        let labels = labels(self.alloc, tokens)?;
        let (labels, body) = kept(labels, self.inner(self.alloc, tokens))?;
        Ok(CaseItem { labels, body })
    }

    #[tactic(auto, unfolding(crate::specs::Reading::case_item))]
    fn case_item(&self, tokens: &mut Cursor<'_>, found: &[CaseItem]) -> Result<CaseItem, ParseFault>
        requires { Nests spec.statement_to self.now.depth (F.pre self.now.statement) (F.post self.now.statement) }
        ensures { Gives (spec.case_item (spec.statement_to self.now.depth) found.now tokens.old) result tokens.new }
    {
        if sees_default(tokens, found) {
            self.default_item(tokens)
        } else {
            self.labelled_item(tokens)
        }
    }

    fn case_items(&self, tokens: &mut Cursor<'_>) -> Result<Items<CaseItem>, ParseFault>
        requires { Nests spec.statement_to self.now.depth (F.pre self.now.statement) (F.post self.now.statement) }
        ensures { Gives (parts.case_items (spec.statement_to self.now.depth) tokens.old) result tokens.new }
    {
        let first = self.case_item(tokens, &[])?;
        let mut found = list::single_item(self.alloc, first)?;
        'turn: for _turn in 0..tokens.len() {
            if !tokens.sees_no_word("endcase") {
                return Ok(found);
            }
            let item = self.case_item(tokens, found.as_slice())?;
            found.push(item)?;
        }
        Ok(found)
    }

    /// A `case` before its `endcase`.
    fn choice_front(&self, tokens: &mut Cursor<'_>) -> Result<Stmt, ParseFault>
        requires { Nests spec.statement_to self.now.depth (F.pre self.now.statement) (F.post self.now.statement) }
        ensures { Gives (parts.choice_front (spec.statement_to self.now.depth) tokens.old) result tokens.new }
    {
        let outer = tokens.enter();
        let place = tokens.open_word(self.alloc, "case")?.place;
        let test = test(self.alloc, tokens)?;
        let (test, items) = kept(test, self.case_items(tokens))?;
        tokens.leave(outer);
        Ok(Stmt::Case(place, test, items))
    }

    #[tactic(auto, unfolding(crate::specs::Reading::choice))]
    fn choice(&self, tokens: &mut Cursor<'_>) -> Result<Stmt, ParseFault>
        requires { Nests spec.statement_to self.now.depth (F.pre self.now.statement) (F.post self.now.statement) }
        ensures { Gives (spec.choice (spec.statement_to self.now.depth) tokens.old) result tokens.new }
    {
        let choice = self.choice_front(tokens)?;
        let (choice, ()) = kept(choice, tokens.expect_word(self.alloc, "endcase"))?;
        Ok(choice)
    }

    #[tactic(auto, unfolding(crate::specs::Reading::repetition))]
    fn repetition(&self, tokens: &mut Cursor<'_>) -> Result<Stmt, ParseFault>
        requires { Nests spec.statement_to self.now.depth (F.pre self.now.statement) (F.post self.now.statement) }
        ensures { Gives (spec.repetition (spec.statement_to self.now.depth) tokens.old) result tokens.new }
    {
        let outer = tokens.enter();
        let place = tokens.open_word(self.alloc, "for")?.place;
        let head = bracket::parenthesised(self.alloc, tokens, counted)?;
        let (head, body) = kept(head, self.boxed(tokens))?;
        tokens.leave(outer);
        Ok(Stmt::For(place, head, body))
    }

    #[tactic(auto, unfolding(crate::specs::Reading::assignment))]
    fn assignment(&self, tokens: &mut Cursor<'_>) -> Result<Stmt, ParseFault>
        ensures { Gives (spec.assignment (spec.statement_to self.now.depth) tokens.old) result tokens.new }
    {
        let written = target::target(self.alloc, tokens)?;
        let (written, sign) = kept(written, tokens.take_sign_of(self.alloc, &["=", "<="]))?;
        let front = kept((written, sign), tokens.expression(self.alloc))?;
        let (((written, sign), value), ()) = kept(front, tokens.expect(self.alloc, ";"))?;
        Ok(Stmt::Assign(written, sign, value))
    }

    #[tactic(auto, unfolding(crate::specs::Reading::statement_level))]
    fn statement_level(&self, tokens: &mut Cursor<'_>) -> Result<Stmt, ParseFault>
        requires { Nests spec.statement_to self.now.depth (F.pre self.now.statement) (F.post self.now.statement) }
        ensures { Gives (spec.statement_level (spec.statement_to self.now.depth) tokens.old) result tokens.new }
    {
        if tokens.sees_word("begin") {
            self.block(tokens)
        } else if tokens.sees_word("if") {
            self.conditional(tokens)
        } else if tokens.sees_word("case") {
            self.choice(tokens)
        } else if tokens.sees_word("for") {
            self.repetition(tokens)
        } else if tokens.sees_target() {
            self.assignment(tokens)
        } else {
            tokens.expect(self.alloc, ";")?;
            Ok(Stmt::Empty)
        }
    }
}

/// A statement with statements inside one another to this depth.
fn statement_to(alloc: Global, tokens: &mut Cursor<'_>, depth: usize) -> Result<Stmt, ParseFault>
    ensures { Gives (spec.statement_to depth tokens.old) result tokens.new }
{
    if depth == 0 {
        return Err(tokens.refuse(alloc));
    }
    Statements {
        alloc,
        depth: depth - 1,
        statement: statement_to,
    }
    .statement_level(tokens)
}

/// A statement of a process.
#[tactic(auto, unfolding(crate::specs::Reading::statement))]
pub fn statement(alloc: Global, tokens: &mut Cursor<'_>) -> Result<Stmt, ParseFault>
    ensures { Gives (spec.statement tokens.old) result tokens.new }
{
    statement_to(alloc, tokens, LEVELS)
}
