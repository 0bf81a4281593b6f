//! What stands between brackets or between `begin` and `end`, with a function value that reads it.

ghost use Rattle.std.specs.Option.{option_copied};
ghost use Rattle.std.specs.declared.alloc.Global.{Global};
ghost use denote.Ref.{MutBor};
ghost use Rattle.expr_parser.specs.Input.{Input, Parser, Gives};
ghost use Rattle.module_parser.specs.Reading as spec;
ghost use Rattle.module_parser.specs.Readers.{Reads};
ghost use Rattle.module_parser.specs.code.Depth.{ReadsAt};
ghost use Rattle.module_parser.specs.code.Steps as steps;

use crate::cursor::Cursor;
use crate::kept::kept;
use crate::list;
use expr_parser::ParseFault;
use sqlite_items::Items;
use std::alloc::Global;
use sv_ast::Id;
use sv_base::Sequence;

/// Between `(` and `)`.
pub fn parenthesised<T: Drop, F: Fn(Global, &mut Cursor<'_>) -> Result<T, ParseFault>>(
    alloc: Global,
    tokens: &mut Cursor<'_>,
    read: F,
) -> Result<T, ParseFault>
    requires { (alloc : Global) (old : MutBor Input) → F.pre read alloc old }
    ensures { (p : Parser T) → Reads p (F.post read) → Gives (spec.parenthesised p tokens.old) result tokens.new }
{
    let outer = tokens.enter();
    tokens.open(alloc, "(")?;
    let inner = read(alloc, tokens)?;
    tokens.leave(outer);
    tokens.expect(alloc, ")")?;
    Ok(inner)
}

#[tactic(auto, unfolding(crate::specs::Reading::label))]
fn label(alloc: Global, tokens: &mut Cursor<'_>) -> Result<Option<Id>, ParseFault>
    ensures { Gives (spec.label tokens.old) result tokens.new }
{
    if tokens.sees(":") {
        tokens.expect(alloc, ":")?;
        Ok(Some(tokens.take_identifier(alloc)?))
    } else {
        Ok(None)
    }
}

/// The name of the beginning again, which may stand behind an end where the beginning has one.
#[tactic(auto, unfolding(crate::specs::Reading::end_label))]
pub fn end_label(
    alloc: Global,
    tokens: &mut Cursor<'_>,
    name: Option<&Id>,
) -> Result<(), ParseFault>
    ensures { Gives (spec.end_label (option_copied name.entry) tokens.old) result tokens.new }
{
    let Some(name) = name else {
        return Ok(());
    };
    if tokens.sees(":") {
        tokens.expect(alloc, ":")?;
        tokens.expect_named(alloc, name)
    } else {
        Ok(())
    }
}

/// A label, and as many as stand before `end`.
fn labelled_parts<T: Drop, F: Fn(Global, &mut Cursor<'_>, usize) -> Result<T, ParseFault>>(
    alloc: Global,
    tokens: &mut Cursor<'_>,
    depth: usize,
    read: &F,
) -> Result<(Option<Id>, Sequence<T>), ParseFault>
    requires { (alloc : Global) (old : MutBor Input) → F.pre read.now alloc old depth }
    ensures { (p : Parser T) → ReadsAt p depth (F.post read.now) → Gives (steps.labelled_parts p tokens.old) result tokens.new }
{
    let name = label(alloc, tokens)?;
    let both = kept(name, list::up_to(alloc, tokens, "end", depth, read))?;
    Ok(both)
}

/// `end`, with the name of the beginning again or without one.
fn block_end(alloc: Global, tokens: &mut Cursor<'_>, name: Option<&Id>) -> Result<(), ParseFault>
    ensures { Gives (steps.block_end (option_copied name.entry) tokens.old) result tokens.new }
{
    tokens.expect_word(alloc, "end")?;
    end_label(alloc, tokens, name)
}

/// `begin`, a label, as many as stand there, each with others inside one another to this depth, and `end` with the same
/// label.
#[tactic(auto, unfolding(crate::specs::Reading::block_of))]
pub fn block_of<T: Drop, F: Fn(Global, &mut Cursor<'_>, usize) -> Result<T, ParseFault>>(
    alloc: Global,
    tokens: &mut Cursor<'_>,
    depth: usize,
    read: &F,
) -> Result<(Option<Id>, Items<T>), ParseFault>
    requires { (alloc : Global) (old : MutBor Input) → F.pre read.now alloc old depth }
    ensures { (p : Parser T) → ReadsAt p depth (F.post read.now) → Gives (spec.block_of p tokens.old) result tokens.new }
{
    let outer = tokens.enter();
    tokens.open_word(alloc, "begin")?;
    let (name, parts) = labelled_parts(alloc, tokens, depth, read)?;
    tokens.leave(outer);
    let ended = block_end(alloc, tokens, name.as_ref());
    let ((name, parts), ()) = kept((name, parts), ended)?;
    Ok((name, Items::from_vec(parts.into_vec())))
}
