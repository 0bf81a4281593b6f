//! Lists of what a function value reads.

ghost use Rattle.std.specs.Prelude.{◌≡◌, [], ◌∷◌, codes, IfOk};
ghost use Rattle.std.specs.declared.alloc.Global.{Global};
ghost use denote.Ref.{MutBor};
ghost use Rattle.expr_parser.specs.Input.{Input, Parser, Gives};
ghost use Rattle.module_parser.specs.Words.{is_no_keyword};
ghost use Rattle.module_parser.specs.Input.{many};
ghost use Rattle.module_parser.specs.Reading as spec;
ghost use Rattle.module_parser.specs.Readers.{Reads};
ghost use Rattle.module_parser.specs.code.Depth.{ReadsAt};
ghost use Rattle.module_parser.specs.code.Steps as steps;

use crate::cursor::Cursor;
use expr_parser::ParseFault;
use sqlite_items::Items;
use std::alloc::{AllocError, Global};
use sv_base::Sequence;

/// A list of this one.
pub fn single<T: Drop>(alloc: Global, item: T) -> Result<Sequence<T>, AllocError>
    ensures { IfOk result (λ items. items ≡ item ∷ []) }
{
    let mut items = Sequence::new(alloc);
    items.push(item)?;
    Ok(items)
}

/// The list of this one in a tree.
pub fn single_item<T: Drop>(alloc: Global, item: T) -> Result<Items<T>, AllocError>
    ensures { IfOk result (λ items. items ≡ item ∷ []) }
{
    let items = single(alloc, item)?;
    Ok(Items::from_vec(items.into_vec()))
}

/// The next, behind a comma.
fn further<T: Drop, F: Fn(Global, &mut Cursor<'_>) -> Result<T, ParseFault>>(
    alloc: Global,
    tokens: &mut Cursor<'_>,
    read: &F,
) -> Result<T, ParseFault>
    requires { (alloc : Global) (old : MutBor Input) → F.pre read.now alloc old }
    ensures { (p : Parser T) → Reads p (F.post read.now) → Gives (steps.behind_sign (codes ",") p tokens.old) result tokens.new }
{
    tokens.expect(alloc, ",")?;
    read(alloc, tokens)
}

/// One or more, with commas between.
pub fn listed<T: Drop, F: Fn(Global, &mut Cursor<'_>) -> Result<T, ParseFault>>(
    alloc: Global,
    tokens: &mut Cursor<'_>,
    read: F,
) -> Result<Sequence<T>, ParseFault>
    requires { (alloc : Global) (old : MutBor Input) → F.pre read alloc old }
    ensures { (p : Parser T) → Reads p (F.post read) → Gives (spec.listed p tokens.old) result tokens.new }
{
    let first = read(alloc, tokens)?;
    let mut found = single(alloc, first)?;
    'turn: for _turn in 0..tokens.len() {
        if !tokens.sees(",") {
            return Ok(found);
        }
        let item = further(alloc, tokens, &read)?;
        found.push(item)?;
    }
    Ok(found)
}

/// As many as stand before this reserved word, each with others inside one another to this depth.
pub fn up_to<T: Drop, F: Fn(Global, &mut Cursor<'_>, usize) -> Result<T, ParseFault>>(
    alloc: Global,
    tokens: &mut Cursor<'_>,
    end: &str,
    depth: usize,
    read: &F,
) -> Result<Sequence<T>, ParseFault>
    requires { (alloc : Global) (old : MutBor Input) → F.pre read.now alloc old depth }
    ensures { (p : Parser T) → ReadsAt p depth (F.post read.now) → Gives (many (is_no_keyword end.now) (λ _. p) tokens.old) result tokens.new }
{
    let mut found = Sequence::new(alloc);
    'turn: for _turn in 0..tokens.len() {
        if !tokens.sees_no_word(end) {
            return Ok(found);
        }
        found.push(read(alloc, tokens, depth)?)?;
    }
    Ok(found)
}
