//! Items of a module and generate constructs (23.2.4, clause 27).

ghost use Rattle.expr_parser.specs.Input.{Gives};
ghost use Rattle.module_parser.specs.Input.{many};
ghost use Rattle.module_parser.specs.Nests.{Nests};
ghost use Rattle.module_parser.specs.Processes.{process_or};
ghost use Rattle.module_parser.specs.Reading as spec;
ghost use Rattle.module_parser.specs.Words.{is_no_keyword};

use crate::bracket::block_of;
use crate::cursor::Cursor;
use crate::declaration::{PARAMETER_WORDS, assignments, declaration, genvars, parameters};
use crate::instance::instances;
use crate::kept::kept;
use crate::list::{single_item, up_to};
use crate::process::{always, clocked, combinational};
use crate::repetition::loop_header;
use crate::statement::test;
use expr_parser::ParseFault;
use sqlite_items::Items;
use std::alloc::Global;
use sv_ast::{Block, Item, Loop};

/// The words that begin a declaration.
const DECLARING_WORDS: [&str; 6] = ["wire", "logic", "reg", "bit", "int", "integer"];

/// The rules that hold items take the reader of those as a parameter, so that each is proved by itself.
#[derive(Clone, Copy)]
struct GenerateItems<F> {
    alloc: Global,
    /// How many items may still stand inside one another.
    depth: usize,
    item: F,
}

impl<F: Fn(Global, &mut Cursor<'_>, usize) -> Result<Item, ParseFault>> GenerateItems<F> {
    fn inner(&self, alloc: Global, tokens: &mut Cursor<'_>) -> Result<Item, ParseFault>
        requires { Nests spec.item_to self.now.depth (F.pre self.now.item) (F.post self.now.item) }
        ensures { Gives (spec.item_to self.now.depth tokens.old) result tokens.new }
    {
        (self.item)(alloc, tokens, self.depth)
    }

    /// The items before this reserved word.
    fn items_up_to(&self, tokens: &mut Cursor<'_>, end: &str) -> Result<Items<Item>, ParseFault>
        requires { Nests spec.item_to self.now.depth (F.pre self.now.item) (F.post self.now.item) }
        ensures { Gives (many (is_no_keyword end.now) (λ _. spec.item_to self.now.depth) tokens.old) result tokens.new }
    {
        let found = up_to(self.alloc, tokens, end, self.depth, &self.item)?;
        Ok(Items::from_vec(found.into_vec()))
    }

    #[tactic(auto, unfolding(crate::specs::Reading::generated))]
    fn generated(&self, tokens: &mut Cursor<'_>) -> Result<Item, ParseFault>
        requires { Nests spec.item_to self.now.depth (F.pre self.now.item) (F.post self.now.item) }
        ensures { Gives (spec.generated (spec.item_to self.now.depth) tokens.old) result tokens.new }
    {
        let outer = tokens.enter();
        tokens.open_word(self.alloc, "generate")?;
        let found = self.items_up_to(tokens, "endgenerate")?;
        tokens.leave(outer);
        tokens.expect_word(self.alloc, "endgenerate")?;
        Ok(Item::Generate(found))
    }

    fn labelled(&self, tokens: &mut Cursor<'_>) -> Result<Block, ParseFault>
        requires { Nests spec.item_to self.now.depth (F.pre self.now.item) (F.post self.now.item) }
        ensures { Gives (spec.labelled (spec.item_to self.now.depth) tokens.old) result tokens.new }
    {
        let (label, items) = block_of(self.alloc, tokens, self.depth, &self.item)?;
        Ok(Block { label, items })
    }

    /// A block, or one item that stands for itself.
    #[tactic(auto, unfolding(crate::specs::Reading::generate_block))]
    fn generate_block(&self, tokens: &mut Cursor<'_>) -> Result<Block, ParseFault>
        requires { Nests spec.item_to self.now.depth (F.pre self.now.item) (F.post self.now.item) }
        ensures { Gives (spec.generate_block (spec.item_to self.now.depth) tokens.old) result tokens.new }
    {
        if tokens.sees_word("begin") {
            self.labelled(tokens)
        } else {
            let item = self.inner(self.alloc, tokens)?;
            let items = single_item(self.alloc, item)?;
            Ok(Block { label: None, items })
        }
    }

    #[tactic(auto, unfolding(crate::specs::Reading::loop_head))]
    fn loop_head(&self, tokens: &mut Cursor<'_>) -> Result<(bool, Loop), ParseFault>
        ensures { Gives (spec.loop_head (spec.item_to self.now.depth) tokens.old) result tokens.new }
    {
        if tokens.sees_word("genvar") {
            tokens.expect_word(self.alloc, "genvar")?;
            Ok((true, loop_header(self.alloc, tokens)?))
        } else {
            Ok((false, loop_header(self.alloc, tokens)?))
        }
    }

    fn parenthesised_head(&self, tokens: &mut Cursor<'_>) -> Result<(bool, Loop), ParseFault>
        ensures { Gives (spec.parenthesised (spec.loop_head (spec.item_to self.now.depth)) tokens.old) result tokens.new }
    {
        let outer = tokens.enter();
        tokens.open(self.alloc, "(")?;
        let head = self.loop_head(tokens)?;
        tokens.leave(outer);
        let (head, ()) = kept(head, tokens.expect(self.alloc, ")"))?;
        Ok(head)
    }

    #[tactic(auto, unfolding(crate::specs::Reading::generate_loop))]
    fn generate_loop(&self, tokens: &mut Cursor<'_>) -> Result<Item, ParseFault>
        requires { Nests spec.item_to self.now.depth (F.pre self.now.item) (F.post self.now.item) }
        ensures { Gives (spec.generate_loop (spec.item_to self.now.depth) tokens.old) result tokens.new }
    {
        let outer = tokens.enter();
        let place = tokens.open_word(self.alloc, "for")?.place;
        let head = self.parenthesised_head(tokens)?;
        let ((declares, head), body) = kept(head, self.generate_block(tokens))?;
        tokens.leave(outer);
        Ok(Item::For(place, declares, head, body))
    }

    fn otherwise(&self, tokens: &mut Cursor<'_>) -> Result<Option<Block>, ParseFault>
        requires { Nests spec.item_to self.now.depth (F.pre self.now.item) (F.post self.now.item) }
        ensures { Gives (spec.generate_else (spec.item_to self.now.depth) tokens.old) result tokens.new }
    {
        if !tokens.sees_word("else") {
            return Ok(None);
        }
        let outer = tokens.enter();
        tokens.open_word(self.alloc, "else")?;
        let second = self.generate_block(tokens)?;
        tokens.leave(outer);
        Ok(Some(second))
    }

    #[tactic(auto, unfolding(crate::specs::Reading::generate_conditional))]
    fn generate_conditional(&self, tokens: &mut Cursor<'_>) -> Result<Item, ParseFault>
        requires { Nests spec.item_to self.now.depth (F.pre self.now.item) (F.post self.now.item) }
        ensures { Gives (spec.generate_conditional (spec.item_to self.now.depth) tokens.old) result tokens.new }
    {
        let outer = tokens.enter();
        let place = tokens.open_word(self.alloc, "if")?.place;
        let test = test(self.alloc, tokens)?;
        let front = kept(test, self.generate_block(tokens))?;
        tokens.leave(outer);
        let ((test, first), second) = kept(front, self.otherwise(tokens))?;
        Ok(Item::If(place, test, first, second))
    }

    #[tactic(auto, unfolding(crate::specs::Reading::item_level))]
    fn item_level(&self, tokens: &mut Cursor<'_>) -> Result<Item, ParseFault>
        requires { Nests spec.item_to self.now.depth (F.pre self.now.item) (F.post self.now.item) }
        ensures { Gives (spec.item_level (spec.item_to self.now.depth) tokens.old) result tokens.new }
    {
        if tokens.sees_word_of(&PARAMETER_WORDS) {
            parameters(self.alloc, tokens)
        } else if tokens.sees_word_of(&DECLARING_WORDS) {
            declaration(self.alloc, tokens)
        } else if tokens.sees_word("genvar") {
            genvars(self.alloc, tokens)
        } else if tokens.sees_word("assign") {
            assignments(self.alloc, tokens)
        } else {
            self.process_or_structure(tokens)
        }
    }

    fn process_or_structure(&self, tokens: &mut Cursor<'_>) -> Result<Item, ParseFault>
        requires { Nests spec.item_to self.now.depth (F.pre self.now.item) (F.post self.now.item) }
        ensures { Gives (process_or (spec.structure (spec.item_to self.now.depth)) tokens.old) result tokens.new }
    {
        if tokens.sees_word("always_comb") {
            combinational(self.alloc, tokens)
        } else if tokens.sees_word("always_ff") {
            clocked(self.alloc, tokens)
        } else if tokens.sees_word("always") {
            always(self.alloc, tokens)
        } else {
            self.structure(tokens)
        }
    }

    /// What is no declaration and no process: a generate construct, an instance, or `;`.
    fn structure(&self, tokens: &mut Cursor<'_>) -> Result<Item, ParseFault>
        requires { Nests spec.item_to self.now.depth (F.pre self.now.item) (F.post self.now.item) }
        ensures { Gives (spec.structure (spec.item_to self.now.depth) tokens.old) result tokens.new }
    {
        if tokens.sees_word("generate") {
            self.generated(tokens)
        } else if tokens.sees_word("for") {
            self.generate_loop(tokens)
        } else if tokens.sees_word("if") {
            self.generate_conditional(tokens)
        } else if tokens.sees_identifier() {
            instances(self.alloc, tokens)
        } else {
            tokens.expect(self.alloc, ";")?;
            Ok(Item::Empty)
        }
    }
}

/// An item with items inside one another to this depth.
pub fn item_to(alloc: Global, tokens: &mut Cursor<'_>, depth: usize) -> Result<Item, ParseFault>
    ensures { Gives (spec.item_to depth tokens.old) result tokens.new }
{
    if depth == 0 {
        return Err(tokens.refuse(alloc));
    }
    GenerateItems {
        alloc,
        depth: depth - 1,
        item: item_to,
    }
    .item_level(tokens)
}
