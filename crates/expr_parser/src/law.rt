//! Laws of the definitions.

ghost use Rattle.std.specs.Prelude.{◌≡◌, ◌≤◌, ℕ, true, List, [], ◌∷◌, ◌++◌, length, Ok, Err};
ghost use Rattle.sv_lexer.specs.declared.token.Token.{Token};
ghost use Rattle.sv_ast.specs.declared.expression.Expr.{Expr};
ghost use Rattle.sv_base.specs.declared.refusal.Refusal.{Refusal};
ghost use Rattle.sv_base.specs.declared.fault.Fault.{Fault};
ghost use Rattle.expr_parser.specs.Grammar.{Phrase, Reads, IsPhrase, tokens_of};
ghost use Rattle.expr_parser.specs.Nesting.{nesting, greatest_nesting};
ghost use Rattle.expr_parser.specs.Outcome.{Begins, BeginsWith, IsRead, IsRefused};
ghost use Rattle.expr_parser.specs.Input.{Input};
ghost use Rattle.expr_parser.specs.Reading.{any};
ghost use Rattle.expr_parser.specs.Steady.{ends_expression, ReadsFrom, RefusesAt};

/// Tokens are one expression at most.
pub fn one_tree()
    ensures { (tokens : List Token) (a b : Expr) → Reads tokens a → Reads tokens b → a ≡ b }
{}

/// How deep a text is nested at a token is the same in each expression that begins with the tokens up to it.
pub fn one_nesting()
    ensures { (run : List Token) (p q : Phrase) → BeginsWith run p → BeginsWith run q → nesting p (length run) ≡ nesting q (length run) }
{}

/// One tree at most is read from a place on, and its end stands at one place.
pub fn one_reading()
    ensures { (tokens : List Token) (at depth : ℕ) (a b : Expr) (m n : ℕ) → IsRead tokens at depth a m → IsRead tokens at depth b n → (a ≡ b) × (m ≡ n) }
{}

/// There is one refusal at most from a place on.
pub fn one_refusal()
    ensures { (tokens : List Token) (at depth : ℕ) (a b : Refusal) → IsRefused tokens at depth a → IsRefused tokens at depth b → a ≡ b }
{}

/// Where a tree is read, nothing is refused.
pub fn not_both()
    ensures { (tokens : List Token) (at depth : ℕ) (tree : Expr) (n : ℕ) (refusal : Refusal) → IsRead tokens at depth tree n → IsRefused tokens at depth refusal → ⊥ }
{}

/// What the definition of reading gives where tokens are left is told by those tokens and the open nesting there.
pub fn exact_reading()
    ensures { (i : Input) → i.nested ≤ greatest_nesting → ((tree : Expr) (k : Input) → any i ≡ Ok (tree, k) → ReadsFrom i tree k) × ((e : Fault) → any i ≡ Err e → RefusesAt i e) }
{}

/// No expression begins with an expression and a token that goes on with none.
pub fn nothing_goes_on()
    ensures { (p : Phrase) (t : Token) → IsPhrase p → ends_expression t ≡ true → Begins (tokens_of p ++ t ∷ []) → ⊥ }
{}
