//! Laws of what expressions mean. Each is the contract of a function that does nothing, so that a caller
//! has the law by a call.

ghost use Rattle.std.specs.Prelude.{◌≡◌, ◌≤◌, ◌^◌, ℕ, Bool, true, List, IfOk};
ghost use Rattle.std.specs.List.{AllByRecursion};
ghost use Rattle.sv_lexer.specs.declared.token.Token.{Token};
ghost use Rattle.sv_lexer.specs.Cutting.{IsTokens};
ghost use Rattle.sv_ast.specs.declared.expression.Expr.{Expr};
ghost use Rattle.const_eval.specs.Expressions.{Names, meaning_of};
ghost use Rattle.bit_ops.specs.declared.value.TheConstants.{MAX_WIDTH};
ghost use Rattle.const_eval.specs.Operators.{logarithm};
ghost use Rattle.const_eval.specs.Tokens.{HasMeaning};
ghost use Rattle.const_eval.specs.Sized.{IsSized, AreSized};
ghost use Rattle.const_eval.specs.Alike.{Alike, HaveSameConstants, DifferInWords, HaveSameShape};

/// Where the names have sizes and words of values, an expression has a size of 1 to `MAX_WIDTH`, and in each
/// size from its own on a word of that size.
pub fn sizes_and_values()
    ensures { (names : Names) → AreSized names → (needed : Bool) (e : Expr)
        → IfOk (meaning_of names needed e) IsSized }
{
    bit_ops::laws::value_fits();
}

/// Where a constant is needed, what an expression means depends on constants alone.
pub fn constants_alone()
    ensures { (f g : Names) → HaveSameConstants f g → (e : Expr) → meaning_of f true e ≡ meaning_of g true e }
{}

/// Sizes, signs and refusals don't depend on the words of nets and variables.
pub fn words_of_nets()
    ensures { (f g : Names) → DifferInWords f g → (needed : Bool) (e : Expr)
        → Alike HaveSameShape (meaning_of f needed e) (meaning_of g needed e) }
{}

/// Each number and each fill that the lexer gives means something.
pub fn numbers_have_meaning()
    ensures { (file : ℕ) (text : List ℕ) (tokens : List Token) → IsTokens file text tokens
        → AllByRecursion HasMeaning tokens }
{}

/// The logarithm of a number of at most the greatest width is the least k with the number at most 2 to the
/// power k.
pub fn least_logarithm()
    ensures reaches { (a : ℕ) → a ≤ 2 ^ MAX_WIDTH → a ≤ 2 ^ logarithm a }
    ensures least { (a j : ℕ) → a ≤ 2 ^ j → logarithm a ≤ j }
{}
