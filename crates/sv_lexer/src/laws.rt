//! Laws of the definitions: what `lex` answers is the one right answer.

ghost use Rattle.std.specs.Prelude.{◌≡◌, ℕ, List};
ghost use Rattle.sv_base.specs.declared.refusal.Refusal.{Refusal};
ghost use Rattle.sv_lexer.specs.Cutting.{IsTokens, IsRefused};
ghost use Rattle.sv_lexer.specs.declared.token.Token.{Token};

/// A text has at most one list of tokens.
pub fn one_list()
    ensures { (file : ℕ) (text : List ℕ) (a b : List Token) → IsTokens file text a → IsTokens file text b → a ≡ b }
{}

/// A text has at most one refusal.
pub fn one_refusal()
    ensures { (file : ℕ) (text : List ℕ) (a b : Refusal) → IsRefused file text a → IsRefused file text b → a ≡ b }
{}

/// A text that is refused has no list of tokens.
pub fn not_both()
    ensures { (file : ℕ) (text : List ℕ) (tokens : List Token) (refusal : Refusal) → IsTokens file text tokens → IsRefused file text refusal → ⊥ }
{}
