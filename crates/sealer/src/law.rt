//! Laws of sources. The function does nothing: its clauses are the laws.

ghost use Rattle.std.specs.Prelude.{◌≡◌, ℕ, List};
ghost use Rattle.sv_base.specs.declared.refusal.Refusal.{Refusal};
ghost use Rattle.net_ir.specs.declared.design.Spec.{Spec};
ghost use Rattle.net_ir.specs.Facts.{HasOneSolution};
ghost use Rattle.sealer.specs.Source.{HasDesign, IsRefused};

/// The bytes of a source have one design at most for a top, which has one solution in each state; or one refusal, and never a design
/// beside it.
pub fn one_source()
    ensures designs { (top bytes : List ℕ) (first second : Spec) → HasDesign top bytes first → HasDesign top bytes second → first ≡ second }
    ensures solution { (top bytes : List ℕ) (spec : Spec) → HasDesign top bytes spec → HasOneSolution spec }
    ensures refusals { (top bytes : List ℕ) (first second : Refusal) → IsRefused top bytes first → IsRefused top bytes second → first ≡ second }
    ensures apart { (top bytes : List ℕ) (spec : Spec) (refusal : Refusal) → HasDesign top bytes spec → IsRefused top bytes refusal → ⊥ }
{
    plain_run::law::plain_solution();
    sv_lexer::one_list();
    sv_lexer::one_refusal();
    sv_lexer::not_both();
    module_parser::one_reading();
    module_parser::one_refusal();
    module_parser::not_both();
}
