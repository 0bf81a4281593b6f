//! Laws of outcomes. The functions do nothing: their clauses are the laws.

ghost use Rattle.std.specs.Prelude.{◌≡◌, ℕ, List};
ghost use Rattle.io_edge.specs.File.{Files};
ghost use Rattle.lib_create.specs.Outcome.{Verdict, Ends, Outcome, IsOutcome};

/// A run over files and words ends in one way, with one trace.
pub fn one_end()
    ensures { (files : Files) (words : List (List ℕ)) (first second : Verdict) (trace other : List ℕ) → Ends files words first trace → Ends files words second other → (first ≡ second) × (trace ≡ other) }
{
    net_ir::law::one_trace();
    sealer::law::one_source();
}

/// Two outcomes of the same words over the same files are one.
pub fn one_outcome()
    ensures { (files : Files) (words : List (List ℕ)) (first second : Outcome) → IsOutcome files words first → IsOutcome files words second → first ≡ second }
{
    one_end();
}
