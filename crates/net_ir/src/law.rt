//! Laws of the definitions, each the contract of a function that does nothing.

ghost use Rattle.std.specs.Prelude.{◌≡◌, ◌<◌, ◌^◌, ℕ, List};
ghost use Rattle.std.specs.List.{AllByRecursion};
ghost use Rattle.sv_base.specs.Steps.{Step, StepFits};
ghost use Rattle.sv_base.specs.Runs.{Runs};
ghost use Rattle.sv_base.specs.Meaning.{State, Plays};
ghost use Rattle.net_ir.specs.declared.design.Spec.{Spec};
ghost use Rattle.net_ir.specs.declared.term.Term.{Term};
ghost use Rattle.net_ir.specs.Value.{AreWordsOf, val, size};
ghost use Rattle.net_ir.specs.Lawful.{IsLawful};
ghost use Rattle.net_ir.specs.Face.{ports_of};
ghost use Rattle.net_ir.specs.Run.{start};
ghost use Rattle.net_ir.specs.Stepping.{Samples, Follows};
ghost use Rattle.net_ir.specs.Trace.{Shows, IsTrace};
ghost use Rattle.net_ir.specs.Facts.{HasOneSolution};
ghost use Rattle.net_ir.specs.Idle.{IgnoresIdle};
ghost use Rattle.net_ir.specs.Benched.{meaning_of};

/// The value of a lawful term is a word of its size, where each variable's word is one of its width.
pub fn lawful_values()
    ensures { (ws u : List ℕ) (t : Term) → AreWordsOf ws u → IsLawful ws t → val ws u t < 2 ^ size ws t }
{
    bit_ops::laws::value_fits();
}

/// What registers sample is determined.
pub fn one_sample()
    ensures { (spec : Spec) (u before after kept a b : List ℕ) → Samples spec u before after kept a → Samples spec u before after kept b → a ≡ b }
{}

/// Where a design has one solution in each state, a step leads to one state.
pub fn one_next()
    ensures { (spec : Spec) (state : State) (step : Step) (a b : State) → HasOneSolution spec → Follows spec state step a → Follows spec state step b → a ≡ b }
{}

/// Then given steps lead from a state to one state and show one list of rows.
pub fn one_run()
    ensures { (spec : Spec) (state : State) (steps : List Step) (rows others : List (List ℕ)) (last other : State) → HasOneSolution spec →
        Runs (Shows spec) (Follows spec) state steps rows last → Runs (Shows spec) (Follows spec) state steps others other → (rows ≡ others) × (last ≡ other) }
{}

/// Then it has at most one trace over given steps.
pub fn one_trace()
    ensures { (spec : Spec) (steps : List Step) (a b : List ℕ) → HasOneSolution spec → IsTrace spec steps a → IsTrace spec steps b → a ≡ b }
{}

/// Where idle inputs change nothing, what a bench of the design plays is a run of the design.
pub fn benched_run()
    ensures { (spec : Spec) (steps : List Step) (rows : List (List ℕ)) (last : State) → IgnoresIdle spec →
        AllByRecursion (StepFits (ports_of spec)) steps → Plays (meaning_of spec) steps rows last → Runs (Shows spec) (Follows spec) (start spec) steps rows last }
{}
