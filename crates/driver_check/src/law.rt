//! A law of the definitions, the contract of a function that does nothing.

ghost use Rattle.std.specs.Prelude.{◌≡◌, ℕ, List};
ghost use Rattle.net_ir.specs.declared.design.Var.{Var};
ghost use Rattle.driver_check.specs.Driven as driven;
ghost use Rattle.driver_check.specs.Driven.{drives};
ghost use Rattle.driver_check.specs.Taking.{taken_source};
ghost use Rattle.driver_check.specs.code.Runs.{any_has};

/// The runs that a driver takes have the bits that it may write, and no others.
pub fn runs_are_bits()
    ensures { (vars : List Var) (source : driven.Source) (x k : ℕ) → any_has (taken_source vars source).taken x k ≡ drives vars source x k }
{}
