//! That plain designs have the facts that playing needs. Each is the contract of a function that does nothing.

ghost use Rattle.std.specs.Prelude.{◌≡◌};
ghost use Rattle.std.specs.List.{AllByRecursion};
ghost use Rattle.bit_ops.specs.Width.{IsWidth};
ghost use Rattle.sv_base.specs.declared.face.Class.TheVariants.{Clock};
ghost use Rattle.sv_base.specs.declared.face.Port.{Port};
ghost use Rattle.net_ir.specs.declared.design.Spec.{Spec};
ghost use Rattle.net_ir.specs.Face.{ports_of};
ghost use Rattle.net_ir.specs.Facts.{HasOneSolution};
ghost use Rattle.net_ir.specs.Idle.{IgnoresIdle};
ghost use Rattle.plain_run.specs.Plain.{IsPlain};

/// A plain design has exactly one solution in each state whose levels fit.
pub fn plain_solution()
    ensures { (spec : Spec) → IsPlain spec → HasOneSolution spec }
{}

/// In a plain design idle inputs change nothing that is seen.
pub fn plain_idle()
    ensures { (spec : Spec) → IsPlain spec → IgnoresIdle spec }
{}

/// The ports of a plain design have widths that values may have, and its clocks have one bit.
pub fn plain_ports()
    ensures widths { (spec : Spec) → IsPlain spec → AllByRecursion (λ (p : Port). IsWidth p.width) (ports_of spec) }
    ensures clocks { (spec : Spec) → IsPlain spec → AllByRecursion (λ (p : Port). p.class ≡ Clock → p.width ≡ 1) (ports_of spec) }
{}
