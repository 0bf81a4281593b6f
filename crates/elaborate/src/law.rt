//! Laws of specialisations, each the contract of a function that does nothing, so that a caller has the law by a call.

ghost use Rattle.std.specs.Prelude.{◌≡◌, map, Ok};
ghost use Rattle.std.specs.List.{IsDistinct};
ghost use Rattle.std.specs.Str.{bytes_eq};
ghost use Rattle.sv_base.specs.declared.face.Port.{Port};
ghost use Rattle.sv_ast.specs.declared.module.Module.{Module};
ghost use Rattle.net_ir.specs.declared.design.Var.{Var};
ghost use Rattle.net_ir.specs.declared.design.Spec.{Spec};
ghost use Rattle.net_ir.specs.Face.{ports_of};
ghost use Rattle.net_ir.specs.Lawful.{IsLawfulSpec};
ghost use Rattle.elaborate.specs.Items.{specialised};

/// The specialisation of a module is lawful, and its variables have names of their own.
pub fn specialisations_are_lawful()
    ensures lawful { (m : Module) (spec : Spec) → specialised m ≡ Ok spec → IsLawfulSpec spec }
    ensures names { (m : Module) (spec : Spec) → specialised m ≡ Ok spec → IsDistinct bytes_eq (map (λ (v : Var). v.name) spec.vars) }
    ensures ports { (m : Module) (spec : Spec) → specialised m ≡ Ok spec → IsDistinct bytes_eq (map (λ (p : Port). p.name) (ports_of spec)) }
{
    width_rules::law::terms();
}
