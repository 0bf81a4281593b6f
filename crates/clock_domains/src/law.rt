//! Laws of the classes, each the contract of a function that does nothing.

ghost use Rattle.std.specs.Prelude.{◌≡◌, List};
ghost use Rattle.std.specs.List.{AllByRecursion};
ghost use Rattle.sv_base.specs.declared.refusal.Refusal.{Refusal};
ghost use Rattle.sv_base.specs.declared.face.Class.TheVariants.{Clock};
ghost use Rattle.sv_base.specs.declared.face.Port.{Port};
ghost use Rattle.sv_base.specs.declared.face.Face.{Face};
ghost use Rattle.net_ir.specs.declared.design.Spec.{Spec};
ghost use Rattle.net_ir.specs.Face.{face_of};
ghost use Rattle.clock_domains.specs.Order.{IsRefused};
ghost use Rattle.clock_domains.specs.Classes.{face_with, IsClassified};
ghost use Rattle.clock_domains.specs.Alone.{HasNoInstance};

/// A module has one answer: what is refused first is determined, and nothing is where it has a face.
pub fn one_answer()
    ensures refusals { (spec : Spec) (faces : List Face) (a b : Refusal) → IsRefused spec faces a → IsRefused spec faces b → a ≡ b }
    ensures apart { (spec : Spec) (faces : List Face) (face : Face) (refusal : Refusal) → IsClassified spec faces face → IsRefused spec faces refusal → ⊥ }
{}

/// A module without instances has the face that its own drivers show.
pub fn without_instances()
    ensures { (spec : Spec) (faces : List Face) → HasNoInstance spec → face_with spec faces ≡ face_of spec }
{}

/// Each port of a module that is a clock has one bit.
pub fn clocks_have_one_bit()
    ensures { (spec : Spec) (faces : List Face) (face : Face) → IsClassified spec faces face → AllByRecursion (λ (p : Port). p.class ≡ Clock → p.width ≡ 1) face.ports }
{}
