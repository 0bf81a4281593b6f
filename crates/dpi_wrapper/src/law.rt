//! The law of wrapper texts: the contract of a function with an empty body. A caller has it by a call, which does
//! nothing.

ghost use Rattle.std.specs.Prelude.{◌≡◌};
ghost use Rattle.sv_base.specs.declared.face.WrapperFace.{WrapperFace};
ghost use Rattle.dpi_wrapper.specs.WrapperText.{wrapper_text};
ghost use Rattle.dpi_wrapper.specs.GoodFace.{IsGoodWrapper};

/// Two good faces with one text are one.
pub fn one_face()
    ensures { (v w : WrapperFace) → IsGoodWrapper v → IsGoodWrapper w
        → wrapper_text v ≡ wrapper_text w → v ≡ w }
{}
