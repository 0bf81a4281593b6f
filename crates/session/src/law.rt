//! A law of the definitions, the contract of a function that does nothing.

ghost use Rattle.std.specs.Prelude.{◌≡◌, ◌++◌, ℕ, List, [], ◌∷◌};
ghost use Rattle.sv_base.specs.declared.face.Port.{Port};
ghost use Rattle.sv_base.specs.TraceText.{trace_text};
ghost use Rattle.session.specs.Playing.{text_before, text_with};

/// The text of a trace is what is due before its last row, and with it.
pub fn text_of_rows()
    ensures { (ports : List Port) (shown : List (List ℕ)) (row : List ℕ) →
        trace_text ports (shown ++ row ∷ []) ≡ text_before ports shown ++ text_with ports shown row }
{}
