//! Laws of the definitions, for whoever builds on them.

ghost use Rattle.std.specs.Prelude.{◌≡◌, List, Result, ℕ};
ghost use Rattle.pcef_line.specs.LineOf.{LineOf};
ghost use Rattle.pcef_line.specs.declared.fault.LineFault.{LineFault};
ghost use Rattle.pcef_line.specs.declared.line.Line.{Line};

/// Each text is one line or has one first fault, and never both.
pub fn one_line()
    // Whatever is due to a text is the same.
    ensures unique { (text : List ℕ) (d e : Result Line LineFault) →
        LineOf text d → LineOf text e → d ≡ e }
    // Something is due to each text.
    ensures some { (text : List ℕ) → (due : Result Line LineFault) × LineOf text due }
{}
