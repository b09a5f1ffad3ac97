//! Laws of what scripts answer, proved for whoever reads the definitions.

ghost use Rattle.pcef_script.specs.Laws.{OneScript, OneShow};

/// What a script writes is a function of its lines, on one profile: two outputs of [`crate::run_script`] on the same
/// lines are equal, and so are the sessions after them.
pub fn one_script()
    ensures show { OneShow }
    ensures script { OneScript }
{}
