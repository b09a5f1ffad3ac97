//! A law of the definitions, proved for those who rely on them.

ghost use Rattle.pcef_front.specs.Laws.{OneAnswer};

/// For a front exactly one answer is right: a header, a fault, or `TooFew`.
pub fn one_answer()
    ensures { OneAnswer }
{}
