//! A law of the order of rules, proved for whoever reads the definitions.

ghost use Rattle.pcef_rule.specs.Precedence.{RulesAreOrdered};

/// Of two rules exactly one goes before the other.
pub fn rules_are_ordered()
    ensures { RulesAreOrdered }
{}
