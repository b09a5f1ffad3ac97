//! Laws of the definitions, for those who build on them.

ghost use Rattle.std.specs.Prelude.{◌≡◌, List, Option, ℕ};
ghost use Rattle.pcef_filter.specs.Grammar.{Spells};
ghost use Rattle.pcef_filter.specs.Faults.{FilterFaultOf};
ghost use Rattle.pcef_filter.specs.declared.filter.Filter.{Filter};
ghost use Rattle.pcef_filter.specs.declared.filter.FilterFault.{FilterFault};
ghost use Rattle.pcef_filter.specs.declared.filter.Flow.{Flow};

/// A text and a flow word have one fault or one filter, and never both.
pub fn one_fault()
    // Two faults of a text are the same.
    ensures unique { (text : List ℕ) (flow : Option Flow) (d e : FilterFault) →
        FilterFaultOf text flow d → FilterFaultOf text flow e → d ≡ e }
    // A text that spells a filter has none.
    ensures alone { (text : List ℕ) (flow : Option Flow) (filter : Filter) (e : FilterFault) →
        Spells text flow filter → FilterFaultOf text flow e → ⊥ }
{}
