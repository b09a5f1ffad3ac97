//! The filters that a message gives a rule.

ghost use Rattle.std.specs.Prelude.{◌≡◌, ◌++◌, ◌∷◌, [], IfOk};

use pcef_filter::Filter;
use std::alloc::{AllocError, Global};
use std::marker::Model;

/// The filters of a rule's definition, in order. Contracts see the list.
#[derive(Drop)]
pub struct FilterList {
    items: Vec<Filter>,
}

impl Model for FilterList {
    ghost use Rattle.std.specs.Prelude.{List};
    ghost use Rattle.pcef_filter.specs.declared.filter.Filter.{Filter};

    ghost Value = { List Filter };

    ghost view = { λ l. l.items.items };
}

impl FilterList {
    /// No filter. Takes no memory.
    pub(crate) fn new(alloc: Global) -> FilterList
        ensures { result ≡ [] }
    {
        FilterList {
            items: Vec::new(alloc),
        }
    }

    /// These filters and one more behind them. Takes memory.
    pub(crate) fn and(self, filter: Filter) -> Result<FilterList, AllocError>
        ensures { IfOk result (λ l. l ≡ self ++ filter ∷ []) }
    {
        let mut items = self.items;
        items.push(filter)?;
        Ok(FilterList { items })
    }

    /// The filters. Takes no memory.
    pub fn as_slice(&self) -> &[Filter]
        ensures { result.now ≡ self.now }
    {
        &self.items
    }
}
