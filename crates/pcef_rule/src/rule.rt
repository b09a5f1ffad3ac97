//! Rules.

ghost use Rattle.std.specs.Prelude.{◌≡◌, ◌↔◌, ◌<◌, [], length, IfOk, Err};
ghost use Rattle.pcef_rule.specs.Definition.{Definition, most_filters};
ghost use Rattle.pcef_rule.specs.Precedence.{goes_before, origin_place, rank_by, rank_cmp};

use crate::gate::Gate;
use crate::name::{KeyName, RuleName};
use crate::quantity::{Qos, Rates};
use pcef_filter::Filter;
use std::alloc::{AllocError, Global};
use std::cmp::Ordering;
use std::marker::Model;
use std::sync::Arc;
use thiserror::Error;

/// The most filters of a rule.
pub const MAX_FILTERS: usize = 16;

/// What dynamic and predefined rules have in common (TS 23.203, clause 6.3.1).
#[derive(Debug, Drop)]
pub struct Properties {
    /// The name.
    pub name: RuleName,
    /// The precedence: rules are tried from the lowest value on.
    pub precedence: u32,
    /// QCI and ARP.
    pub qos: Qos,
    /// The guaranteed rates, where there are any.
    pub rates: Option<Rates>,
    /// The gate.
    pub gate: Gate,
    /// The monitoring key, where there is one.
    pub key: Option<KeyName>,
}

impl Properties {
    /// A copy. Takes no memory.
    pub fn copy(&self) -> Properties
        ensures { result ≡ self.now }
    {
        let key = match &self.key {
            Some(key) => Some(key.copy()),
            None => None,
        };
        Properties {
            name: self.name.copy(),
            precedence: self.precedence,
            qos: self.qos,
            rates: self.rates,
            gate: self.gate,
            key,
        }
    }
}

/// Where a rule comes from.
#[derive(Clone, Copy, Debug, PartialEq, Eq)]
pub enum Origin {
    /// The PCRF defined it.
    Dynamic,
    /// It stands in the gateway's catalog.
    Predefined,
}

impl Origin {
    /// The place of the origin in the order of rules.
    fn place(self) -> u8
        ensures { result ≡ origin_place self }
    {
        match self {
            Origin::Dynamic => 0,
            Origin::Predefined => 1,
        }
    }
}

/// Compares two rules by precedence: the one that is tried first is less. The lowest precedence value goes
/// first; at equal values a dynamic rule goes before a predefined one (TS 23.203, clause 6.3.1), and
/// rules of one origin go by the bytes of their names.
pub fn compare_rules(a: &Properties, a_origin: Origin, b: &Properties, b_origin: Origin) -> Ordering
    ensures { result ≡ rank_cmp (rank_by a_origin a.now) (rank_by b_origin b.now) }
{
    a.precedence
        .cmp(&b.precedence)
        .then(a_origin.place().cmp(&b_origin.place()))
        .then(a.name.cmp(&b.name))
}

/// Whether a rule goes before another one, in the order of [`compare_rules`].
pub fn comes_before(a: (&Properties, Origin), b: (&Properties, Origin)) -> bool
    ensures { result
        ≡ goes_before (rank_by a.entry.1 a.entry.0.now) (rank_by b.entry.1 b.entry.0.now) }
{
    compare_rules(a.0, a.1, b.0, b.1).is_lt()
}

/// Why properties and filters make no rule. Of several faults the first in this order is answered.
#[derive(Clone, Copy, Debug, PartialEq, Eq, Error)]
pub enum RuleFault {
    /// There is no filter.
    #[error("the rule has no filter")]
    NoFilter,
    /// There are more than 16 filters.
    #[error("the rule has more than 16 filters")]
    TooManyFilters,
    /// There is no memory left.
    #[error("there is no memory left")]
    NoMemory,
}

/// What the copies of a rule share.
#[derive(Drop)]
struct Shared {
    properties: Properties,
    filters: Vec<Filter>,
}

/// A dynamic rule: its properties and 1 to 16 filters. It never changes, so its copies share them.
pub struct Rule {
    shared: Arc<Shared>,
}

// Written out, so that an owner proves one call on each return path.
impl Drop for Rule {
    fn drop(self) {
        let Rule { shared: _ } = self;
    }
}

impl Model for Rule {
    ghost use Rattle.std.specs.Prelude.{◌<◌, ◌≤◌, length};
    ghost use Rattle.std.specs.Arc.{arc_value};
    ghost use Rattle.pcef_rule.specs.Definition.{Definition, HasRightCount};

    ghost Value = { Definition };

    ghost view = { λ r. record {
      properties = (arc_value r.shared).properties;
      filters = (arc_value r.shared).filters.items;
    } };

    ghost invariant = { λ r. HasRightCount (arc_value r.shared).filters.items };
}

fn copy_filters(alloc: Global, filters: &[Filter]) -> Result<Vec<Filter>, AllocError>
    ensures { IfOk result (λ copy. copy.items ≡ filters.now) }
{
    let mut copy = Vec::with_capacity(alloc, filters.len())?;
    for filter in filters {
        copy.push(filter.copy())?;
    }
    Ok(copy)
}

impl Rule {
    /// The rule of these properties and copies of these filters, or the first fault in the order of
    /// [`RuleFault`]. Takes memory for the filters and for what copies share.
    pub fn new(alloc: Global, properties: Properties, filters: &[Filter]) -> Result<Rule, RuleFault>
        ensures no_filter { (result ≡ Err RuleFault.NoFilter) ↔ (filters.now ≡ []) }
        ensures too_many { (result ≡ Err RuleFault.TooManyFilters)
            ↔ (most_filters < length filters.now) }
        ensures ok { IfOk result
            (λ r. r ≡ record { properties = properties; filters = filters.now }) }
    {
        if filters.is_empty() {
            return Err(RuleFault::NoFilter);
        }
        if filters.len() > MAX_FILTERS {
            return Err(RuleFault::TooManyFilters);
        }
        let Ok(filters) = copy_filters(alloc, filters) else {
            return Err(RuleFault::NoMemory);
        };
        let Ok(shared) = Arc::new(
            alloc,
            Shared {
                properties,
                filters,
            },
        ) else {
            return Err(RuleFault::NoMemory);
        };
        Ok(Rule { shared })
    }

    /// The properties.
    pub fn properties(&self) -> &Properties
        ensures { result.now ≡ self.now.properties }
    {
        &self.shared.properties
    }

    /// The filters, 1 to 16.
    pub fn filters(&self) -> &[Filter]
        ensures { result.now ≡ self.now.filters }
    {
        &self.shared.filters
    }

    /// A copy, or out of memory, which leaves this one as it was.
    pub fn copy(&self) -> Result<Rule, AllocError>
        ensures { IfOk result (λ r. r ≡ self.now) }
    {
        Ok(Rule {
            shared: Arc::try_clone(&self.shared)?,
        })
    }
}
