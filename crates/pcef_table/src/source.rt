//! The rules of entries: their properties, their order, and which packets they fit.

ghost use Rattle.std.specs.Prelude.{◌≡◌, Some};
ghost use Rattle.pcef_rule.specs.Precedence.{rank_cmp};
ghost use Rattle.pcef_table.specs.Sources.{IsKnown, source_fits, source_is_named, source_origin, properties_of, source_rank};

use crate::entry::Source;
use pcef_catalog::{Detects, Offers};
use pcef_filter::any_matches;
use pcef_packet::{Addr, Header};
use pcef_rule::{Origin, Properties, RuleName, compare_rules};
use std::cmp::Ordering;

impl Source {
    /// Where the rule comes from.
    pub(crate) fn origin(&self) -> Origin
        ensures { result ≡ source_origin self.now }
    {
        match self {
            Source::Dynamic(_) => Origin::Dynamic,
            Source::Predefined(_) => Origin::Predefined,
        }
    }

    /// The properties of the rule.
    pub fn properties<'a, C: Offers>(&'a self, catalog: &'a C) -> &'a Properties
        requires { IsKnown (C.offers catalog.now) self.now }
        ensures { properties_of (C.offers catalog.now) self.now ≡ Some result.now }
    {
        match self {
            Source::Dynamic(rule) => rule.properties(),
            Source::Predefined(index) => &catalog.listing().offers()[usize::from(
                *index,
            )].properties,
        }
    }

    /// Whether the rule has this name.
    pub(crate) fn is_named<C: Offers>(&self, catalog: &C, name: &RuleName) -> bool
        requires { IsKnown (C.offers catalog.now) self.now }
        ensures { result ≡ source_is_named (C.offers catalog.now) name.now self.now }
    {
        self.properties(catalog).name == *name
    }

    /// Whether the rule fits a packet.
    pub(crate) fn fits<C: Detects>(&self, catalog: &C, ue: &Addr, header: &Header) -> bool
        ensures { result ≡ source_fits (C.offers catalog.now) ue.now header.now self.now }
    {
        match self {
            Source::Dynamic(rule) => any_matches(rule.filters(), ue, header),
            Source::Predefined(index) => catalog.detects(*index, header),
        }
    }

    /// Compares two rules by precedence: the one that is tried first is less.
    pub(crate) fn compare<C: Offers>(&self, catalog: &C, other: &Source) -> Ordering
        requires known { IsKnown (C.offers catalog.now) self.now }
        requires other_known { IsKnown (C.offers catalog.now) other.now }
        ensures { result ≡ rank_cmp
            (source_rank (C.offers catalog.now) self.now) (source_rank (C.offers catalog.now) other.now) }
    {
        compare_rules(
            self.properties(catalog),
            self.origin(),
            other.properties(catalog),
            other.origin(),
        )
    }
}
