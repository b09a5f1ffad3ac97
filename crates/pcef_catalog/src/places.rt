//! Where a name stands in a list of predefined rules.

ghost use Rattle.std.specs.Prelude.{◌≡◌, ◌≢◌, ◌<◌, ◌≤◌, ◌↔◌, ℕ, IfNone, IfOk, IfSome, IsTrue, Some, length, slice_get};
ghost use Rattle.pcef_catalog.specs.PlainRules.{offer_of, offers_in};
ghost use Rattle.pcef_catalog.specs.Shapes.{detected};
ghost use Rattle.pcef_catalog.specs.Offers.{AreDistinct, most_offers, names_of};

use crate::listing::{Listing, Offer};
use crate::predefined::Predefined;
use pcef_packet::Header;
use pcef_rule::RuleName;
use std::alloc::{AllocError, Global};

fn has_name(rule: &Predefined, name: &RuleName) -> bool
    ensures { IsTrue result ↔ rule.now.properties.name ≡ name.now }
{
    rule.properties().name == *name
}

/// The first place of a name below an end.
fn place_before(rules: &[Predefined], end: usize, name: &RuleName) -> Option<usize>
    requires { end ≤ length rules.now }
    ensures within { IfSome result (λ place. place < end) }
    ensures found { IfSome result
        (λ place. slice_get (names_of (offers_in rules.now)) place ≡ Some name.now) }
    ensures none { IfNone result ((place : ℕ) → place < end →
        slice_get (names_of (offers_in rules.now)) place ≢ Some name.now) }
{
    for place in 0..end {
        if has_name(&rules[place], name) {
            return Some(place);
        }
    }
    None
}

/// Whether no two rules have one name.
pub(crate) fn are_distinct(rules: &[Predefined]) -> bool
    ensures { IsTrue result ↔ AreDistinct (names_of (offers_in rules.now)) }
{
    for place in 0..rules.len() {
        if let Some(_twin) = place_before(rules, place, &rules[place].properties().name) {
            return false;
        }
    }
    true
}

/// Whether the closure of the rule at a place detects a header; false where there is no such place.
pub(crate) fn detects_at(rules: &[Predefined], index: u8, header: &Header) -> bool
    ensures { result ≡ detected (offers_in rules.now) index header.now }
{
    match rules.get(usize::from(index)) {
        Some(rule) => rule.detects(header),
        None => false,
    }
}

/// A rule without its closure.
fn bare_rule(rule: &Predefined) -> Offer
    ensures { result ≡ offer_of rule.now }
{
    Offer {
        properties: rule.properties().copy(),
        shape: rule.shape().copy(),
    }
}

/// The rules without their closures.
fn bare_rules(alloc: Global, rules: &[Predefined]) -> Result<Vec<Offer>, AllocError>
    ensures { IfOk result (λ v. v.items ≡ offers_in rules.now) }
{
    let mut offers = Vec::with_capacity(alloc, rules.len())?;
    for rule in rules {
        offers.push(bare_rule(rule))?;
    }
    Ok(offers)
}

/// The listing of the rules.
pub(crate) fn listing_of(alloc: Global, rules: &[Predefined]) -> Result<Listing, AllocError>
    requires { length rules.now ≤ most_offers }
    ensures { IfOk result (λ l. l ≡ offers_in rules.now) }
{
    Listing::new(alloc, bare_rules(alloc, rules)?)
}
