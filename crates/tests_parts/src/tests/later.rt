//! Indexes of tables that come one after the other: each takes over what it can of the one before.

ghost use Rattle.std.specs.Prelude.{IfSome};
ghost use Rattle.pcef_table.specs.Tables.{IsTable};

use crate::tests::expect_equal;
use crate::tests::tables::{
    ALL, DNS, DNS_ANSWER, UE, empty_catalog, padded, passed, table_of, with_variant, without_rule,
};
use pcef_catalog::Offers;
use pcef_index::Indexed;
use pcef_model::Verdict;
use pcef_rule::Gate;
use std::alloc::Global;

/// A table with many filters, none of which but one matches a packet of the tests.
fn many<C: Offers>(alloc: Global, catalog: &C) -> Option<Indexed>
    ensures { IfSome result (λ i. IsTable (C.offers catalog.now) i.entries) }
{
    let few = table_of(alloc, catalog, &[("a", 10, Gate::Enabled, 5, ALL)])?;
    Indexed::new(alloc, padded(alloc, catalog, &few)?, catalog, UE).ok()
}

/// The next table, with a rule more that goes before.
fn with_dns<C: Offers>(alloc: Global, catalog: &C, before: &Indexed) -> Option<Indexed>
    requires { IsTable (C.offers catalog.now) before.now.entries }
    ensures { IfSome result (λ i. IsTable (C.offers catalog.now) i.entries) }
{
    let more = with_variant(
        alloc,
        catalog,
        before.table(),
        ("b", 5, Gate::Enabled, 6, DNS),
    )?;
    before.after(alloc, more).ok()
}

/// The next table, without a rule.
fn without<C: Offers>(alloc: Global, catalog: &C, before: &Indexed, name: &str) -> Option<Indexed>
    requires { IsTable (C.offers catalog.now) before.now.entries }
    ensures { IfSome result (λ i. IsTable (C.offers catalog.now) i.entries) }
{
    let less = without_rule(catalog, before.table(), name)?;
    before.after(alloc, less).ok()
}

/// What each of these three tables decides of a packet.
fn verdicts(alloc: Global) -> Option<[Verdict; 3]> {
    let catalog = empty_catalog(alloc)?;
    let first = many(alloc, &catalog)?;
    let second = with_dns(alloc, &catalog, &first)?;
    let third = without(alloc, &catalog, &second, "b")?;
    Some([
        first.classify(&catalog, UE, &DNS_ANSWER),
        second.classify(&catalog, UE, &DNS_ANSWER),
        third.classify(&catalog, UE, &DNS_ANSWER),
    ])
}

/// What is expected of them.
fn expected() -> Option<[Verdict; 3]> {
    Some([passed("a", 5)?, passed("b", 6)?, passed("a", 5)?])
}

#[test]
fn a_rule_that_comes_and_goes_decides_meanwhile(rt: HostRuntime) {
    expect_equal(&rt, &verdicts(rt.alloc()), &expected());
}

/// What tables decide of a packet once the rule that did is gone, and once another one came.
fn verdicts_of_others(alloc: Global) -> Option<[Verdict; 2]> {
    let catalog = empty_catalog(alloc)?;
    let first = many(alloc, &catalog)?;
    let second = without(alloc, &catalog, &first, "a")?;
    let third = with_dns(alloc, &catalog, &second)?;
    Some([
        second.classify(&catalog, UE, &DNS_ANSWER),
        third.classify(&catalog, UE, &DNS_ANSWER),
    ])
}

/// What is expected of them.
fn expected_of_others() -> Option<[Verdict; 2]> {
    Some([Verdict::Unmatched, passed("b", 6)?])
}

#[test]
fn a_rule_that_went_decides_no_longer(rt: HostRuntime) {
    expect_equal(&rt, &verdicts_of_others(rt.alloc()), &expected_of_others());
}
