//! Tables after others: without a rule, and without the rules of a bearer. A session makes its tables by other calls.
ghost use Rattle.std.specs.Prelude.{IfSome};
ghost use Rattle.pcef_table.specs.Tables.{IsTable};

use crate::tests::expect_equal;
use crate::tests::tables::{DNS, DNS_ANSWER, UE, empty_catalog, passed, table_of};
use pcef_catalog::{Detects, Offers};
use pcef_model::Verdict;
use pcef_rule::{BearerId, Gate, RuleName};
use pcef_table::Table;
use std::alloc::Global;

/// What is seen of a table: the number of its generation, how many entries there are, and the bearers of the first
/// three.
type Seen = (u32, usize, [Option<BearerId>; 3]);

fn seen(table: &Table) -> Seen {
    let bearers = [
        bearer_at(table, 0),
        bearer_at(table, 1),
        bearer_at(table, 2),
    ];
    (table.generation(), table.entries().len(), bearers)
}

fn bearer_at(table: &Table, place: usize) -> Option<BearerId> {
    table.entry(place).map(|entry| entry.bearer)
}

/// The next generation without a rule.
fn without<C: Offers>(catalog: &C, table: &Table, name: &str) -> Option<Table>
    requires { IsTable (C.offers catalog.now) table.now.entries }
    ensures { IfSome result (λ t. IsTable (C.offers catalog.now) t.entries) }
{
    let name = RuleName::new(name).ok()?;
    if table.generation() < 100 {
        table.without(catalog, &name).ok()
    } else {
        None
    }
}

/// What is seen of a table of two rules, and of the one after it without the first rule.
fn seen_around_a_removal(alloc: Global) -> Option<[Seen; 2]> {
    let catalog = empty_catalog(alloc)?;
    let variants = [
        ("a", 50, Gate::Enabled, 5, DNS),
        ("b", 60, Gate::Disabled, 6, DNS),
    ];
    let table = table_of(alloc, &catalog, &variants)?;
    let fewer = without(&catalog, &table, "a")?;
    Some([seen(&table), seen(&fewer)])
}

#[test]
fn a_generation_without_a_rule(rt: HostRuntime) {
    expect_equal(
        &rt,
        &seen_around_a_removal(rt.alloc()),
        &Some([
            (2, 2, [Some(BearerId(5)), Some(BearerId(6)), None]),
            (3, 1, [Some(BearerId(6)), None, None]),
        ]),
    );
}

/// What is seen without the rules of bearer 6, and the verdict of a DNS answer.
fn without_bearer_6(alloc: Global) -> Option<(Seen, Option<Verdict>)> {
    let catalog = empty_catalog(alloc)?;
    let variants = [
        ("a", 50, Gate::Enabled, 6, DNS),
        ("b", 60, Gate::Enabled, 5, DNS),
        ("c", 70, Gate::Enabled, 6, DNS),
    ];
    let table = table_of(alloc, &catalog, &variants)?;
    seen_without_bearer_6(&catalog, &table)
}

fn seen_without_bearer_6<C: Detects>(catalog: &C, table: &Table) -> Option<(Seen, Option<Verdict>)>
    requires { IsTable (C.offers catalog.now) table.now.entries }
{
    if table.generation() >= 100 {
        return None;
    }
    let fewer = table.without_bearer(catalog, BearerId(6)).ok()?;
    let verdict = fewer.classify(catalog, UE, &DNS_ANSWER);
    Some((seen(&fewer), Some(verdict)))
}

#[test]
fn a_generation_without_the_rules_of_a_bearer(rt: HostRuntime) {
    let seen = (4, 1, [Some(BearerId(5)), None, None]);
    expect_equal(
        &rt,
        &without_bearer_6(rt.alloc()),
        &Some((seen, passed("b", 5))),
    );
}
