//! An index that finds no memory, and is built once more.
ghost use Rattle.std.specs.Prelude.{◌≡◌, IfSome, map};

use crate::tests::expect_equal;
use crate::tests::tables::{
    ALL, DNS, DNS_ANSWER, UE, Variant, empty_catalog, padded, passed, table_of,
};
use pcef_catalog::Offers;
use pcef_index::Index;
use pcef_model::Verdict;
use pcef_rule::Gate;
use pcef_table::Table;
use std::alloc::Global;
use std::test::Fail;

/// A rule of one filter, on bearer 5.
fn install<'a>(name: &'a str, precedence: u32, filter: &'a str) -> Variant<'a> {
    (name, precedence, Gate::Enabled, 5, filter)
}

// It ends in error where there is no table. `.ci/refused-memory` refuses each allocation in turn.
#[test]
fn a_build_that_finds_no_memory_can_come_again(rt: HostRuntime) -> Result<(), Fail> {
    match judged_at_a_second_try(rt.alloc()) {
        Some(verdict) => expect_equal(&rt, &verdict, &passed("b", 5)),
        None => Err("there is no table to build an index of")?,
    }
    Ok(())
}

/// The verdict of a DNS answer by an index that may be built a second time, if there is a table to build it of.
fn judged_at_a_second_try(alloc: Global) -> Option<Option<Verdict>> {
    let catalog = empty_catalog(alloc)?;
    let variants = [install("a", 10, ALL), install("b", 5, DNS)];
    let few = table_of(alloc, &catalog, &variants)?;
    let table = padded(alloc, &catalog, &few)?;
    match built_at_a_second_try(alloc, &catalog, &table) {
        Some(index) => Some(Some(index.classify(&table, &catalog, UE, &DNS_ANSWER))),
        None => Some(None),
    }
}

fn built_at_a_second_try<C: Offers>(alloc: Global, catalog: &C, table: &Table) -> Option<Index>
    ensures { IfSome result (λ i. i ≡ map (λ e. e.source) table.now.entries) }
{
    match Index::build(alloc, table, catalog, UE) {
        Ok(index) => Some(index),
        Err(_) => Index::build(alloc, table, catalog, UE).ok(),
    }
}
