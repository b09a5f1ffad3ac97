//! Which indexes stand on a shelf. Whether a table took an index shows once the table that brought it is gone: the
//! shelf drops an index that nobody else owns when the next one is put there.

use crate::tests::expect_equal;
use crate::tests::tables::{ALL, UE, empty_catalog, padded, table_of};
use pcef_catalog::Catalog;
use pcef_index::{IndexShelf, Indexed};
use pcef_rule::Gate;
use std::alloc::Global;

/// A table of one rule of one filter, with its index.
fn narrow(alloc: Global, catalog: &Catalog) -> Option<Indexed> {
    let variants = [("a", 10, Gate::Enabled, 5, ALL)];
    Indexed::new(alloc, table_of(alloc, catalog, &variants)?, catalog, UE).ok()
}

/// A table of two rules with many filters, one of which has this precedence, with its index.
fn wide(alloc: Global, catalog: &Catalog, precedence: u32) -> Option<Indexed> {
    let variants = [("a", precedence, Gate::Enabled, 5, ALL)];
    let few = table_of(alloc, catalog, &variants)?;
    Indexed::new(alloc, padded(alloc, catalog, &few)?, catalog, UE).ok()
}

/// How many indexes there are once a table shares its own.
fn once_shared(shelf: &mut IndexShelf, table: &mut Indexed) -> usize {
    shelf.share(table);
    shelf.len()
}

/// How many there are once each of two tables of equal rules shared its own, and the first one is gone.
fn of_two(shelf: &mut IndexShelf, mut first: Indexed, second: &mut Indexed) -> [usize; 2] {
    [once_shared(shelf, &mut first), once_shared(shelf, second)]
}

/// How many there are, step by step.
fn numbers(alloc: Global, shelf: &mut IndexShelf) -> Option<[usize; 5]> {
    let catalog = empty_catalog(alloc)?;
    let few = once_shared(shelf, &mut narrow(alloc, &catalog)?);
    let mut again = wide(alloc, &catalog, 1)?;
    let [one, same] = of_two(shelf, wide(alloc, &catalog, 1)?, &mut again);
    let mut other = wide(alloc, &catalog, 2)?;
    let two = once_shared(shelf, &mut other);
    drop(again);
    let gone = once_shared(shelf, &mut wide(alloc, &catalog, 3)?);
    Some([few, one, same, two, gone])
}

#[test]
fn tables_of_equal_rules_share_an_index(rt: HostRuntime) {
    let mut shelf = IndexShelf::new(rt.alloc());
    expect_equal(
        &rt,
        &numbers(rt.alloc(), &mut shelf),
        &Some([0, 1, 1, 2, 2]),
    );
}

/// How many there are once twenty tables of different rules shared theirs.
fn of_twenty(alloc: Global) -> Option<usize> {
    let catalog = empty_catalog(alloc)?;
    let mut shelf = IndexShelf::new(alloc);
    let mut tables = Vec::new(alloc);
    for precedence in 0..20u32 {
        let mut table = wide(alloc, &catalog, precedence)?;
        shelf.share(&mut table);
        tables.push(table).ok()?;
    }
    Some(shelf.len())
}

#[test]
fn a_shelf_keeps_sixteen_indexes(rt: HostRuntime) {
    expect_equal(&rt, &of_twenty(rt.alloc()), &Some(16));
}
