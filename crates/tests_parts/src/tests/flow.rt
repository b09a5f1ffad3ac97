//! Flows that are remembered. No clause says that a flow isn't looked up again: closures count how often they are asked.
ghost use Rattle.std.specs.Prelude.{◌≡◌, ◌≤◌, IfSome, nat_le};
ghost use Rattle.pcef_catalog.specs.Shapes.{test_holds};
ghost use Rattle.pcef_catalog.specs.declared.shape.Test.TheVariants.{Dscp, OctetsAtMost};
ghost use Rattle.pcef_flow.specs.Flows.{Remembers};
ghost use Rattle.pcef_table.specs.Tables.{IsTable};

use crate::tests::catalog::{named, one};
use crate::tests::expect_equal;
use crate::tests::tables::{DNS_ANSWER, UE, empty_table, with_entry};
use pcef_catalog::{Catalog, Detect, Detects, Offers, Predefined, Test};
use pcef_flow::{FlowCache, NotOwn};
use pcef_index::Indexed;
use pcef_packet::{Addr, Header};
use pcef_rule::{BearerId, RuleName};
use pcef_table::{Source, Table, TableEntry};
use std::alloc::Global;
use std::sync::Arc;
use std::sync::atomic::{AtomicU64, Ordering};

/// A packet of a flow, a longer one of the same flow, and one whose code point is another: it has the place of the first
/// flow in each cache.
const VOICE: Header = Header {
    dscp: 46,
    ..DNS_ANSWER
};

const LONGER: Header = Header {
    octets: 200,
    ..VOICE
};

const PLAIN: Header = DNS_ANSWER;

const STRAY: Header = Header {
    dst: Addr::V4(0xc633_6408),
    ..VOICE
};

/// The place of the rule that decides of a packet, and how often its closure had been asked then.
type Asked = (Result<Option<u8>, NotOwn>, u64);

#[test]
fn a_flow_is_looked_up_once(rt: HostRuntime) {
    let due = [
        (Ok(Some(0)), 1),
        (Ok(Some(0)), 1),
        // Each of two flows with one place drives the other out.
        (Ok(None), 2),
        (Ok(Some(0)), 3),
        // A stray packet, with that place, drives out none.
        (Err(NotOwn), 3),
        (Ok(Some(0)), 3),
        // The table is followed once more, so the flow is forgotten.
        (Ok(Some(0)), 4),
    ];
    expect_equal(&rt, &asked_by_code_point(rt.alloc()), &Some(due));
}

#[test]
fn no_flow_is_remembered_where_a_rule_looks_at_the_volume(rt: HostRuntime) {
    let due = [
        (Ok(Some(0)), 1),
        (Ok(None), 2),
        (Ok(Some(0)), 3),
        (Ok(Some(0)), 4),
        (Err(NotOwn), 4),
        (Ok(None), 5),
        (Ok(Some(0)), 6),
    ];
    expect_equal(&rt, &asked_by_volume(rt.alloc()), &Some(due));
}

fn asked_by_code_point(alloc: Global) -> Option<[Asked; 7]> {
    let calls = Arc::new(alloc, AtomicU64::new(0)).ok()?;
    let theirs = Arc::try_clone(&calls).ok()?;
    let detect: Detect = Box::new(
        alloc,
        move |h: &Header| -> bool
            ensures { result ≡ test_holds h.now (Dscp 46) }
        {
            theirs.fetch_add(1, Ordering::SeqCst);
            h.dscp == 46
        },
    )
    .ok()?;
    let rule = Predefined::new(named(RuleName::known("voice")), one(Test::Dscp(46)), detect);
    asked_of(
        alloc,
        rule,
        &calls,
        [&VOICE, &LONGER, &PLAIN, &VOICE, &STRAY, &LONGER, &VOICE],
    )
}

fn asked_by_volume(alloc: Global) -> Option<[Asked; 7]> {
    let calls = Arc::new(alloc, AtomicU64::new(0)).ok()?;
    let theirs = Arc::try_clone(&calls).ok()?;
    let detect: Detect = Box::new(
        alloc,
        move |h: &Header| -> bool
            ensures { result ≡ test_holds h.now (OctetsAtMost 100) }
        {
            theirs.fetch_add(1, Ordering::SeqCst);
            h.octets <= 100
        },
    )
    .ok()?;
    let rule = Predefined::new(
        named(RuleName::known("short")),
        one(Test::OctetsAtMost(100)),
        detect,
    );
    asked_of(
        alloc,
        rule,
        &calls,
        [&VOICE, &LONGER, &VOICE, &VOICE, &STRAY, &LONGER, &VOICE],
    )
}

/// What a cache answers of these packets by a table of this rule; it follows the table once more before the last.
fn asked_of(
    alloc: Global,
    rule: Predefined,
    calls: &AtomicU64,
    packets: [&Header; 7],
) -> Option<[Asked; 7]> {
    let mut rules = Vec::new(alloc);
    rules.push(rule).ok()?;
    let catalog = Catalog::new(alloc, rules).ok()?;
    let table = table_of_first(alloc, &catalog)?;
    let indexed = Indexed::new(alloc, table, &catalog, UE).ok()?;
    let mut cache = FlowCache::new(alloc, 4).ok()?;
    cache.follow(&catalog, indexed.table());
    asked_by(&mut cache, &indexed, &catalog, calls, packets)
}

fn asked_by<C: Detects>(
    cache: &mut FlowCache,
    indexed: &Indexed,
    catalog: &C,
    calls: &AtomicU64,
    packets: [&Header; 7],
) -> Option<[Asked; 7]>
    requires table { IsTable (C.offers catalog.now) indexed.now.entries }
    requires remembers { Remembers (C.offers catalog.now) indexed.now.entries UE cache.old }
{
    let [first, second, third, fourth, fifth, sixth, last] = packets;
    Some([
        asked(cache, indexed, catalog, calls, first),
        asked(cache, indexed, catalog, calls, second),
        asked(cache, indexed, catalog, calls, third),
        asked(cache, indexed, catalog, calls, fourth),
        asked(cache, indexed, catalog, calls, fifth),
        asked(cache, indexed, catalog, calls, sixth),
        {
            cache.follow(catalog, indexed.table());
            asked(cache, indexed, catalog, calls, last)
        },
    ])
}

fn asked<C: Detects>(
    cache: &mut FlowCache,
    indexed: &Indexed,
    catalog: &C,
    calls: &AtomicU64,
    packet: &Header,
) -> Asked
    requires table { IsTable (C.offers catalog.now) indexed.now.entries }
    requires remembers { Remembers (C.offers catalog.now) indexed.now.entries UE cache.old }
    ensures { Remembers (C.offers catalog.now) indexed.now.entries UE cache.new }
{
    let place = cache.own_place(indexed, catalog, &UE, packet);
    (place, calls.load(Ordering::SeqCst))
}

/// The table of a catalog's first rule.
fn table_of_first<C: Offers>(alloc: Global, catalog: &C) -> Option<Table>
    ensures { IfSome result (λ t. IsTable (C.offers catalog.now) t.entries) }
{
    if catalog.listing().offers().is_empty() {
        return None;
    }
    let table = empty_table(alloc, catalog)?;
    with_entry(
        catalog,
        &table,
        TableEntry {
            source: Source::Predefined(0),
            bearer: BearerId(5),
            slot: None,
            counted: false,
        },
    )
}
