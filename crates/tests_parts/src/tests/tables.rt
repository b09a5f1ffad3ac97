//! Small tables, and a packet that they judge.
ghost use Rattle.std.specs.Prelude.{IfSome, List};
ghost use Rattle.pcef_catalog.specs.declared.listing.Offer.{Offer};
ghost use Rattle.pcef_table.specs.Sources.{IsKnown};
ghost use Rattle.pcef_table.specs.Tables.{IsTable};

use pcef_catalog::{Catalog, Offers};
use pcef_filter::{Filter, read_filter};
use pcef_model::Verdict;
use pcef_packet::{Addr, Dir, Header, Ports};
use pcef_rule::{Arp, BearerId, Gate, Properties, Qci, Qos, Rule, RuleName, Slot};
use pcef_table::{Source, Table, TableEntry};
use std::alloc::Global;

/// The address of the session.
pub(crate) const UE: Addr = Addr::V4(0x0a00_0002);

/// A UDP packet of 28 octets from 198.51.100.7 port 53 to 10.0.0.2 port 5000.
pub(crate) const DNS_ANSWER: Header = Header {
    dir: Dir::Down,
    src: Addr::V4(0xc633_6407),
    dst: UE,
    proto: 17,
    ports: Some(Ports { src: 53, dst: 5000 }),
    octets: 28,
    dscp: 0,
};

/// What all packets match.
pub(crate) const ALL: &str = "permit out ip from any to any";
/// What the answers of name servers match.
pub(crate) const DNS: &str = "permit out 17 from any 53 to assigned";

/// What the tests vary of a rule: its name, its precedence, its gate, its bearer and its filter.
pub(crate) type Variant<'a> = (&'a str, u32, Gate, u8, &'a str);

pub(crate) fn passed(rule: &str, bearer: u8) -> Option<Verdict> {
    let rule = RuleName::new(rule).ok()?;
    Some(Verdict::Passed {
        rule,
        bearer: BearerId(bearer),
    })
}

fn properties_of(name: &str, precedence: u32, gate: Gate) -> Option<Properties> {
    let name = RuleName::new(name).ok()?;
    let arp = Arp::new(8, false, true).ok()?;
    Some(Properties {
        name,
        precedence,
        qos: Qos { qci: Qci(9), arp },
        rates: None,
        gate,
        key: None,
    })
}

/// The entry of a rule with these properties and filters, whose key has slot 3.
fn entry_of(
    alloc: Global,
    properties: Properties,
    filters: &[Filter],
    bearer: u8,
) -> Option<TableEntry>
    ensures { IfSome result (λ e. (offers : List Offer) → IsKnown offers e.source) }
{
    let rule = Rule::new(alloc, properties, filters).ok()?;
    Some(TableEntry {
        source: Source::Dynamic(rule),
        bearer: BearerId(bearer),
        slot: Some(Slot(3)),
        counted: false,
    })
}

/// The entry of a rule with one filter.
fn entry_of_variant(alloc: Global, variant: Variant<'_>) -> Option<TableEntry>
    ensures { IfSome result (λ e. (offers : List Offer) → IsKnown offers e.source) }
{
    let (name, precedence, gate, bearer, filter) = variant;
    let filter = [read_filter(filter, None).ok()?];
    let properties = properties_of(name, precedence, gate)?;
    entry_of(alloc, properties, &filter, bearer)
}

/// A table without rules.
#[tactic(auto, using(pcef_table::proofs::Ordered::empty_is_table))]
pub(crate) fn empty_table<C: Offers>(alloc: Global, _catalog: &C) -> Option<Table>
    ensures { IfSome result (λ t. IsTable (C.offers _catalog.now) t.entries) }
{
    Table::empty(alloc, 0).ok()
}

/// The next generation with one more entry.
pub(crate) fn with_entry<C: Offers>(catalog: &C, table: &Table, entry: TableEntry) -> Option<Table>
    requires table { IsTable (C.offers catalog.now) table.now.entries }
    requires known { IsKnown (C.offers catalog.now) entry.source }
    ensures { IfSome result (λ t. IsTable (C.offers catalog.now) t.entries) }
{
    if table.generation() < 100 && table.len() < 64 {
        table.with(catalog, entry).ok()
    } else {
        None
    }
}

/// The next generation with one more rule, of sixteen filters that no packet of the tests matches: with any other rule
/// they are too many to be searched one after the other.
pub(crate) fn padded<C: Offers>(alloc: Global, catalog: &C, table: &Table) -> Option<Table>
    requires { IsTable (C.offers catalog.now) table.now.entries }
    ensures { IfSome result (λ t. IsTable (C.offers catalog.now) t.entries) }
{
    let filter = read_filter("permit out 253 from 192.0.2.1 to assigned", None).ok()?;
    let mut filters = Vec::new(alloc);
    for _ in 0..16u32 {
        filters.push(filter.copy()).ok()?;
    }
    let properties = properties_of("padding", 1000, Gate::Enabled)?;
    let entry = entry_of(alloc, properties, filters.as_slice(), 7)?;
    with_entry(catalog, table, entry)
}

/// The next generation with one more rule.
pub(crate) fn with_variant<C: Offers>(
    alloc: Global,
    catalog: &C,
    table: &Table,
    variant: Variant<'_>,
) -> Option<Table>
    requires { IsTable (C.offers catalog.now) table.now.entries }
    ensures { IfSome result (λ t. IsTable (C.offers catalog.now) t.entries) }
{
    let entry = entry_of_variant(alloc, variant)?;
    with_entry(catalog, table, entry)
}

/// The next generation without a rule.
pub(crate) fn without_rule<C: Offers>(catalog: &C, table: &Table, name: &str) -> Option<Table>
    requires { IsTable (C.offers catalog.now) table.now.entries }
    ensures { IfSome result (λ t. IsTable (C.offers catalog.now) t.entries) }
{
    let name = RuleName::new(name).ok()?;
    if table.generation() < 100 {
        table.without(catalog, &name).ok()
    } else {
        None
    }
}

/// The table of these rules, each of which came after the one before it.
pub(crate) fn table_of<C: Offers>(
    alloc: Global,
    catalog: &C,
    variants: &[Variant<'_>],
) -> Option<Table>
    ensures { IfSome result (λ t. IsTable (C.offers catalog.now) t.entries) }
{
    let mut table = empty_table(alloc, catalog)?;
    for variant in variants {
        table = with_variant(alloc, catalog, &table, *variant)?;
    }
    Some(table)
}

/// The catalog without rules.
pub(crate) fn empty_catalog(alloc: Global) -> Option<Catalog> {
    Catalog::new(alloc, Vec::new(alloc)).ok()
}
