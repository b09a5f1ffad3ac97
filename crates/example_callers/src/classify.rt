//! Makes a table of one rule, with its index, and prints its verdicts on packets.
//!
//! Its libraries: `pcef_index`, `pcef_table`, `pcef_model`, `pcef_catalog`, `pcef_rule`, `pcef_filter`, `pcef_packet`.

ghost use Rattle.std.specs.Prelude.{◌≡◌, Err, IfSome, MatchResult, Ok};
ghost use Rattle.pcef_catalog.specs.Catalogs.{offers_of};
ghost use Rattle.pcef_packet.specs.HeaderOf.{header_of};
ghost use Rattle.pcef_packet.specs.declared.header.Dir.TheVariants.{Down};
ghost use Rattle.pcef_packet.specs.declared.header.Header.{Header};
ghost use Rattle.pcef_table.specs.Tables.{IsTable};
ghost use Rattle.pcef_table.specs.Verdicts.{IsVerdict};

use pcef_catalog::Catalog;
use pcef_filter::read_filter;
use pcef_index::Indexed;
use pcef_model::Verdict;
use pcef_packet::{Addr, Dir, PacketFault, read_header};
use pcef_rule::{Arp, BearerId, Gate, Properties, Qci, Qos, Rule, RuleName};
use pcef_table::{Source, Table, TableEntry};
use std::alloc::Global;
use std::io;

/// The address of the session's user equipment, 10.0.0.2.
const UE: Addr = Addr::V4(0x0a00_0002);

/// UDP from port 53 of 198.51.100.7 to 10.0.0.2.
const ANSWER: [u8; 28] = [
    69, 0, 0, 28, 0, 0, 0, 0, 64, 17, 0, 0, 198, 51, 100, 7, 10, 0, 0, 2, 0, 53, 19, 136, 0, 8, 0,
    0,
];

/// TCP from port 80 of 198.51.100.7 to 10.0.0.2.
const PAGE: [u8; 24] = [
    69, 0, 0, 24, 0, 0, 0, 0, 64, 6, 0, 0, 198, 51, 100, 7, 10, 0, 0, 2, 0, 80, 19, 136,
];

/// A rule that lets the answers of name servers pass.
fn dns_rule(alloc: Global) -> Option<Rule> {
    let properties = Properties {
        name: RuleName::new("dns").ok()?,
        precedence: 10,
        qos: Qos {
            qci: Qci(9),
            arp: Arp::new(8, false, true).ok()?,
        },
        rates: None,
        gate: Gate::Enabled,
        key: None,
    };
    // As Diameter writes a filter (RFC 6733, clause 4.3.1): `out` is towards the user equipment.
    let filter = read_filter("permit out 17 from any 53 to any", None).ok()?;
    Rule::new(alloc, properties, &[filter]).ok()
}

/// The table with this rule alone, and its index.
fn dns_table(alloc: Global, catalog: &Catalog) -> Option<Indexed>
    // Whoever asks a table for a verdict shows that it is one: its rules in order, and each of them known.
    ensures { IfSome result (λ t. IsTable (offers_of catalog.now) t.entries) }
{
    let entry = TableEntry {
        source: Source::Dynamic(dns_rule(alloc)?),
        bearer: BearerId(5),
        // No monitoring key counts what passes.
        slot: None,
        counted: false,
    };
    let table = Table::empty(alloc, 0).ok()?.with(catalog, entry).ok()?;
    Indexed::new(alloc, table, catalog, UE).ok()
}

/// What the table decides of a packet to the user equipment of this address, or why the octets are no packet.
fn verdict(
    catalog: &Catalog,
    table: &Indexed,
    ue: Addr,
    octets: &[u8],
) -> Result<Verdict, PacketFault>
    requires { IsTable (offers_of catalog.now) table.now.entries }
    // What is proved of it: the header is that of the octets, and the verdict that of the first rule that fits.
    ensures { MatchResult result
        (λ v. (header : Header) × (header_of Down octets.now ≡ Ok header)
        × IsVerdict (offers_of catalog.now) table.now.entries ue header v)
        (λ fault. header_of Down octets.now ≡ Err fault) }
{
    let header = read_header(Dir::Down, octets)?;
    Ok(table.classify(catalog, ue, &header))
}

/// Prints the table's verdicts on three packets, of which one is cut.
pub fn run(rt: &HostRuntime) -> io::Result<()> {
    // No predefined rules: all rules come from the PCRF.
    let Ok(catalog) = Catalog::new(rt.alloc(), Vec::new(rt.alloc())) else {
        return println!(rt; "no memory for a catalog");
    };
    let Some(table) = dns_table(rt.alloc(), &catalog) else {
        return println!(rt; "no memory for a table");
    };
    for octets in [&ANSWER[..], &PAGE[..], &ANSWER[..20]] {
        match verdict(&catalog, &table, UE, octets) {
            Ok(Verdict::Passed { rule, bearer }) => {
                println!(rt; "{} passes, on bearer {}", rule.as_str(), bearer.0)?;
            }
            Ok(Verdict::Gated { rule }) => println!(rt; "the gate of {} is closed", rule.as_str())?,
            Ok(Verdict::Unmatched) => println!(rt; "no rule fits")?,
            Ok(Verdict::Stray) => println!(rt; "not a packet of this session")?,
            Err(fault) => println!(rt; "no packet: {fault}")?,
        }
    }
    Ok(())
}
