//! Measures the time of a packet's verdict: recorded packets are judged by a table of rules, again and again, by the
//! index or by a linear scan.
//!
//! `classify RULES PACKETS PASSES [ADDRESS] [scan]`. RULES has a line for each filter, `NAME PRECEDENCE FLOW TEXT`,
//! where FLOW is a flow word or `-`, and the filters of a rule stand together. PACKETS has a count of four octets, and
//! for each packet its length in two octets, its direction (0 uplink, 1 downlink) and its octets, little endian. PASSES
//! is how often all packets are judged; then the count of each kind of verdict over all passes is written. With PASSES
//! 0 the verdict on each packet is written, one a line. ADDRESS is the session's, of either version, 10.0.0.2 by
//! default. With `scan` no index is asked.
//!
//! `classify RULES build TIMES` builds the index TIMES times, each while the one before is there, and writes the number of
//! rules.

mod packets;
mod rules;

ghost use Rattle.pcef_catalog.specs.Catalogs.{offers_of};
ghost use Rattle.pcef_table.specs.Tables.{IsTable};

use crate::arguments::number;
use packets::{Tally, Way, judge_all, without_count, write_verdicts};
use pcef_catalog::Catalog;
use pcef_index::{Index, Indexed};
use pcef_packet::Addr;
use std::alloc::AllocError;
use std::fs;
use std::io::{self, BufWriter, Write};

/// The session's address where none is given: 10.0.0.2.
const UE: Addr = Addr::V4(0x0A00_0002);

/// How the packets are judged.
#[derive(Clone, Copy)]
struct Work {
    /// How many times each packet is judged, or 0 for the verdict on each.
    passes: u32,
    /// The session's address.
    ue: Addr,
    /// By the index or by a scan.
    way: Way,
}

/// An address in text.
fn address_of(word: &String) -> Option<Addr> {
    Addr::from_text(word.as_bytes())
}

/// Builds the index of the rules of a file as many times as passes are asked for, and writes the number of rules. False
/// where the rules can't be read.
fn build(rt: &HostRuntime, catalog: &Catalog, rules: &str, work: Work) -> io::Result<bool> {
    let text = fs::read_to_string(rt, rules)?;
    let mut writer = io::writer(rt);
    let Ok(table) = rules::table(rt.alloc(), catalog, text.as_str()) else {
        return Ok(false);
    };
    let mut _before = None;
    for _ in 0..work.passes {
        _before = Some(Index::build(rt.alloc(), &table, catalog, work.ue)?);
    }
    writeln!(writer, "rules {}", table.len())?;
    Ok(true)
}

/// Judges the recorded packets `passes` times, and writes the count of each kind of verdict; or, with 0, the verdict on
/// each packet.
fn judge<W: Write>(
    catalog: &Catalog,
    rules: &Indexed,
    recorded: &[u8],
    work: Work,
    writer: &mut W,
) -> io::Result<()>
    requires { IsTable (offers_of catalog.now) rules.now.entries }
{
    let Work { passes, ue, way } = work;
    if passes == 0 {
        return write_verdicts(catalog, rules, way, ue, recorded, writer);
    }
    let mut tally = Tally::default();
    for _ in 0..passes {
        judge_all(catalog, rules, way, ue, recorded, &mut tally);
    }
    writeln!(
        writer,
        "passed {} gated {} unmatched {} stray {} octets {}",
        tally.passed, tally.gated, tally.unmatched, tally.stray, tally.octets
    )
}

/// Judges the packets of a file.
fn judge_file(
    rt: &HostRuntime,
    catalog: &Catalog,
    rules: &Indexed,
    packets: &str,
    work: Work,
) -> io::Result<()>
    requires { IsTable (offers_of catalog.now) rules.now.entries }
{
    let file = fs::read(rt, packets)?;
    let mut writer = BufWriter::new(rt.alloc(), io::writer(rt))?;
    judge(catalog, rules, without_count(&file), work, &mut writer)?;
    writer.flush()
}

/// Judges the packets of one file by the rules of another. False where the rules can't be read.
fn run(
    rt: &HostRuntime,
    catalog: &Catalog,
    rules: &str,
    packets: &str,
    work: Work,
) -> io::Result<bool> {
    let text = fs::read_to_string(rt, rules)?;
    let Ok(table) = rules::table(rt.alloc(), catalog, text.as_str()) else {
        return Ok(false);
    };
    let rules = Indexed::new(rt.alloc(), table, catalog, work.ue)?;
    judge_file(rt, catalog, &rules, packets, work)?;
    Ok(true)
}

/// Does what the words ask for. False where they ask for nothing.
fn do_as_asked(rt: &HostRuntime, catalog: &Catalog, words: &[String]) -> io::Result<bool> {
    let (rules, packets, passes, ue, way) = match words {
        [rules, packets, passes] => (rules, packets, passes, Some(UE), Way::Index),
        [rules, packets, passes, word] if word.as_str() == "scan" => {
            (rules, packets, passes, Some(UE), Way::Scan)
        }
        [rules, packets, passes, ue] => (rules, packets, passes, address_of(ue), Way::Index),
        [rules, packets, passes, ue, word] if word.as_str() == "scan" => {
            (rules, packets, passes, address_of(ue), Way::Scan)
        }
        _ => return Ok(false),
    };
    let Some(ue) = ue else {
        return Ok(false);
    };
    let Some(passes) = number(passes) else {
        return Ok(false);
    };
    let work = Work { passes, ue, way };
    if packets.as_str() == "build" {
        return build(rt, catalog, rules.as_str(), work);
    }
    run(rt, catalog, rules.as_str(), packets.as_str(), work)
}

/// Judges packets or builds the index, as the words ask. False where they ask for nothing.
pub fn measure(rt: &HostRuntime, words: &[String]) -> io::Result<bool> {
    let Ok(catalog) = Catalog::new(rt.alloc(), Vec::new(rt.alloc())) else {
        return Err(AllocError.into());
    };
    do_as_asked(rt, &catalog, words)
}
