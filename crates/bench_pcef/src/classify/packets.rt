//! Recorded packets.

ghost use Rattle.pcef_catalog.specs.Catalogs.{offers_of};
ghost use Rattle.pcef_table.specs.Tables.{IsTable};

use pcef_catalog::Catalog;
use pcef_index::Indexed;
use pcef_model::Verdict;
use pcef_packet::{Addr, Dir, Header, read_header};
use std::io::{self, Write};

/// How packets are judged.
#[derive(Clone, Copy)]
pub enum Way {
    /// By the index.
    Index,
    /// By a linear scan of the table.
    Scan,
}

/// The count of each kind of verdict, and the octets that were judged.
#[derive(Clone, Copy, Debug, Default)]
pub struct Tally {
    /// Packets that a rule let pass.
    pub passed: u64,
    /// Packets whose rule's gate was closed.
    pub gated: u64,
    /// Packets that no rule fits.
    pub unmatched: u64,
    /// Packets of another user equipment.
    pub stray: u64,
    /// The octets of all packets that could be read.
    pub octets: u64,
}

impl Tally {
    fn count(&mut self, verdict: &Verdict, octets: u32) {
        self.octets = self.octets.wrapping_add(u64::from(octets));
        match verdict {
            Verdict::Passed { .. } => self.passed = self.passed.wrapping_add(1),
            Verdict::Gated { .. } => self.gated = self.gated.wrapping_add(1),
            Verdict::Unmatched => self.unmatched = self.unmatched.wrapping_add(1),
            Verdict::Stray => self.stray = self.stray.wrapping_add(1),
        }
    }
}

/// What follows the count of packets.
pub(crate) fn without_count(file: &[u8]) -> &[u8] {
    if file.len() < 4 { &[] } else { &file[4..] }
}

/// A recorded packet, and what follows it.
#[derive(Clone, Copy)]
struct Recorded<'a> {
    dir: Dir,
    octets: &'a [u8],
    rest: &'a [u8],
}

/// The packet in front.
fn next(recorded: &[u8]) -> Option<Recorded<'_>> {
    if recorded.len() < 3 {
        return None;
    }
    let len = usize::from(recorded[0]) + 256 * usize::from(recorded[1]);
    let dir = if recorded[2] == 0 { Dir::Up } else { Dir::Down };
    if recorded.len() - 3 < len {
        return None;
    }
    Some(Recorded {
        dir,
        octets: &recorded[3..3 + len],
        rest: &recorded[3 + len..],
    })
}

/// The verdict on a packet.
fn judge(catalog: &Catalog, rules: &Indexed, way: Way, ue: Addr, header: &Header) -> Verdict
    requires { IsTable (offers_of catalog.now) rules.now.entries }
{
    match way {
        Way::Index => rules.classify(catalog, ue, header),
        Way::Scan => rules.table().classify(catalog, ue, header),
    }
}

/// Judges each packet once.
pub(crate) fn judge_all(
    catalog: &Catalog,
    rules: &Indexed,
    way: Way,
    ue: Addr,
    recorded: &[u8],
    tally: &mut Tally,
)
    requires { IsTable (offers_of catalog.now) rules.now.entries }
{
    let mut left = recorded;
    for _ in 0..u64::MAX {
        let Some(packet) = next(left) else {
            break;
        };
        if let Ok(header) = read_header(packet.dir, packet.octets) {
            tally.count(&judge(catalog, rules, way, ue, &header), header.octets);
        }
        left = packet.rest;
    }
}

fn write_verdict<W: Write>(verdict: &Verdict, writer: &mut W) -> io::Result<()> {
    match verdict {
        Verdict::Passed { rule, .. } | Verdict::Gated { rule } => writeln!(
            writer,
            "{}",
            rule.as_str()
        ),
        Verdict::Unmatched => writeln!(writer, "unmatched"),
        Verdict::Stray => writeln!(writer, "stray"),
    }
}

/// Writes the verdict on each packet that can be read, one a line.
pub(crate) fn write_verdicts<W: Write>(
    catalog: &Catalog,
    rules: &Indexed,
    way: Way,
    ue: Addr,
    recorded: &[u8],
    writer: &mut W,
) -> io::Result<()>
    requires { IsTable (offers_of catalog.now) rules.now.entries }
{
    let mut left = recorded;
    for _ in 0..u64::MAX {
        let Some(packet) = next(left) else {
            break;
        };
        if let Ok(header) = read_header(packet.dir, packet.octets) {
            write_verdict(&judge(catalog, rules, way, ue, &header), writer)?;
        }
        left = packet.rest;
    }
    Ok(())
}
