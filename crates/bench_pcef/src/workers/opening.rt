//! A session with its rules, and the packets that its workers judge.

ghost use Rattle.std.specs.Prelude.{◌≡◌, [], IfSome};

use super::{Load, Work};
use pcef_catalog::{Listing, Offers};
use pcef_filter::read_filter;
use pcef_journaled::JournaledState;
use pcef_lock::{Desk, Shared};
use pcef_model::{Command, Level, Profile};
use pcef_packet::{Addr, Dir, Header, Ports};
use pcef_publish::{Board, Cell};
use pcef_rule::{Arp, Gate, KeyName, Properties, Qci, QciTable, Qos, Rule, RuleName, Sums};
use pcef_session::MAX_WAITING;
use pcef_share::Naming;
use std::alloc::Global;
use std::sync::Wait;

/// How many packets there are: those of 32 batches.
const PACKETS: u32 = 1024;

/// The octets of each packet.
const OCTETS: u32 = 100;

/// The remote port of the first rule. The next ones have the next ports.
const FIRST_PORT: u16 = 1000;

fn qos() -> Option<Qos> {
    Some(Qos {
        qci: Qci(9),
        arp: Arp::new(8, false, true).ok()?,
    })
}

/// How many rows the journal has to take: at least one.
fn rows(load: Load) -> Option<u32> {
    let flushes = u32::from(load.workers).checked_mul(load.batches)?;
    Some(flushes.checked_mul(MAX_WAITING as u32)?.max(1))
}

/// A session of 10.0.0.2 that takes all rows of the load and 100 commands, and offers no rules. It
/// stores the rows, or counts them.
pub fn session(alloc: Global, load: Load) -> Option<JournaledState>
    ensures { IfSome result (λ s. (s.session.journal ≡ []) × (s.session.setting.catalog ≡ [])) }
{
    let rows = rows(load)?;
    if rows == 0 {
        return None;
    }
    let profile = Profile {
        ue: Addr::V4(0x0a00_0002),
        default_qos: qos()?,
        capacity: Sums { up: 0, down: 0 },
        qcis: QciTable::new(&[]).ok()?,
        rows,
        commands: 100,
    };
    let listing = Listing::new(alloc, Vec::new(alloc)).ok()?;
    if load.work == Work::CountedFlush {
        return JournaledState::open_without_rows(alloc, profile, listing).ok();
    }
    JournaledState::open(alloc, profile, listing).ok()
}

/// The remote port of a rule.
fn port_of(rule: u8) -> u16 {
    FIRST_PORT + u16::from(rule)
}

/// A rule with the key `vid` for the packets from its port.
fn rule(alloc: Global, number: u8) -> Option<Rule> {
    let name = format!(in alloc; "rule{number}").ok()?;
    let properties = Properties {
        name: RuleName::new(name.as_str()).ok()?,
        precedence: u32::from(number),
        qos: qos()?,
        rates: None,
        gate: Gate::Enabled,
        key: Some(KeyName::new("vid").ok()?),
    };
    let port = port_of(number);
    let text = format!(in alloc; "permit out 17 from any {port} to assigned").ok()?;
    let filter = read_filter(text.as_str(), None).ok()?;
    Rule::new(alloc, properties, &[filter]).ok()
}

/// A packet of the server at 198.51.100.7 to the session.
fn packet(rule: u8) -> Header {
    Header {
        dir: Dir::Down,
        src: Addr::V4(0xc633_6407),
        dst: Addr::V4(0x0a00_0002),
        proto: 17,
        ports: Some(Ports {
            src: port_of(rule),
            dst: 5000,
        }),
        octets: OCTETS,
        dscp: 0,
    }
}

/// Packets of the rules, in no order.
pub fn packets(alloc: Global, load: Load) -> Option<Vec<Header>> {
    let mut packets = Vec::new(alloc);
    for number in 0..PACKETS {
        let spread = number.wrapping_mul(2_654_435_761) >> 16;
        let rule = spread.checked_rem(u32::from(load.rules))?;
        packets.push(packet(rule as u8)).ok()?;
    }
    Some(packets)
}

/// The packets of a batch.
pub fn packets_of(packets: &[Header], batch: u32) -> &[Header] {
    let from = (batch % 32) as usize * MAX_WAITING;
    packets.get(from..from + MAX_WAITING).unwrap_or(&[])
}

/// The desk installs the rules and monitors their key.
pub fn give_commands<C: Offers + Drop, N: Naming, W: Board<Cell<N>> + Drop, R: Wait>(
    rt: &R,
    alloc: Global,
    shared: &Shared<C, N, W>,
    desk: &mut Desk<N>,
    load: Load,
) -> Option<()> {
    let monitor = Command::Monitor {
        key: KeyName::new("vid").ok()?,
        grant: 1 << 60,
        level: Level::Rule,
    };
    desk.command(rt, shared, monitor).ok()?;
    for number in 0..load.rules {
        let install = Command::Install(rule(alloc, number)?);
        desk.command(rt, shared, install).ok()?;
    }
    Some(())
}
