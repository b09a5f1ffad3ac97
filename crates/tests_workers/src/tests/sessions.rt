//! What tests of a session behind its lock share: a session without rules, the rule `web` with its key, and packets.

ghost use Rattle.std.specs.Prelude.{◌≡◌, [], IfOk};
ghost use Rattle.pcef_model.specs.Journals.{attach_count};

use pcef_catalog::Listing;
use pcef_filter::read_filter;
use pcef_journaled::JournaledState;
use pcef_model::{Command, Level, Profile};
use pcef_packet::{Addr, Dir, Header, Ports};
use pcef_rule::{Arp, Gate, KeyName, Properties, Qci, QciTable, Qos, Rule, RuleName, Sums};
use std::alloc::Global;
use std::test::Fail;

/// QCI 9 with an ARP of level 8, which may not pre-empt and may be pre-empted.
pub fn qos() -> Result<Qos, Fail> {
    Ok(Qos {
        qci: Qci(9),
        arp: Arp::new(8, false, true)?,
    })
}

/// The key `vid`.
pub fn vid() -> Result<KeyName, Fail> {
    Ok(KeyName::new("vid")?)
}

/// A session of 10.0.0.2 that takes `rows` rows and 1000 commands, and offers no rules.
pub fn session(alloc: Global, rows: u32) -> Result<JournaledState, Fail>
    ensures journal { IfOk result (λ s. s.session.journal ≡ []) }
    ensures fresh { IfOk result (λ s. attach_count s.session.journal ≡ 0) }
    ensures catalog { IfOk result (λ s. s.session.setting.catalog ≡ []) }
{
    if rows == 0 {
        return Err("a session takes rows")?;
    }
    let profile = Profile {
        ue: Addr::V4(0x0a00_0002),
        default_qos: qos()?,
        capacity: Sums {
            up: 1_000_000,
            down: 2_000_000,
        },
        qcis: QciTable::new(&[])?,
        rows,
        commands: 1000,
    };
    let listing = Listing::new(alloc, Vec::new(alloc))?;
    Ok(JournaledState::open(alloc, profile, listing)?)
}

/// The rule `web` with the key `vid`: what comes from port 53.
pub fn web(alloc: Global) -> Result<Rule, Fail> {
    let properties = Properties {
        name: RuleName::new("web")?,
        precedence: 100,
        qos: qos()?,
        rates: None,
        gate: Gate::Enabled,
        key: Some(vid()?),
    };
    let filter = read_filter("permit out 17 from any 53 to assigned", None)?;
    Ok(Rule::new(alloc, properties, &[filter])?)
}

/// Monitors the key with this grant.
pub fn monitor(grant: u64) -> Result<Command, Fail> {
    Ok(Command::Monitor {
        key: vid()?,
        grant,
        level: Level::Rule,
    })
}

/// A packet of `octets` octets from a port of the server at 198.51.100.7 to port 5000 of the session.
pub fn packet_from(port: u16, octets: u32) -> Header {
    Header {
        dir: Dir::Down,
        src: Addr::V4(0xc633_6407),
        dst: Addr::V4(0x0a00_0002),
        proto: 17,
        ports: Some(Ports {
            src: port,
            dst: 5000,
        }),
        octets,
        dscp: 0,
    }
}

/// A packet of `octets` octets that the rule lets pass.
pub fn packet(octets: u32) -> Header {
    packet_from(53, octets)
}
