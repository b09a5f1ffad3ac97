//! Sessions that run over threads, whose rows, octets, answers and reports were counted by hand.
ghost use Rattle.std.specs.Prelude.{◌≡◌, [], IfOk};
ghost use Rattle.pcef_model.specs.Journals.{attach_count};

mod answers;
mod flushes;
mod open_rings;
mod workers;

use crate::tests::sessions::{monitor, packet, session, vid, web};
use pcef_catalog::Catalog;
use pcef_gateway::{Arrival, Ended, RunFault, Workload, run_session};
use pcef_journaled::JournaledState;
use pcef_model::Command;
use pcef_packet::PackedHeader;
use pcef_worker::Gate;
use std::alloc::Global;
use std::sync::{Arc, Wait};
use std::test::Fail;
use std::thread::Threads;

/// The outcome of a run in numbers: packets, the commands of the journal, how many keys have a slot, and the octets of
/// the one key.
#[derive(Clone, Copy, Debug, Default, PartialEq, Eq)]
struct Figures {
    rows: u64,
    abandoned: u64,
    dropped: u64,
    commands: u64,
    keys: u64,
    counted: u64,
    reported: u64,
    unreported: u64,
}

/// The session after a command that it accepts. It attaches no worker.
fn accepted(session: JournaledState, command: Command) -> Result<JournaledState, Fail>
    requires { (attach_count session.session.journal ≡ 0) × (session.session.setting.catalog ≡ []) }
    ensures { IfOk result (λ s. (attach_count s.session.journal ≡ 0) × (s.session.setting.catalog ≡ [])) }
{
    let mut session = session;
    session.command(command)?;
    Ok(session)
}

/// A session of 1000 rows that has installed the rule and monitors its key with a grant of 1000 octets.
fn monitored(alloc: Global) -> Result<JournaledState, Fail>
    ensures { IfOk result (λ s. (attach_count s.session.journal ≡ 0) × (s.session.setting.catalog ≡ [])) }
{
    let installed = accepted(session(alloc, 1000)?, Command::Install(web(alloc)?))?;
    accepted(installed, monitor(1000)?)
}

/// `each` packets for each of `workers` workers, in turn.
fn packets(alloc: Global, each: u32, workers: u8) -> Result<Vec<Arrival>, Fail> {
    let mut arrivals = Vec::new(alloc);
    for _ in 0..each {
        for worker in 0..workers {
            let header = PackedHeader::new(&packet(28));
            arrivals.push(Arrival { header, worker })?;
        }
    }
    Ok(arrivals)
}

/// Packets for so many workers, and no command.
fn without_commands(alloc: Global, arrivals: Vec<Arrival>, workers: u8) -> Workload {
    Workload {
        arrivals,
        commands: Vec::new(alloc),
        workers,
    }
}

/// Runs a session with an empty catalog.
fn run<G: Gate + Sync, R: Threads + Wait + Sync>(
    rt: &R,
    alloc: Global,
    session: JournaledState,
    load: Workload,
    gate: &G,
) -> Result<Result<Ended, RunFault>, Fail>
    requires { (attach_count session.session.journal ≡ 0) × (session.session.setting.catalog ≡ []) }
{
    let catalog = Arc::new(alloc, Catalog::new(alloc, Vec::new(alloc))?)?;
    Ok(run_session(rt, alloc, catalog, session, load, gate))
}

/// The outcome of a run, where it has the key `vid` or none.
fn outcome(ended: &Ended) -> Option<Figures> {
    let totals = &ended.totals;
    let keys = totals.keys.as_slice();
    let mut outcome = Figures {
        rows: totals.rows,
        abandoned: totals.abandoned,
        dropped: ended.dropped,
        commands: totals.session.journal().commands_len(),
        keys: keys.len() as u64,
        ..Figures::default()
    };
    if let Some(key) = keys.first() {
        if key.key.as_str() != "vid" {
            return None;
        }
        outcome.counted = key.counted;
        outcome.reported = key.reported;
        outcome.unreported = key.unreported;
    }
    Some(outcome)
}

/// The same of a run that nothing else is asked of.
fn figures_of(ended: Ended) -> Option<Figures> {
    outcome(&ended)
}
