//! Sessions that run in threads.

ghost use Rattle.std.specs.Prelude.{◌≡◌, ◌↔◌, ◌⊎◌, ◌<◌, ◌≤◌, All, IfOk, [], false, length, true, vec_len};
ghost use Rattle.std.specs.Arc.{arc_value};
ghost use Rattle.pcef_model.specs.Entries.{Journal};
ghost use Rattle.pcef_model.specs.Journals.{attach_count};
ghost use Rattle.pcef_model.specs.Lawful.{Lawful};
ghost use Rattle.pcef_lock.specs.Opening.{GoesBy};
ghost use Rattle.pcef_lock.specs.Gathering.{AddUpTo};
ghost use Rattle.pcef_gateway.specs.Ending.{FailsBy, RunsTo};
ghost use Rattle.pcef_gateway.specs.InOrder.{commands_of, reports_of};
ghost use Rattle.pcef_gateway.specs.declared.fault.RunFault.TheVariants.{StrangeWorker, Workers};

use crate::arrivals::{Workload, are_known};
use crate::context::{RunContext, RunHandIns};
use crate::ended::{Ended, all_reports};
use crate::fault::{Failure, RunFault};
use crate::intake::HandIns;
use pcef_catalog::{Detects, Offers};
use pcef_journal::MAX_WORKERS;
use pcef_journaled::JournaledState;
use pcef_lock::{Desk, Finished, Opening, Shared, Totals, open_history};
use pcef_publish::{Board, Cell};
use pcef_share::{Blanks, Naming};
use pcef_worker::Gate;
use std::alloc::Global;
use std::marker::Brand;
use std::sync::{Arc, Wait};
use std::thread::Threads;

/// Runs a session with its workers, each in a thread of its own, until all packets were sent to their workers and all
/// commands were given. Each worker is attached before the first packet and the first command, and borrows the
/// gate. The commands are given in order, spread evenly among the packets. A worker hands its rows over where 32 wait
/// or its ring is empty, and then takes the newest table. A worker whose rows are refused leaves; the packets that
/// arrive for it after that are dropped.
///
/// The caller ensures that the catalog is the session's, and that no worker was ever attached to it. The first two
/// [`RunFault`]s are returned before anything is done. A fault discards the session. Out of memory ends the run with
/// [`RunFault::NoMemory`], also where a command or a worker meets it; it is [`RunFault::Shared`] where the publication
/// gives no reader, [`RunFault::Ring`] where there is none for a ring, and [`RunFault::Thread`] where the system gives
/// no thread. Takes memory for rings, answers and reports. Waits for the lock, for places in the rings, and for the
/// workers' threads.
pub fn run_session<C: Detects + Drop + Send + Sync, G: Gate + Sync, R: Threads + Wait + Sync>(
    rt: &R,
    alloc: Global,
    catalog: Arc<C>,
    session: JournaledState,
    load: Workload,
    gate: &G,
) -> Result<Ended, RunFault>
    requires fresh { attach_count session.session.journal ≡ 0 }
    requires offers { C.offers (arc_value catalog) ≡ session.session.setting.catalog }
    ensures ran { IfOk result (RunsTo session.session.setting session.session.journal
        load.arrivals.items load.commands.items load.workers) }
    ensures workers { FailsBy Workers result ↔ ((load.workers ≡ 0) ⊎ (16 < load.workers)) }
    ensures strange { FailsBy StrangeWorker result
        ↔ ((0 < load.workers) × (load.workers ≤ 16)
        × (All (λ a. a.worker < load.workers) load.arrivals.items → ⊥)) }
{
    if load.workers == 0 || usize::from(load.workers) > MAX_WORKERS {
        return Err(RunFault::Workers);
    }
    if !are_known(&load.arrivals, load.workers) {
        return Err(RunFault::StrangeWorker);
    }
    match run_known(rt, alloc, catalog, session, load, gate) {
        Ok(ended) => Ok(ended),
        Err(failure) => Err(failure.fault()),
    }
}

/// Runs a session, where each packet is for one of its workers.
fn run_known<C: Detects + Drop + Send + Sync, G: Gate + Sync, R: Threads + Wait + Sync>(
    rt: &R,
    alloc: Global,
    catalog: Arc<C>,
    session: JournaledState,
    load: Workload,
    gate: &G,
) -> Result<Ended, Failure>
    requires few { load.workers ≤ 16 }
    requires known { All (λ a. a.worker < load.workers) load.arrivals.items }
    requires fresh { attach_count session.session.journal ≡ 0 }
    requires offers { C.offers (arc_value catalog) ≡ session.session.setting.catalog }
    ensures { IfOk result (RunsTo session.session.setting session.session.journal
        load.arrivals.items load.commands.items load.workers) }
{
    let Ok(opened) = open_history(&session) else {
        return Err(Failure::NoMemory);
    };
    let opening = Opening {
        session,
        opened,
        blanks: Blanks::new(),
        places: load.workers,
    };
    run_named::<C, Brand, G, R>(rt, alloc, catalog, opening, load, gate)
}

/// Runs a session that has a name.
fn run_named<
    C: Detects + Drop + Send + Sync,
    N: Naming + Send + Sync,
    G: Gate + Sync,
    R: Threads + Wait + Sync,
>(
    rt: &R,
    alloc: Global,
    catalog: Arc<C>,
    opening: Opening,
    load: Workload,
    gate: &G,
) -> Result<Ended, Failure>
    requires few { load.workers ≤ 16 }
    requires known { All (λ a. a.worker < load.workers) load.arrivals.items }
    requires named { GoesBy N.ledger N.setting N.first N.book N.root
        opening.session.session opening.opened opening.blanks }
    requires fresh { attach_count opening.session.session.journal ≡ 0 }
    requires offers { C.offers (arc_value catalog) ≡ opening.session.session.setting.catalog }
    ensures { IfOk result (RunsTo opening.session.session.setting opening.session.session.journal
        load.arrivals.items load.commands.items load.workers) }
{
    match Shared::<C, N, _>::open(rt, alloc, catalog, opening) {
        Ok((shared, desk)) => run_shared(rt, alloc, shared, desk, load, gate),
        Err(unopened) => Err(unopened.fault.into()),
    }
}

/// Runs a session behind its lock. Its desk has the commands of its journal so far.
fn run_shared<
    C: Detects + Drop + Send + Sync,
    N: Naming + Send + Sync,
    W: Board<Cell<N>> + Drop + Send,
    G: Gate + Sync,
    R: Threads + Wait + Sync,
>(
    rt: &R,
    alloc: Global,
    shared: Shared<C, N, W>,
    desk: Desk<N>,
    load: Workload,
    gate: &G,
) -> Result<Ended, Failure>
    requires few { load.workers ≤ 16 }
    requires known { All (λ a. a.worker < load.workers) load.arrivals.items }
    ensures { (before : Journal) → desk.commands ≡ commands_of before → IfOk result
        (RunsTo N.setting before load.arrivals.items load.commands.items load.workers) }
{
    let context = RunContext {
        rt,
        alloc,
        shared: &shared,
        gate,
    };
    match context.work(desk, load) {
        Ok(worked) => end(rt, alloc, shared, worked),
        Err(failure) => Err(failure),
    }
}

/// Gathers what was handed in, which must also be compared with the journal: session and workers of a run store their
/// rows.
fn gather_all<C: Offers + Drop, N: Naming, W: Board<Cell<N>> + Drop, R: Wait>(
    rt: &R,
    shared: Shared<C, N, W>,
    desk: Desk<N>,
    finished: Vec<Finished<N>>,
) -> Result<Totals, Failure>
    requires { length finished.items ≤ 16 }
    ensures add_up { IfOk result (AddUpTo N.setting false desk.commands finished.items) }
    ensures compared { IfOk result (λ t. t.compared ≡ true) }
{
    match shared.gather(rt, desk, finished) {
        Ok(totals) => {
            if totals.compared {
                Ok(totals)
            } else {
                Err(Failure::Gather)
            }
        }
        Err(_) => Err(Failure::Gather),
    }
}

/// Gathers what was handed in, and adds the reports.
fn end<C: Offers + Drop, N: Naming, W: Board<Cell<N>> + Drop, R: Wait>(
    rt: &R,
    alloc: Global,
    shared: Shared<C, N, W>,
    worked: RunHandIns<N>,
) -> Result<Ended, Failure>
    requires { length worked.handed.finished.items ≤ 16 }
    ensures add_up { IfOk result (λ e.
        AddUpTo N.setting false worked.desk.commands worked.handed.finished.items e.totals) }
    ensures compared { IfOk result (λ e. e.totals.compared ≡ true) }
    ensures rest { IfOk result (λ e. (e.dropped ≡ worked.handed.dropped)
        × (e.answers.items ≡ worked.answers.items)) }
    ensures reports { IfOk result (λ e. e.reports.items ≡ reports_of e.totals.session.journal) }
    ensures lawful { IfOk result (λ e. Lawful e.totals.session.setting e.totals.session.journal) }
{
    let RunHandIns {
        desk,
        answers,
        handed,
    } = worked;
    let HandIns { finished, dropped } = handed;
    let totals = gather_all(rt, shared, desk, finished)?;
    let Ok(reports) = all_reports(alloc, &totals.session) else {
        return Err(Failure::NoMemory);
    };
    Ok(Ended {
        totals,
        dropped,
        answers,
        reports,
    })
}
