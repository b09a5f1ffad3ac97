//! Two threads share a session. One is at its desk and gives commands; the other is a worker, which judges packets and
//! hands them over.
//!
//! Its libraries: `pcef_built_in`, `pcef_profile`, `pcef_worker`, `pcef_lock`, `pcef_publish`, `pcef_share`,
//! `pcef_journaled`, `pcef_session`, `pcef_model`, `pcef_catalog`, `pcef_rule`, `pcef_packet`.

ghost use Rattle.std.specs.Prelude.{◌≡◌, ◌+◌, [], All, IfSome};
ghost use Rattle.std.specs.Arc.{arc_value};
ghost use Rattle.pcef_lock.specs.Opening.{GoesBy};

use pcef_built_in::ShapedCatalog;
use pcef_catalog::{Detects, Offers};
use pcef_journaled::JournaledState;
use pcef_lock::{Desk, Finished, Opening, Shared, Totals, open_history};
use pcef_model::Command;
use pcef_packet::{Dir, read_header};
use pcef_profile::read_profile;
use pcef_publish::{Board, Cell};
use pcef_rule::RuleName;
use pcef_share::{Blanks, Naming};
use pcef_worker::{OpenGate, Worker};
use std::alloc::Global;
use std::io;
use std::marker::Brand;
use std::sync::{Arc, Wait};
use std::thread::{Threads, join};

/// The session's user equipment, and what the network grants it.
const PROFILE: &str = "ue = '10.0.0.2'\nrows = 1000\ncommands = 1000\n\
    default = { qci = 9, level = 8, capability = false, vulnerability = true }\n\
    capacity = { up = 1000000, down = 2000000 }\n";

/// UDP from port 53 of 198.51.100.7 to 10.0.0.2.
const ANSWER: [u8; 28] = [
    69, 0, 0, 28, 0, 0, 0, 0, 64, 17, 0, 0, 198, 51, 100, 7, 10, 0, 0, 2, 0, 53, 19, 136, 0, 8, 0,
    0,
];

/// A new session over the predefined rules.
fn session(alloc: Global, catalog: &ShapedCatalog) -> Option<JournaledState>
    ensures fresh { IfSome result (λ s. s.session.journal ≡ []) }
    ensures offers { IfSome result (λ s. s.session.setting.catalog ≡ catalog.now) }
{
    let profile = read_profile(alloc, PROFILE).ok()?;
    let listing = catalog.listing().share().ok()?;
    JournaledState::open(alloc, profile, listing).ok()
}

/// At the desk: a predefined rule is activated.
fn at_the_desk<C: Offers + Drop, N: Naming, W: Board<Cell<N>> + Drop, R: Wait>(
    rt: &R,
    shared: &Shared<C, N, W>,
    desk: Desk<N>,
) -> Option<Desk<N>> {
    let mut desk = desk;
    let activate = Command::Activate(RuleName::new("pre-dns").ok()?);
    desk.command(rt, shared, activate).ok()?;
    Some(desk)
}

/// The worker: takes a packet three times, judged by the newest rules that it finds, hands the rows over and leaves.
fn work<C: Detects + Drop, N: Naming, W: Board<Cell<N>> + Drop, R: Wait>(
    rt: &R,
    alloc: Global,
    shared: &Shared<C, N, W>,
) -> Option<Finished<N>> {
    let header = read_header(Dir::Down, &ANSWER).ok()?;
    let mut worker = Worker::attach(rt, alloc, shared, OpenGate).ok()?;
    for _ in 0..3 {
        worker.refresh();
        worker.take(&header).ok()?;
    }
    let (finished, _) = worker.finish(rt, shared).ok()?;
    Some(finished)
}

/// Runs both, each in a thread, and returns the session's totals.
fn totals<
    C: Detects + Drop + Send + Sync,
    N: Naming + Send + Sync,
    W: Board<Cell<N>> + Drop + Send,
    R: Threads + Wait + Sync,
>(rt: &R, alloc: Global, shared: Shared<C, N, W>, desk: Desk<N>) -> Option<Totals>
    // What is proved of it: of each key all that was counted is what was reported and what wasn't.
    ensures { IfSome result (λ t. All (λ k. k.counted ≡ k.reported + k.unreported) t.keys) }
{
    let (desk, finished) = join(
        rt,
        || at_the_desk(rt, &shared, desk),
        || work(rt, alloc, &shared),
    );
    let mut all = Vec::new(alloc);
    all.push(finished?).ok()?;
    shared.gather(rt, desk?, all).ok()
}

/// The session behind its lock, under a name of its own.
fn behind_its_lock<
    C: Detects + Drop + Send + Sync,
    N: Naming + Send + Sync,
    R: Threads + Wait + Sync,
>(rt: &R, alloc: Global, catalog: Arc<C>, opening: Opening) -> Option<Totals>
    requires named { GoesBy N.ledger N.setting N.first N.book N.root
        opening.session.session opening.opened opening.blanks }
    requires fresh { opening.session.session.journal ≡ [] }
    requires offers { C.offers (arc_value catalog) ≡ opening.session.session.setting.catalog }
{
    match Shared::<C, N, _>::open(rt, alloc, catalog, opening) {
        Ok((shared, desk)) => totals(rt, alloc, shared, desk),
        Err(_) => None,
    }
}

/// A session that two threads shared.
fn share_session<R: Threads + Wait + Sync>(rt: &R, alloc: Global) -> Option<Totals> {
    let catalog = ShapedCatalog::built_in(alloc).ok()?;
    let session = session(alloc, &catalog)?;
    let Ok(opened) = open_history(&session) else {
        return None;
    };
    let catalog = Arc::new(alloc, catalog).ok()?;
    let opening = Opening {
        session,
        opened,
        blanks: Blanks::new(),
        places: 1,
    };
    behind_its_lock::<ShapedCatalog, Brand, _>(rt, alloc, catalog, opening)
}

/// Prints how many packets were handed over. The runtime is passed twice: outside `main` a function may start threads
/// and wait only by a bound that says so.
pub fn run<R: Threads + Wait + Sync>(threads: &R, rt: &HostRuntime) -> io::Result<()> {
    match share_session(threads, rt.alloc()) {
        Some(totals) => println!(rt; "{} packets were handed over", totals.rows),
        None => println!(rt; "no memory or no thread"),
    }
}
