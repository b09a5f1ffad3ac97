//! A worker in a thread of its own, which is held up where each of its flushes begins and where it was answered, and a
//! desk that acts meanwhile.

ghost use Rattle.std.specs.Prelude.{◌≡◌, []};
ghost use Rattle.std.specs.Arc.{arc_value};
ghost use Rattle.pcef_lock.specs.Opening.{GoesBy};

use crate::tests::expect_equal;
use crate::tests::sessions::{monitor, packet, session, web};
use pcef_catalog::{Catalog, Detects, Offers};
use pcef_lock::{Desk, Finished, Opening, Shared, Totals, open_history};
use pcef_model::{Accepted, Body, Command, Judged, Refusal, Report, Verdict, Verdicts};
use pcef_publish::{Board, Cell};
use pcef_rule::KeyName;
use pcef_share::{Blanks, Naming};
use pcef_worker::{Gate, OpenGate, Point, Worker};
use std::alloc::Global;
use std::marker::Brand;
use std::sync::atomic::{AtomicU64, Ordering};
use std::sync::{Arc, Wait};
use std::test::Fail;
use std::thread::{Threads, join, yield_now};

/// How many points the worker reached, and at how many of these it may go on.
#[derive(Drop)]
struct Halts {
    reached: AtomicU64,
    released: AtomicU64,
}

impl Halts {
    /// Whether the worker reached its point of this number, from 1 on.
    fn comes_to(&self, point: u64) -> bool {
        grows_to(&self.reached, point)
    }

    /// The worker may go on from one point more.
    fn release(&self) {
        self.released.fetch_add(1, Ordering::SeqCst);
    }
}

/// Waits for a count to be that large, and gives up at some time.
fn grows_to(count: &AtomicU64, least: u64) -> bool {
    for _ in 0..10_000_000u32 {
        if count.load(Ordering::SeqCst) >= least {
            return true;
        }
        yield_now();
    }
    false
}

/// Holds a worker up at each point, until the desk lets it go on.
#[derive(Clone, Copy)]
struct Halting<'a> {
    halts: &'a Halts,
}

impl Gate for Halting<'_> {
    fn at(&self, _point: Point) {
        let before = self.halts.reached.fetch_add(1, Ordering::SeqCst);
        grows_to(&self.halts.released, before.saturating_add(1));
    }
}

/// What the desk finds at the four points of a worker that flushes a row and then finishes with two: the octets that it
/// is reported where the flush begins and where it was answered, and how many workers are attached where the last flush
/// begins and where it was answered.
type Found = [Option<u64>; 4];

/// The octets that are reported for the key.
fn reported<C: Offers + Drop, N: Naming, W: Board<Cell<N>> + Drop, R: Wait>(
    rt: &R,
    shared: &Shared<C, N, W>,
    desk: &mut Desk<N>,
) -> Option<u64> {
    let report = Command::ReportNow(KeyName::known("vid"));
    desk.command(rt, shared, report).ok()?;
    let reports = desk.collect(rt, shared).ok()?;
    octets_of(reports.last()?)
}

fn octets_of(report: &Report) -> Option<u64> {
    match &report.body {
        Body::Usage { octets, .. } => Some(*octets),
        _ => None,
    }
}

/// How many workers a Terminate finds attached, 0 where it is accepted.
fn attached(answer: Result<Accepted, Refusal>) -> Option<u64> {
    match answer {
        Ok(_) => Some(0),
        Err(Refusal::WorkersAttached(workers)) => Some(u64::from(workers)),
        Err(_) => None,
    }
}

/// What the desk finds where the worker reached the point of this number. Then the worker goes on.
fn found_at<C: Offers + Drop, N: Naming, W: Board<Cell<N>> + Drop, R: Wait>(
    rt: &R,
    shared: &Shared<C, N, W>,
    desk: &mut Desk<N>,
    halts: &Halts,
    point: u64,
) -> Option<u64> {
    let found = if !halts.comes_to(point) {
        None
    } else if point <= 2 {
        reported(rt, shared, desk)
    } else {
        attached(desk.command(rt, shared, Command::Terminate))
    };
    halts.release();
    found
}

/// What the desk finds at each point.
fn found<C: Offers + Drop, N: Naming, W: Board<Cell<N>> + Drop, R: Wait>(
    rt: &R,
    shared: &Shared<C, N, W>,
    desk: &mut Desk<N>,
    halting: Halting<'_>,
) -> Found {
    let mut found = [None; 4];
    for point in 0..4usize {
        found[point] = found_at(rt, shared, desk, halting.halts, point as u64 + 1);
    }
    found
}

/// What a worker leaves: what it hands in, and its last verdicts.
type Left<N> = (Finished<N>, Verdicts);

/// A worker attaches, flushes a row of 28 octets, and finishes with rows of 600 and of 40.
fn works<C: Detects + Drop, N: Naming, W: Board<Cell<N>> + Drop, R: Wait>(
    rt: &R,
    alloc: Global,
    shared: &Shared<C, N, W>,
    halting: Halting<'_>,
) -> Option<Left<N>> {
    match Worker::attach(rt, alloc, shared, halting) {
        Ok(mut worker) => {
            flush_and_take(rt, shared, &mut worker);
            worker.finish(rt, shared).ok()
        }
        Err(_) => None,
    }
}

fn flush_and_take<C: Detects + Drop, N: Naming, W: Board<Cell<N>> + Drop, R: Wait>(
    rt: &R,
    shared: &Shared<C, N, W>,
    worker: &mut Worker<C, N, Halting<'_>>,
) {
    let _ = worker.take(&packet(28)).ok();
    let _ = worker.flush(rt, shared).ok();
    let _ = worker.take(&packet(600)).ok();
    let _ = worker.take(&packet(40)).ok();
}

/// How many verdicts there are by generation 2 that the rule lets pass.
fn passed(verdicts: &Verdicts) -> usize {
    verdicts.rows.iter().filter(|row| is_passed(row)).count()
}

fn is_passed(row: &Judged) -> bool {
    match &row.verdict {
        Verdict::Passed { rule, .. } => row.generation == 2 && rule.as_str() == "web",
        _ => false,
    }
}

/// What the desk finds, the generation that a worker met, how many rows the last flush lets pass, and what is gathered.
#[derive(Clone, Copy, Debug, PartialEq, Eq)]
struct Outcome {
    found: Found,
    met: Option<u32>,
    passed: usize,
    rows: u64,
    octets: [u64; 3],
}

/// The rows of a session and the octets that were counted for its key, reported and not.
fn gathered(totals: &Totals) -> (u64, [u64; 3]) {
    match totals.keys.as_slice().first() {
        Some(key) => (totals.rows, [key.counted, key.reported, key.unreported]),
        None => (totals.rows, [0; 3]),
    }
}

/// The desk and the worker at once, each in a thread of its own.
fn both<
    C: Detects + Drop + Send + Sync,
    N: Naming + Send + Sync,
    W: Board<Cell<N>> + Drop + Send,
    R: Threads + Wait + Sync,
>(rt: &R, alloc: Global, shared: &Shared<C, N, W>, desk: &mut Desk<N>) -> (Found, Option<Left<N>>) {
    let halts = Halts {
        reached: AtomicU64::new(0),
        released: AtomicU64::new(0),
    };
    let halting = Halting { halts: &halts };
    join(
        rt,
        || found(rt, shared, desk, halting),
        || works(rt, alloc, shared, halting),
    )
}

/// A worker attaches, the desk gives commands, and the worker meets the session and leaves: what it hands in, and the
/// generation that it met.
fn meets<C: Detects + Drop, N: Naming, W: Board<Cell<N>> + Drop, R: Wait>(
    rt: &R,
    alloc: Global,
    shared: &Shared<C, N, W>,
    desk: &mut Desk<N>,
    commands: [Command; 2],
) -> Option<(Finished<N>, Option<u32>)> {
    match Worker::attach(rt, alloc, shared, OpenGate) {
        Ok(mut worker) => {
            for command in commands {
                let _ = desk.command(rt, shared, command).ok();
            }
            let met = worker.meet(rt, shared).ok();
            Some((worker.abandon(rt, shared), met))
        }
        Err(_) => None,
    }
}

fn to_the_end<
    C: Detects + Drop + Send + Sync,
    N: Naming + Send + Sync,
    W: Board<Cell<N>> + Drop + Send,
    R: Threads + Wait + Sync,
>(
    rt: &R,
    alloc: Global,
    shared: Shared<C, N, W>,
    desk: Desk<N>,
    commands: [Command; 2],
) -> Option<Outcome> {
    let mut desk = desk;
    let (early, met) = meets(rt, alloc, &shared, &mut desk, commands)?;
    let (found, worked) = both(rt, alloc, &shared, &mut desk);
    let (finished, verdicts) = worked?;
    let passed = passed(&verdicts);
    let mut handed = Vec::new(alloc);
    handed.push(early).ok()?;
    handed.push(finished).ok()?;
    let totals = shared.gather(rt, desk, handed).ok()?;
    let (rows, octets) = gathered(&totals);
    Some(Outcome {
        found,
        met,
        passed,
        rows,
        octets,
    })
}

/// The session comes behind its lock by this name.
fn behind_its_lock<
    C: Detects + Drop + Send + Sync,
    N: Naming + Send + Sync,
    R: Threads + Wait + Sync,
>(
    rt: &R,
    alloc: Global,
    catalog: Arc<C>,
    opening: Opening,
    commands: [Command; 2],
) -> Option<Outcome>
    requires named { GoesBy N.ledger N.setting N.first N.book N.root
        opening.session.session opening.opened opening.blanks }
    requires fresh { opening.session.session.journal ≡ [] }
    requires offers { C.offers (arc_value catalog) ≡ opening.session.session.setting.catalog }
{
    match Shared::<C, N, _>::open(rt, alloc, catalog, opening) {
        Ok((shared, desk)) => to_the_end(rt, alloc, shared, desk, commands),
        Err(_) => None,
    }
}

fn play<R: Threads + Wait + Sync>(rt: &R, alloc: Global) -> Result<Option<Outcome>, Fail> {
    let commands = [Command::Install(web(alloc)?), monitor(1_000_000)?];
    let session = session(alloc, 1000)?;
    let opened = open_history(&session)?;
    let catalog = Arc::new(alloc, Catalog::new(alloc, Vec::new(alloc))?)?;
    let opening = Opening {
        session,
        opened,
        blanks: Blanks::new(),
        places: 2,
    };
    Ok(behind_its_lock::<Catalog, Brand, _>(rt, alloc, catalog, opening, commands))
}

// A worker that came before both commands meets the generation that they made. The row's octets reach the session
// between the beginning of the flush and its answer. Nobody is attached where the last flush was answered, and its
// octets are reported as the session ends.
#[test]
fn a_flush_is_done_where_it_was_answered_and_the_last_one_leaves(
    rt: HostRuntime,
) -> Result<(), Fail> {
    let due = Outcome {
        found: [Some(0), Some(28), Some(1), Some(0)],
        met: Some(2),
        passed: 2,
        rows: 3,
        octets: [668, 668, 0],
    };
    expect_equal(&rt, &play(&rt, rt.alloc())?, &Some(due));
    Ok(())
}
