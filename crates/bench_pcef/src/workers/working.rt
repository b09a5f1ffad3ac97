//! What the workers do, each in a thread of its own.

use super::alone::judged_alone;
use super::opening::{give_commands, packets_of};
use super::{Host, Load, Work};
use crate::laps::{Lap, spread};
use pcef_catalog::Detects;
use pcef_lock::{Desk, Finished, Shared, Totals};
use pcef_packet::Header;
use pcef_publish::{Board, Cell};
use pcef_share::Naming;
use pcef_worker::{OpenGate, Worker};
use std::alloc::Global;
use std::sync::Wait;
use std::thread::{Threads, map_indices};
use std::time::Clock;

/// The outcome of one worker.
#[derive(Drop)]
pub struct Left<N: Naming> {
    /// What it hands in.
    pub finished: Finished<N>,
    /// How many rows it judged for itself alone.
    pub judged: u64,
    /// The time of each of its flushes, in nanoseconds, where they were timed.
    pub flushes: Vec<u64>,
}

/// The outcomes of all workers.
#[derive(Drop)]
struct AllLeft<N: Naming> {
    finished: Vec<Finished<N>>,
    judged: u64,
    flushes: Vec<u64>,
}

/// The outcome of the workers of a session.
#[derive(Drop)]
pub struct Reached {
    /// The rows of the journal, or those that were judged where none was handed over.
    pub rows: u64,
    /// The octets that were counted for the key.
    pub counted: u64,
    /// The time of all workers together, in nanoseconds.
    pub nanoseconds: u64,
    /// The least, the median and the 90th percentile of the timed flushes, in nanoseconds.
    pub flushes: [u64; 3],
}

/// Takes the packets of a batch.
fn take_each<C: Detects + Drop, N: Naming>(
    worker: &mut Worker<C, N, OpenGate>,
    packets: &[Header],
) {
    for packet in packets {
        let _ = worker.take(packet).is_ok();
    }
}

/// Takes packets and flushes, `batches` times, or until a flush is refused.
fn flush_each<C: Detects + Drop, N: Naming, W: Board<Cell<N>> + Drop, R: Wait>(
    rt: &R,
    shared: &Shared<C, N, W>,
    worker: &mut Worker<C, N, OpenGate>,
    packets: &[Header],
    batches: u32,
) {
    for batch in 0..batches {
        take_each(worker, packets_of(packets, batch));
        if worker.flush(rt, shared).is_err() {
            return;
        }
    }
}

/// Takes packets and flushes, `batches` times, and times each flush.
fn time_each<C: Detects + Drop, N: Naming, W: Board<Cell<N>> + Drop, R: Wait, K: Clock>(
    host: &Host<'_, R, K>,
    shared: &Shared<C, N, W>,
    worker: &mut Worker<C, N, OpenGate>,
    packets: &[Header],
    batches: u32,
    flushes: &mut Vec<u64>,
) -> Option<()> {
    for batch in 0..batches {
        take_each(worker, packets_of(packets, batch));
        let mut lap = Lap::begin(host.clock).ok()?;
        worker.flush(host.rt, shared).ok()?;
        flushes.push(lap.end(host.clock).ok()?).ok()?;
    }
    Some(())
}

/// The outcome of a worker that attaches, takes packets, flushes and finishes. It stores the rows, or counts them.
fn handed_over<C: Detects + Drop, N: Naming, W: Board<Cell<N>> + Drop, R: Wait>(
    rt: &R,
    alloc: Global,
    shared: &Shared<C, N, W>,
    packets: &[Header],
    batches: u32,
    stores: bool,
) -> Option<Left<N>> {
    let attached = if stores {
        Worker::attach(rt, alloc, shared, OpenGate)
    } else {
        Worker::attach_without_rows(rt, alloc, shared, OpenGate)
    };
    let mut worker = attached.ok()?;
    flush_each(rt, shared, &mut worker, packets, batches);
    finish_worker(rt, shared, worker, Vec::new(alloc))
}

/// The outcome of a worker that attaches, takes packets, times each flush and finishes.
fn time_worker<C: Detects + Drop, N: Naming, W: Board<Cell<N>> + Drop, R: Wait, K: Clock>(
    host: &Host<'_, R, K>,
    shared: &Shared<C, N, W>,
    packets: &[Header],
    batches: u32,
) -> Option<Left<N>> {
    let mut flushes = Vec::with_capacity(host.alloc, batches as usize).ok()?;
    let mut worker = Worker::attach(host.rt, host.alloc, shared, OpenGate).ok()?;
    let _ = time_each(host, shared, &mut worker, packets, batches, &mut flushes);
    finish_worker(host.rt, shared, worker, flushes)
}

/// Finishes a worker, and returns its outcome.
fn finish_worker<C: Detects + Drop, N: Naming, W: Board<Cell<N>> + Drop, R: Wait>(
    rt: &R,
    shared: &Shared<C, N, W>,
    worker: Worker<C, N, OpenGate>,
    flushes: Vec<u64>,
) -> Option<Left<N>> {
    let (finished, _) = worker.finish(rt, shared).ok()?;
    Some(Left {
        finished,
        judged: 0,
        flushes,
    })
}

/// The outcome of a worker that does as `load` asks.
fn work_off<C: Detects + Drop, N: Naming, W: Board<Cell<N>> + Drop, R: Wait, K: Clock>(
    host: &Host<'_, R, K>,
    shared: &Shared<C, N, W>,
    packets: &[Header],
    load: Load,
) -> Option<Left<N>> {
    let (rt, alloc) = (host.rt, host.alloc);
    match load.work {
        Work::Flush => handed_over(rt, alloc, shared, packets, load.batches, true),
        Work::CountedFlush => handed_over(rt, alloc, shared, packets, load.batches, false),
        Work::TimedFlush => time_worker(host, shared, packets, load.batches),
        Work::Own => judged_alone(rt, alloc, shared, packets, load.batches, false),
        Work::Read => judged_alone(rt, alloc, shared, packets, load.batches, true),
    }
}

/// Adds the outcome of one more worker.
fn add<N: Naming>(all: &mut AllLeft<N>, one: Left<N>) -> Option<()> {
    let Left {
        finished,
        judged,
        flushes,
    } = one;
    all.judged = all.judged.saturating_add(judged);
    all.finished.push(finished).ok()?;
    for flush in flushes {
        all.flushes.push(flush).ok()?;
    }
    Some(())
}

/// The outcomes of all workers, if each has one.
fn together<N: Naming>(alloc: Global, left: Vec<Option<Left<N>>>) -> Option<AllLeft<N>> {
    let mut all = AllLeft {
        finished: Vec::new(alloc),
        judged: 0,
        flushes: Vec::new(alloc),
    };
    for one in left {
        add(&mut all, one?)?;
    }
    Some(all)
}

/// The outcomes of all workers, and their time together, in nanoseconds.
fn work_each<
    C: Detects + Drop + Send + Sync,
    N: Naming + Send + Sync,
    W: Board<Cell<N>> + Drop + Send,
    R: Threads + Wait + Sync,
    K: Clock + Sync,
>(
    host: &Host<'_, R, K>,
    shared: &Shared<C, N, W>,
    packets: &[Header],
    load: Load,
) -> Option<(AllLeft<N>, u64)> {
    let workers = usize::from(load.workers);
    let mut lap = Lap::begin(host.clock).ok()?;
    let work = |_: usize| work_off(host, shared, packets, load);
    let left = map_indices(host.rt, host.alloc, workers, &work).ok()?;
    let nanoseconds = lap.end(host.clock).ok()?;
    Some((together(host.alloc, left)?, nanoseconds))
}

/// Gives the commands, and lets the workers do their work.
fn worked_off<
    C: Detects + Drop + Send + Sync,
    N: Naming + Send + Sync,
    W: Board<Cell<N>> + Drop + Send,
    R: Threads + Wait + Sync,
    K: Clock + Sync,
>(
    host: &Host<'_, R, K>,
    shared: &Shared<C, N, W>,
    desk: &mut Desk<N>,
    packets: &[Header],
    load: Load,
) -> Option<(AllLeft<N>, u64)> {
    give_commands(host.rt, host.alloc, shared, desk, load)?;
    work_each(host, shared, packets, load)
}

/// The outcome of the workers of a session.
pub fn outcome_of<
    C: Detects + Drop + Send + Sync,
    N: Naming + Send + Sync,
    W: Board<Cell<N>> + Drop + Send,
    R: Threads + Wait + Sync,
    K: Clock + Sync,
>(
    host: &Host<'_, R, K>,
    shared: Shared<C, N, W>,
    mut desk: Desk<N>,
    packets: &[Header],
    load: Load,
) -> Option<Reached> {
    match worked_off(host, &shared, &mut desk, packets, load) {
        Some((left, nanoseconds)) => outcome_behind(host.rt, shared, desk, left, nanoseconds),
        None => None,
    }
}

/// The outcome of a session whose workers left this after `nanoseconds`.
fn outcome_behind<C: Detects + Drop, N: Naming, W: Board<Cell<N>> + Drop, R: Wait>(
    rt: &R,
    shared: Shared<C, N, W>,
    desk: Desk<N>,
    left: AllLeft<N>,
    nanoseconds: u64,
) -> Option<Reached> {
    let AllLeft {
        finished,
        judged,
        flushes,
    } = left;
    match gather_all(rt, shared, desk, finished) {
        Some(totals) => reached_of(&totals, judged, flushes, nanoseconds),
        None => None,
    }
}

fn reached_of(
    totals: &Totals,
    judged: u64,
    flushes: Vec<u64>,
    nanoseconds: u64,
) -> Option<Reached> {
    Some(Reached {
        rows: totals.rows.saturating_add(judged),
        counted: totals.keys.as_slice().first()?.counted,
        nanoseconds,
        flushes: spread(flushes).ok()?,
    })
}

/// The totals of a session whose workers have left.
fn gather_all<C: Detects + Drop, N: Naming, W: Board<Cell<N>> + Drop, R: Wait>(
    rt: &R,
    shared: Shared<C, N, W>,
    desk: Desk<N>,
    finished: Vec<Finished<N>>,
) -> Option<Totals> {
    if finished.len() > 16 {
        return None;
    }
    shared.gather(rt, desk, finished).ok()
}
