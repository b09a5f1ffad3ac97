//! Measures the throughput of the workers of one session, and of workers that share nothing: each in a thread of its
//! own, they judge packets and hand them over.
//!
//! `workers WORKERS BATCHES RULES` opens a session with 1 to 64 rules behind a lock. Each of 1 to 16 workers attaches,
//! takes 32 packets and flushes BATCHES times, and finishes. Then all is gathered. The rows of the journal are written,
//! and the octets that were counted for the key of the rules.
//!
//! With a fourth word the workers do something else:
//!
//! - `counted`: as without a word, but neither the session nor a worker stores the rows.
//! - `times`: each flush is timed, and the least, the median and the 90th percentile stand on standard error.
//! - `own`: each judges 32 packets by the table that it holds and drops their rows. Nothing is shared.
//! - `read`: as `own`, and each refreshes before it judges 32 packets.
//!
//! With the last two no row reaches the session, and the count of judged rows is written. The time of all workers
//! together, in nanoseconds, stands on standard error.

mod alone;
mod opening;
mod working;

ghost use Rattle.std.specs.Prelude.{◌≡◌, []};
ghost use Rattle.std.specs.Arc.{arc_value};
ghost use Rattle.pcef_lock.specs.Opening.{GoesBy};

use crate::arguments::number;
use opening::{packets, session};
use pcef_catalog::{Catalog, Detects};
use pcef_lock::{Opening, Shared, open_history};
use pcef_packet::Header;
use pcef_share::{Blanks, Naming};
use std::alloc::{AllocError, Global};
use std::io;
use std::marker::Brand;
use std::sync::{Arc, Wait};
use std::thread::Threads;
use std::time::Clock;
use working::{Reached, outcome_of};

/// What the workers do.
#[derive(Clone, Copy, Debug, PartialEq, Eq)]
pub enum Work {
    /// Take and flush.
    Flush,
    /// Take and flush, with rows that are counted and not stored.
    CountedFlush,
    /// Take and flush, each flush timed.
    TimedFlush,
    /// Judge by the table that is held.
    Own,
    /// Refresh, and judge by the table that is then held.
    Read,
}

/// What is to be done.
#[derive(Clone, Copy)]
pub struct Load {
    /// How many workers there are.
    pub workers: u8,
    /// How many batches of 32 packets each takes.
    pub batches: u32,
    /// How many rules the session has.
    pub rules: u8,
    /// What the workers do.
    pub work: Work,
}

/// What a measurement stands on.
#[derive(Drop)]
pub struct Host<'a, R, K> {
    /// The threads and the waits of the system.
    pub rt: &'a R,
    /// Its clock.
    pub clock: &'a K,
    /// Memory.
    pub alloc: Global,
}

/// The work that a word names.
fn work_named(word: &str) -> Option<Work> {
    match word {
        "counted" => Some(Work::CountedFlush),
        "times" => Some(Work::TimedFlush),
        "own" => Some(Work::Own),
        "read" => Some(Work::Read),
        _ => None,
    }
}

/// What these numbers ask for, where they are within their limits.
fn load_within(workers: u32, batches: u32, rules: u32, work: Work) -> Option<Load> {
    if !(1..=16).contains(&workers) || !(1..=64).contains(&rules) {
        return None;
    }
    Some(Load {
        workers: workers as u8,
        batches,
        rules: rules as u8,
        work,
    })
}

/// What the words ask for, where three numbers are there, and a word for the work or nothing.
fn load_of(words: &[String]) -> Option<Load> {
    let (workers, batches, rules, work) = match words {
        [workers, batches, rules] => (workers, batches, rules, Work::Flush),
        [workers, batches, rules, word] => (workers, batches, rules, work_named(word.as_str())?),
        _ => return None,
    };
    load_within(number(workers)?, number(batches)?, number(rules)?, work)
}

/// The outcome of the workers of a session.
fn measure_rounds<R: Threads + Wait + Sync, K: Clock + Sync>(
    host: &Host<'_, R, K>,
    load: Load,
) -> Option<Reached> {
    let alloc = host.alloc;
    let packets = packets(alloc, load)?;
    let session = session(alloc, load)?;
    let Ok(opened) = open_history(&session) else {
        return None;
    };
    let offered = Catalog::new(alloc, Vec::new(alloc)).ok()?;
    let catalog = Arc::new(alloc, offered).ok()?;
    let opening = Opening {
        session,
        opened,
        blanks: Blanks::new(),
        places: load.workers,
    };
    behind_its_lock::<Catalog, Brand, _, _>(host, catalog, opening, packets.as_slice(), load)
}

/// The outcome of the workers of a session, which is put behind its lock and gets its rules.
fn behind_its_lock<
    C: Detects + Drop + Send + Sync,
    N: Naming + Send + Sync,
    R: Threads + Wait + Sync,
    K: Clock + Sync,
>(
    host: &Host<'_, R, K>,
    catalog: Arc<C>,
    opening: Opening,
    packets: &[Header],
    load: Load,
) -> Option<Reached>
    requires named { GoesBy N.ledger N.setting N.first N.book N.root
        opening.session.session opening.opened opening.blanks }
    requires fresh { opening.session.session.journal ≡ [] }
    requires offers { C.offers (arc_value catalog) ≡ opening.session.session.setting.catalog }
{
    match Shared::<C, N, _>::open(host.rt, host.alloc, catalog, opening) {
        Ok((shared, desk)) => outcome_of(host, shared, desk, packets, load),
        Err(_) => None,
    }
}

/// Lets the workers do as the words ask. False where they ask for nothing.
pub fn measure<T: Threads + Wait + Sync>(
    threads: &T,
    rt: &HostRuntime,
    words: &[String],
) -> io::Result<bool> {
    let Some(load) = load_of(words) else {
        return Ok(false);
    };
    let host = Host {
        rt: threads,
        clock: rt,
        alloc: rt.alloc(),
    };
    let Some(reached) = measure_rounds(&host, load) else {
        return Err(AllocError.into());
    };
    let _ = eprintln!(rt; "nanoseconds {}", reached.nanoseconds);
    if load.work == Work::TimedFlush {
        let [least, median, late] = reached.flushes;
        let _ = eprintln!(rt; "flush: least {least}, median {median}, ninetieth {late} ns");
    }
    println!(rt; "rows {} counted {}", reached.rows, reached.counted)?;
    Ok(true)
}
