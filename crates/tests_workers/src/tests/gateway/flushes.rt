//! How often a worker hands rows over, counted by a gate.

use super::*;
use crate::tests::expect_equal;
use crate::tests::sessions::packet_from;
use pcef_packet::Header;
use pcef_worker::Point;
use std::sync::atomic::{AtomicBool, AtomicU64, Ordering};
use std::thread::yield_now;

/// Adds so many packets of this header for a worker.
pub fn add(arrivals: &mut Vec<Arrival>, many: u8, header: &Header, worker: u8) -> Result<(), Fail> {
    for _ in 0..many {
        let header = PackedHeader::new(header);
        arrivals.push(Arrival { header, worker })?;
    }
    Ok(())
}

/// `first` packets for the first worker, and behind them `second` packets for the second.
pub fn packets_of_two(alloc: Global, first: u8, second: u8) -> Result<Vec<Arrival>, Fail> {
    let mut arrivals = Vec::new(alloc);
    add(&mut arrivals, first, &packet(28), 0)?;
    add(&mut arrivals, second, &packet(28), 1)?;
    Ok(arrivals)
}

/// Counts the flushes of the first worker, and holds it up where the first one begins, until one of the second worker
/// was answered.
#[derive(Drop)]
struct AfterSecond {
    flushes: AtomicU64,
    answered: AtomicBool,
}

impl AfterSecond {
    fn wait(&self) {
        for _ in 0..10_000_000u32 {
            if self.answered.load(Ordering::SeqCst) {
                return;
            }
            yield_now();
        }
    }
}

impl Gate for AfterSecond {
    fn at(&self, point: Point) {
        match point {
            Point::FlushBegins(0) => {
                if self.flushes.fetch_add(1, Ordering::SeqCst) == 0 {
                    self.wait();
                }
            }
            Point::FlushAnswered(1) => self.answered.store(true, Ordering::SeqCst),
            _ => {}
        }
    }
}

// All 65 packets of the first worker are in its ring, or were taken, where its first flush goes on. The second flush,
// and the third, have 32 rows, and the last comes as it leaves.
#[test]
fn packets_that_came_meanwhile_are_handed_over_together(rt: HostRuntime) -> Result<(), Fail> {
    let alloc = rt.alloc();
    let gate = AfterSecond {
        flushes: AtomicU64::new(0),
        answered: AtomicBool::new(false),
    };
    let load = without_commands(alloc, packets_of_two(alloc, 65, 1)?, 2);
    let ended = run(&rt, alloc, monitored(alloc)?, load, &gate)??;
    let outcome = figures_of(ended).unwrap_or_default();
    expect_equal(&rt, &(outcome.rows, outcome.dropped), &(66, 0));
    assert!(rt; gate.flushes.load(Ordering::SeqCst) <= 4);
    Ok(())
}

/// `each` packets for the first worker, and behind them as many for the second, which no rule fits.
fn packets_and_strangers(alloc: Global, each: u8) -> Result<Vec<Arrival>, Fail> {
    let mut arrivals = packets_of_two(alloc, each, 0)?;
    add(&mut arrivals, each, &packet_from(54, 28), 1)?;
    Ok(arrivals)
}

// The rule is installed between the packets of the two workers. So it is there where the first worker's first flush
// goes on, which hands over 32 rows at most: all others are judged by it.
#[test]
fn what_comes_during_a_flush_judges_the_packets_behind_it(rt: HostRuntime) -> Result<(), Fail> {
    let alloc = rt.alloc();
    let gate = AfterSecond {
        flushes: AtomicU64::new(0),
        answered: AtomicBool::new(false),
    };
    let load = Workload {
        arrivals: packets_and_strangers(alloc, 65)?,
        commands: vec![in alloc; Command::Install(web(alloc)?)]?,
        workers: 2,
    };
    let session = accepted(session(alloc, 1000)?, monitor(1_000_000)?)?;
    let ended = run(&rt, alloc, session, load, &gate)??;
    let outcome = figures_of(ended).unwrap_or_default();
    expect_equal(&rt, &outcome.rows, &130);
    assert!(rt; outcome.counted / 28 >= 33);
    Ok(())
}

/// Counts the flushes that begin, and those that were answered.
#[derive(Drop)]
struct Ends {
    begun: AtomicU64,
    answered: AtomicU64,
}

impl Gate for Ends {
    fn at(&self, point: Point) {
        match point {
            Point::FlushBegins(_) => self.begun.fetch_add(1, Ordering::SeqCst),
            Point::FlushAnswered(_) => self.answered.fetch_add(1, Ordering::SeqCst),
        };
    }
}

// The session takes one row, so that some flush is refused.
#[test]
fn a_refused_flush_is_answered_too(rt: HostRuntime) -> Result<(), Fail> {
    let alloc = rt.alloc();
    let gate = Ends {
        begun: AtomicU64::new(0),
        answered: AtomicU64::new(0),
    };
    let load = without_commands(alloc, packets_of_two(alloc, 40, 0)?, 1);
    let ended = run(&rt, alloc, session(alloc, 1)?, load, &gate)??;
    assert!(rt; figures_of(ended).is_some());
    let begun = gate.begun.load(Ordering::SeqCst);
    assert!(rt; begun > 0 && gate.answered.load(Ordering::SeqCst) == begun);
    Ok(())
}

/// Counts the flushes of the first worker, and holds the second one up where its flush begins, until the first has
/// begun three or a while has gone by.
#[derive(Drop)]
struct CountsThree {
    flushes: AtomicU64,
}

impl CountsThree {
    fn wait(&self) {
        for _ in 0..20_000u32 {
            if self.flushes.load(Ordering::SeqCst) >= 3 {
                return;
            }
            yield_now();
        }
    }
}

impl Gate for CountsThree {
    fn at(&self, point: Point) {
        match point {
            Point::FlushBegins(0) => {
                self.flushes.fetch_add(1, Ordering::SeqCst);
            }
            Point::FlushBegins(1) => self.wait(),
            _ => {}
        }
    }
}

// The session takes one row. A first flush of one row is taken over, each other one is refused, and then the worker has
// left, while its ring goes on.
#[test]
fn a_worker_whose_rows_are_refused_flushes_no_more(rt: HostRuntime) -> Result<(), Fail> {
    let alloc = rt.alloc();
    let gate = CountsThree {
        flushes: AtomicU64::new(0),
    };
    let load = without_commands(alloc, packets_of_two(alloc, 3, 200)?, 2);
    let session = session(alloc, 1)?;
    let ended = run(&rt, alloc, session, load, &gate)??;
    assert!(rt; figures_of(ended).is_some());
    assert!(rt; gate.flushes.load(Ordering::SeqCst) <= 2);
    Ok(())
}
