//! A worker that gets no packet for a while.

use super::flushes::{add, packets_of_two};
use super::workers::TWO_COUNTED;
use super::*;
use crate::tests::expect_equal;
use crate::tests::sessions::packet_from;
use pcef_worker::Point;
use std::sync::atomic::{AtomicBool, Ordering};
use std::thread::yield_now;

/// Holds the second worker up where its flush begins, until one of the first worker was answered.
#[derive(Drop)]
struct FirstOneFirst {
    answered: AtomicBool,
    gave_up: AtomicBool,
}

impl FirstOneFirst {
    fn new() -> FirstOneFirst {
        FirstOneFirst {
            answered: AtomicBool::new(false),
            gave_up: AtomicBool::new(false),
        }
    }

    fn wait(&self) {
        for _ in 0..10_000_000u32 {
            if self.answered.load(Ordering::SeqCst) {
                return;
            }
            yield_now();
        }
        self.gave_up.store(true, Ordering::SeqCst);
    }
}

impl Gate for FirstOneFirst {
    fn at(&self, point: Point) {
        match point {
            Point::FlushAnswered(0) => self.answered.store(true, Ordering::SeqCst),
            Point::FlushBegins(1) => self.wait(),
            _ => {}
        }
    }
}

// The second worker's ring fills up while it is held up, so the first one's goes on.
#[test]
fn rows_are_handed_over_while_the_ring_goes_on(rt: HostRuntime) -> Result<(), Fail> {
    let alloc = rt.alloc();
    let gate = FirstOneFirst::new();
    let load = without_commands(alloc, packets_of_two(alloc, 3, 200)?, 2);
    let ended = run(&rt, alloc, monitored(alloc)?, load, &gate)??;
    let expected = Figures {
        rows: 203,
        counted: 5684,
        unreported: 5684,
        ..TWO_COUNTED
    };
    expect_equal(&rt, &figures_of(ended), &Some(expected));
    assert!(rt; !gate.gave_up.load(Ordering::SeqCst));
    Ok(())
}

/// A packet for the first worker, 99 for the second that no rule fits, and 100 for the first.
fn packets_around_a_pause(alloc: Global) -> Result<Vec<Arrival>, Fail> {
    let mut arrivals = packets_of_two(alloc, 1, 0)?;
    add(&mut arrivals, 99, &packet_from(54, 28), 1)?;
    add(&mut arrivals, 100, &packet(28), 0)?;
    Ok(arrivals)
}

// The rule is installed between the first 100 packets and the others. The second worker is held up until the first one
// has handed its packet over, and its ring has no room for all of its packets. So the first worker is idle as the rule
// comes, and all its packets but the first are sent after that.
#[test]
fn a_packet_after_a_pause_is_judged_by_the_newest_rules(rt: HostRuntime) -> Result<(), Fail> {
    let alloc = rt.alloc();
    let gate = FirstOneFirst::new();
    let load = Workload {
        arrivals: packets_around_a_pause(alloc)?,
        commands: vec![in alloc; Command::Install(web(alloc)?)]?,
        workers: 2,
    };
    let session = accepted(session(alloc, 1000)?, monitor(1_000_000)?)?;
    let ended = run(&rt, alloc, session, load, &gate)??;
    let outcome = figures_of(ended).unwrap_or_default();
    expect_equal(&rt, &(outcome.rows, outcome.counted), &(200, 2800));
    assert!(rt; !gate.gave_up.load(Ordering::SeqCst));
    Ok(())
}
