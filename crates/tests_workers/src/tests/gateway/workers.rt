//! Workers in threads of their own.

use super::*;
use crate::tests::expect_equal;
use pcef_worker::Point;
use std::sync::atomic::{AtomicBool, Ordering};
use std::thread::yield_now;

/// Two packets that were counted, of which nothing was reported.
pub const TWO_COUNTED: Figures = Figures {
    rows: 2,
    abandoned: 0,
    dropped: 0,
    commands: 2,
    keys: 1,
    counted: 56,
    reported: 0,
    unreported: 56,
};

/// Holds each of two workers up where its first flush begins, until the other one's does.
#[derive(Drop)]
struct Meeting {
    first: AtomicBool,
    second: AtomicBool,
    gave_up: AtomicBool,
}

impl Meeting {
    fn new() -> Meeting {
        Meeting {
            first: AtomicBool::new(false),
            second: AtomicBool::new(false),
            gave_up: AtomicBool::new(false),
        }
    }

    /// Says that the one came, and waits for the other.
    fn comes(&self, own: &AtomicBool, other: &AtomicBool) {
        own.store(true, Ordering::SeqCst);
        for _ in 0..10_000_000u32 {
            if other.load(Ordering::SeqCst) {
                return;
            }
            yield_now();
        }
        self.gave_up.store(true, Ordering::SeqCst);
    }

    /// Whether both came, and the one that came first was still there.
    fn took_place(&self) -> bool {
        self.first.load(Ordering::SeqCst)
            && self.second.load(Ordering::SeqCst)
            && !self.gave_up.load(Ordering::SeqCst)
    }
}

impl Gate for Meeting {
    fn at(&self, point: Point) {
        match point {
            Point::FlushBegins(0) => self.comes(&self.first, &self.second),
            Point::FlushBegins(1) => self.comes(&self.second, &self.first),
            _ => {}
        }
    }
}

#[test]
fn workers_run_at_once(rt: HostRuntime) -> Result<(), Fail> {
    let alloc = rt.alloc();
    let meeting = Meeting::new();
    let load = without_commands(alloc, packets(alloc, 1, 2)?, 2);
    let ended = run(&rt, alloc, monitored(alloc)?, load, &meeting)??;
    assert!(rt; meeting.took_place());
    expect_equal(&rt, &figures_of(ended), &Some(TWO_COUNTED));
    Ok(())
}

/// Holds a worker up for a while where its first flush begins.
#[derive(Drop)]
struct Delay {
    begun: AtomicBool,
}

impl Gate for Delay {
    fn at(&self, point: Point) {
        if matches!(point, Point::FlushAnswered(_)) || self.begun.load(Ordering::SeqCst) {
            return;
        }
        self.begun.store(true, Ordering::SeqCst);
        for _ in 0..100_000u32 {
            yield_now();
        }
    }
}

// The ring has 64 places: it fills up while the worker is held up.
#[test]
fn packets_wait_for_a_worker_that_is_held_up(rt: HostRuntime) -> Result<(), Fail> {
    let alloc = rt.alloc();
    let delay = Delay {
        begun: AtomicBool::new(false),
    };
    let load = without_commands(alloc, packets(alloc, 200, 1)?, 1);
    let ended = run(&rt, alloc, monitored(alloc)?, load, &delay)??;
    let expected = Figures {
        rows: 200,
        counted: 5600,
        unreported: 5600,
        ..TWO_COUNTED
    };
    expect_equal(&rt, &figures_of(ended), &Some(expected));
    assert!(rt; delay.begun.load(Ordering::SeqCst));
    Ok(())
}
