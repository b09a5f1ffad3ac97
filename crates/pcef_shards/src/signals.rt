//! How the threads wake one another.

use std::alloc::{AllocError, Global};
use std::sync::Wait;
use std::sync::atomic::{AtomicBool, Ordering};
use std::thread::Parker;

/// What the threads share to wake one another. No contract speaks of it.
#[derive(Drop)]
pub(crate) struct Signals {
    /// Whether all are to stop: a thread ended before its lines did.
    is_over: AtomicBool,
    /// Whether the thread that reads found no memory.
    lacks_memory: AtomicBool,
    /// The thread that reads waits on it for room in a ring.
    room: Parker,
    /// Each thread waits on its own for lines.
    lines: Vec<Parker>,
}

impl Signals {
    /// Signals among `threads` threads and the one that reads. Takes memory.
    pub(crate) fn new(alloc: Global, threads: usize) -> Result<Signals, AllocError> {
        let mut lines = Vec::new(alloc);
        for _ in 0..threads {
            lines.push(Parker::new())?;
        }
        Ok(Signals {
            is_over: AtomicBool::new(false),
            lacks_memory: AtomicBool::new(false),
            room: Parker::new(),
            lines,
        })
    }

    pub(crate) fn is_over(&self) -> bool {
        self.is_over.load(Ordering::SeqCst)
    }

    pub(crate) fn lacks_memory(&self) -> bool {
        self.lacks_memory.load(Ordering::SeqCst)
    }

    pub(crate) fn signal_lack(&self) {
        self.lacks_memory.store(true, Ordering::SeqCst);
    }

    /// Signals that a ring has room.
    pub(crate) fn signal_room(&self) {
        self.room.unpark();
    }

    /// Waits till a ring has room, or all are to stop. May return early.
    pub(crate) fn await_room<T: Wait>(&self, rt: &T) {
        self.room.park(rt);
    }

    /// Signals to a thread that lines came, or their end.
    pub(crate) fn signal_lines(&self, thread: usize) {
        if let Some(parker) = self.lines.get(thread) {
            parker.unpark();
        }
    }

    /// Waits till lines come for a thread, or their end, or all are to stop. May return early.
    pub(crate) fn await_lines<T: Wait>(&self, rt: &T, thread: usize) {
        if let Some(parker) = self.lines.get(thread) {
            parker.park(rt);
        }
    }

    /// Wakes all threads but the one that reads.
    pub(crate) fn wake_all(&self) {
        for parker in &self.lines {
            parker.unpark();
        }
    }

    /// Stops all.
    pub(crate) fn stop(&self) {
        self.is_over.store(true, Ordering::SeqCst);
        self.wake_all();
        self.signal_room();
    }
}
