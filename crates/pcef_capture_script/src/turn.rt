//! Workers in turn.

ghost use Rattle.std.specs.Prelude.{◌≡◌, ◌<◌, Some as DueSome, None as DueNone};
ghost use Rattle.pcef_capture_script.specs.Turns.{full_after, taken_after};

/// Which worker takes the next packet, and how many wait there.
#[derive(Clone, Copy)]
pub struct Turn {
    /// How many workers there are.
    pub workers: u8,
    /// How many packets a worker takes before it flushes; 0 counts as 1.
    pub batch: u8,
    /// The worker that takes the next packet, numbered from 0.
    pub worker: u8,
    /// How many packets wait there: fewer than it takes.
    pub waiting: u8,
}

impl Turn {
    /// The turn of the first of `workers`, where nothing waits, and each takes `batch` packets in its turn.
    pub fn first(workers: u8, batch: u8) -> Turn
        ensures { result ≡ record { workers = workers; batch = batch; worker = 0; waiting = 0 } }
    {
        Turn {
            workers,
            batch,
            worker: 0,
            waiting: 0,
        }
    }

    /// Notes that the worker took a packet. Returns it if it is to flush; then the next worker has its turn.
    pub fn take(&mut self) -> Option<u8>
        ensures full { result ≡ full_after self.old }
        ensures turn { self.new ≡ taken_after self.old }
    {
        let worker = self.worker;
        let waiting = u16::from(self.waiting) + 1;
        if waiting < u16::from(self.batch.max(1)) {
            self.waiting = waiting as u8;
            return None;
        }
        self.waiting = 0;
        let next = u16::from(worker) + 1;
        self.worker = if next < u16::from(self.workers) {
            next as u8
        } else {
            0
        };
        Some(worker)
    }
}
