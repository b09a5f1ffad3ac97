//! The times of the parts of a run, by the clock.

use std::alloc::AllocError;
use std::io;
use std::time::{Clock, Instant};

/// The time since a look at the clock.
#[derive(Clone, Copy)]
pub struct Lap {
    from: Instant,
}

impl Lap {
    /// Looks at the clock.
    pub fn begin<K: Clock>(clock: &K) -> io::Result<Lap> {
        Ok(Lap {
            from: Instant::now(clock)?,
        })
    }

    /// Looks again, and returns the nanoseconds since the last look. The next lap begins with this look.
    pub fn end<K: Clock>(&mut self, clock: &K) -> io::Result<u64> {
        let now = Instant::now(clock)?;
        let passed = now.saturating_duration_since(self.from);
        self.from = now;
        let seconds = passed.as_secs().saturating_mul(1_000_000_000);
        Ok(seconds.saturating_add(u64::from(passed.subsec_nanos())))
    }
}

/// The time at `hundredths` of the way from the least to the greatest. `passed` is in order.
fn at(passed: &[u64], hundredths: usize) -> u64 {
    let place = passed.len().saturating_mul(hundredths) / 100;
    passed.get(place).copied().unwrap_or(0)
}

/// The least, the median and the 90th percentile.
pub fn spread(mut passed: Vec<u64>) -> Result<[u64; 3], AllocError> {
    passed.sort()?;
    let passed = passed.as_slice();
    Ok([at(passed, 0), at(passed, 50), at(passed, 90)])
}
