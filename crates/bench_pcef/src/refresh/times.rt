//! The times that rounds of refreshes took.

use crate::laps::spread;
use std::alloc::{AllocError, Global};

/// What is timed: for each round, what all subscribers together took, in nanoseconds.
#[derive(Drop)]
pub struct Times {
    /// Refreshes that find a newer table.
    pub newer: Vec<u64>,
    /// Refreshes that find nothing new.
    pub same: Vec<u64>,
    /// Swaps of an own `Arc`.
    pub own: Vec<u64>,
    /// Looks at the clock alone.
    pub clock: Vec<u64>,
}

/// Of the rounds of each kind: the least, the median and the 90th percentile, in nanoseconds.
#[derive(Clone, Copy)]
pub struct Spreads {
    /// Refreshes that find a newer table.
    pub newer: [u64; 3],
    /// Refreshes that find nothing new.
    pub same: [u64; 3],
    /// Swaps of an own `Arc`.
    pub own: [u64; 3],
    /// Looks at the clock alone.
    pub clock: [u64; 3],
}

impl Times {
    pub fn new(alloc: Global) -> Times {
        Times {
            newer: Vec::new(alloc),
            same: Vec::new(alloc),
            own: Vec::new(alloc),
            clock: Vec::new(alloc),
        }
    }

    /// The spread of the rounds of each kind.
    pub fn spreads(self) -> Result<Spreads, AllocError> {
        let Times {
            newer,
            same,
            own,
            clock,
        } = self;
        Ok(Spreads {
            newer: spread(newer)?,
            same: spread(same)?,
            own: spread(own)?,
            clock: spread(clock)?,
        })
    }
}

/// The time of one of `each` operations that together took `passed` nanoseconds, less `look` for the look at the clock:
/// in hundredths of a nanosecond.
pub fn of_each(passed: u64, look: u64, each: u32) -> u64 {
    passed.saturating_sub(look).saturating_mul(100) / u64::from(each).max(1)
}
