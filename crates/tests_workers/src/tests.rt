//! Workers of one session behind its lock, whose rows and octets were counted by hand: `gateway` has runs over threads,
//! `halts` a worker that is held up where its flushes begin and where they were answered, `pool` two sessions with a
//! desk each, and `reports` a desk that collects many reports at once. What else desks and workers answer in one thread,
//! worked scripts show: `tests_examples` plays them behind a lock.

mod gateway;
mod halts;
mod pool;
mod reports;
mod sessions;

use std::fmt::Debug;
use std::process::Abort;

/// Expects what is due. It stands here once, for a comparison in each test takes longer to prove.
fn expect_equal<T: Debug + PartialEq>(rt: &impl Abort, found: &T, due: &T) {
    assert_eq!(rt; found, due);
}
