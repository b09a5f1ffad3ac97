//! What the rows and commands of a session add up to: `Books` and `Shares` of ten ledgers under one name; and a pool of
//! guaranteed rates that sessions share, without a lock: `PoolState`, over `RateBooks` and `RateShares` of its two ledgers.
//!
//! Its contracts say: a book is the exact sum of its shares, and gathering returns how many are missing; never more is
//! granted than the pool's capacity, and which room is left for a share.
//!
//! In the order of reading: `naming`, `pooling`, `tally`, `tallies`, `shares`, `books`, `blanks`, `rate_tallies`,
//! `rate_books`, `pool_state`.
#![tactic(auto)]

mod blanks;
mod books;
mod naming;
mod pool_state;
mod pooling;
mod rate_books;
mod rate_tallies;
mod shares;
mod tallies;
mod tally;

pub use blanks::Blanks;
pub use books::{Books, MAX_SHARES, SharesOut};
pub use naming::Naming;
pub use pool_state::{PoolFault, PoolFull, PoolState};
pub use pooling::{NoPool, Pooling};
pub use rate_books::{MAX_RATE_SHARES, RateBooks};
pub use rate_tallies::{RateBlanks, RateShares};
pub use shares::Shares;
