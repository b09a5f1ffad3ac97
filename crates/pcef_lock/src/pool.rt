//! The lock of a pool.

ghost use Rattle.std.specs.Prelude.{◌≡◌, ◌≤◌, ◌<◌, ◌↔◌, IfOk, IfErr, IfSome, IsOk, length};
ghost use Rattle.pcef_share.specs.Names.{ledger_at};
ghost use Rattle.pcef_share.specs.Rates.{no_rates, sum_of_rates};
ghost use Rattle.pcef_share.specs.Pools.{GrantsExactly};
ghost use Rattle.pcef_share.specs.declared.pool_state.PoolFault.TheVariants.{OutOfRange};

use pcef_rule::Sums;
use pcef_share::{PoolFault, PoolState, Pooling, RateBlanks, RateShares, SharesOut};
use std::sync::{Mutex, Wait};

/// A pool of guaranteed rates that sessions of several threads share. Its lock is taken inside the hold of a session's
/// lock, and no other lock inside it.
pub struct Pool<P: Pooling> {
    pub(crate) state: Mutex<PoolState<P>>,
}

// Written out, so that an owner proves one call on each return path.
impl<P: Pooling> Drop for Pool<P> {
    fn drop(self) {
        let Pool { state: _ } = self;
    }
}

impl<P: Pooling> Pool<P> {
    /// As [`PoolState::new`], behind a lock: every hold finds a pool of this capacity. Takes no memory.
    pub fn new(capacity: Sums, blanks: RateBlanks) -> Result<Pool<P>, PoolFault>
        requires name { P.ledger ≡ ledger_at blanks }
        requires capacity { P.capacity ≡ capacity }
        ensures within { IsOk result
            ↔ ((capacity.up ≤ 1099511627775) × (capacity.down ≤ 1099511627775)) }
        ensures fault { IfErr result (λ f. f ≡ OutOfRange) }
    {
        match PoolState::new(capacity, blanks) {
            Ok(state) => Ok(Pool {
                state: Mutex::new(state),
            }),
            Err(fault) => Err(fault),
        }
    }

    /// What is granted, in bit/s. It is within the capacity whenever the lock is free. Takes no memory.
    pub fn granted<R: Wait>(&self, rt: &R) -> Sums
        ensures up { result.up ≤ P.capacity.up }
        ensures down { result.down ≤ P.capacity.down }
    {
        self.state.lock(rt).granted()
    }

    /// As [`PoolState::compare_all`]: whenever the lock is free, what is granted is the exact sum over all the shares
    /// that were issued, within the capacity. None where these are not all. Takes no memory.
    pub fn compare_all<R: Wait>(&self, rt: &R, shares: &mut [RateShares<P>]) -> Option<Sums>
        ensures exact { IfSome result (λ s. GrantsExactly (record {
          capacity = P.capacity;
          books = record { granted = s; issued = length shares.old };
        }) shares.old) }
        ensures same { shares.new ≡ shares.old }
    {
        let mut pool = self.state.lock(rt);
        // For what it says of the capacity.
        let _granted = pool.granted();
        pool.compare_all(shares)
    }

    /// As [`PoolState::gather`], of the value behind the lock, which ends with it: what the pool has granted is the sum
    /// of the shares that its sessions hand in. No session is behind a lock on the pool any more. A dropped share stays
    /// missing. Takes no memory.
    pub fn gather(
        self,
        shares: Vec<RateShares<P>>,
    ) -> Result<Sums, (Pool<P>, Vec<RateShares<P>>, SharesOut)>
        ensures sums { IfOk result (λ s. s ≡ sum_of_rates no_rates shares.items) }
        ensures back { IfErr result (λ e. e.1 ≡ shares) }
        ensures some { IfErr result (λ e. 0 < e.2.0) }
    {
        let Pool { state } = self;
        match state.into_inner().gather(shares) {
            Ok(granted) => Ok(granted),
            Err((state, shares, missing)) => {
                let pool = Pool {
                    state: Mutex::new(state),
                };
                Err((pool, shares, missing))
            }
        }
    }
}
