//! The share that a session may have of a pool.

ghost use Rattle.std.specs.Prelude.{◌≡◌, IfSome, None, Some, is_some, true};
ghost use Rattle.pcef_model.specs.Refusals.{first_of};
ghost use Rattle.pcef_share.specs.Pools.{IsPart, IsPool, pool_faults, pool_with, room_beside};

use pcef_rule::Sums;
use pcef_share::{PoolState, Pooling, RateShares};

/// The rates of a share in bit/s, if there is one.
pub(crate) fn held_in<P: Pooling>(shares: &Option<RateShares<P>>) -> Option<Sums>
    ensures { result ≡ shares.now }
{
    match shares {
        Some(shares) => Some(shares.held()),
        None => None,
    }
}

/// The room in bit/s that a pool leaves for a share that is there.
pub(crate) fn room_in<P: Pooling>(
    shares: &mut Option<RateShares<P>>,
    pool: &mut PoolState<P>,
) -> Sums
    requires { is_some shares.old ≡ true }
    ensures room { IfSome shares.old (λ held. result ≡ room_beside pool.old held) }
    ensures part { IfSome shares.old (λ held. IsPart held pool.old) }
    ensures kept { IsPool pool.old }
    ensures same { (shares.new ≡ shares.old) × (pool.new ≡ pool.old) }
{
    match shares {
        Some(shares) => {
            pool.compare(shares);
            pool.room(shares)
        }
        None => unreachable!(),
    }
}

/// Gives a share that is there other rates, which fit into the pool.
pub(crate) fn give_rates<P: Pooling>(
    shares: &mut Option<RateShares<P>>,
    pool: &mut PoolState<P>,
    rates: Sums,
)
    requires there { is_some shares.old ≡ true }
    requires fit { IfSome shares.old (λ held. first_of (pool_faults pool.old held rates) ≡ None) }
    ensures shares { shares.new ≡ Some rates }
    ensures pool { IfSome shares.old (λ held. pool.new ≡ pool_with pool.old held rates) }
{
    match shares {
        Some(shares) => match pool.change(shares, rates) {
            Ok(()) => {}
            Err(_) => unreachable!(),
        },
        None => unreachable!(),
    }
}
