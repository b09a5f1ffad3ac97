//! The name of a pool, by which its two ledgers and its capacity go.

use std::marker::{Brand, PhantomData};
use std::sync::ledger::Ledger;

/// Which pool it is, or that there is none. A caller picks a name where it calls a generic function, with the blanks
/// and the capacity that the name is to stand for, and the name stays within that call.
pub trait Pooling {
    ghost use Rattle.std.specs.Prelude.{ℕ, Bool};
    ghost use Rattle.pcef_rule.specs.declared.quantity.Sums.{Sums};

    /// The names of its two ledgers: of uplink rates and of downlink rates.
    ghost ledger: { ℕ → ℕ };

    /// Whether there is a pool.
    ghost is_there: { Bool };

    /// Its capacity, in bit/s.
    ghost capacity: { Sums };
}

impl Pooling for Brand {
    ghost use Rattle.std.specs.Prelude.{true};
    ghost use Rattle.pcef_share.specs.Rates.{no_rates};

    ghost ledger = { λ k. 0 };

    ghost is_there = { true };

    ghost capacity = { no_rates };
}

/// The name of no pool: that of a session that has its rates to itself.
pub struct NoPool {}

impl Pooling for NoPool {
    ghost use Rattle.std.specs.Prelude.{false};
    ghost use Rattle.pcef_share.specs.Rates.{no_rates};

    ghost ledger = { λ k. 0 };

    ghost is_there = { false };

    ghost capacity = { no_rates };
}

/// Ledger `K` of the pool `P`, which has sixty-four parts.
pub struct OfPool<P: Pooling, const K: u8> {
    of: PhantomData<P>,
}

impl<P: Pooling, const K: u8> Ledger for OfPool<P, K> {
    ghost name = { P.ledger K };

    ghost parts = { 64 };
}
