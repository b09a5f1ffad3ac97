//! A pool of guaranteed rates that sessions share.

ghost use Rattle.std.specs.Prelude.{◌≡◌, ◌≤◌, ◌<◌, ◌+◌, ◌↔◌, ◌⊎◌, IfErr, IfOk, IfSome, IsOk, OnErr, OnOk, is_none, length, true, false};
ghost use Rattle.std.specs.Result.{result_err};
ghost use Rattle.pcef_model.specs.Refusals.{first_of};
ghost use Rattle.pcef_share.specs.Names.{ledger_at};
ghost use Rattle.pcef_share.specs.Rates.{no_rates, sum_of_rates};
ghost use Rattle.pcef_share.specs.Pools.{GrantsExactly, IsPart, IsPool, pool_faults, pool_with, room_beside, with_rate_share};
ghost use Rattle.pcef_share.specs.declared.pool_state.PoolFault.TheVariants.{OutOfRange};

use crate::books::SharesOut;
use crate::pooling::Pooling;
use crate::rate_books::{MAX_RATE_SHARES, RateBooks};
use crate::rate_tallies::{RateBlanks, RateShares};
use pcef_model::MAX_CAPACITY;
use pcef_rule::Sums;
use std::marker::Model;
use thiserror::Error;

/// Why a pool can't be made.
#[derive(Clone, Copy, Debug, PartialEq, Eq, Error)]
pub enum PoolFault {
    /// The capacity is above the limit of a session's.
    #[error("the capacity of a pool is at most 1,099,511,627,775 bit/s")]
    OutOfRange,
}

/// Why a share of a pool doesn't get other rates. `Up` is looked for first.
#[derive(Clone, Copy, Debug, PartialEq, Eq, Error)]
pub enum PoolFull {
    /// The uplink rates of all shares would be over the capacity.
    #[error("the uplink rates are over the capacity of the pool")]
    Up,
    /// The downlink rates of all shares would be over the capacity.
    #[error("the downlink rates are over the capacity of the pool")]
    Down,
}

/// A capacity, and the books of the rates that are granted from it. It is the value behind a pool's lock: what always
/// holds of it, every hold of the lock finds.
pub struct PoolState<P: Pooling> {
    books: RateBooks<P>,
    capacity: Sums,
}

// Written out, so that an owner proves one call on each return path.
impl<P: Pooling> Drop for PoolState<P> {
    fn drop(self) {
        let PoolState {
            books: _,
            capacity: _,
        } = self;
    }
}

impl<P: Pooling> Model for PoolState<P> {
    ghost use Rattle.std.specs.Prelude.{◌≡◌};
    ghost use Rattle.pcef_share.specs.Pools.{IsPool, PoolModel};

    ghost Value = { PoolModel };

    ghost view = { λ s. record { capacity = s.capacity; books = s.books } };

    ghost invariant = { λ s. IsPool (record { capacity = s.capacity; books = s.books })
        × (s.capacity ≡ P.capacity) };
}

impl<P: Pooling> PoolState<P> {
    /// A pool of this capacity, in bit/s, of which nothing is granted, or `OutOfRange` where it is above
    /// 1,099,511,627,775 in a direction. The blanks and the capacity are those that the name stands for. Takes no
    /// memory.
    pub fn new(capacity: Sums, blanks: RateBlanks) -> Result<PoolState<P>, PoolFault>
        requires name { P.ledger ≡ ledger_at blanks }
        requires capacity { P.capacity ≡ capacity }
        ensures made { IfOk result (λ s. s ≡ record {
          capacity = capacity;
          books = record { granted = no_rates; issued = 0 };
        }) }
        ensures within { IsOk result
            ↔ ((capacity.up ≤ 1099511627775) × (capacity.down ≤ 1099511627775)) }
        ensures fault { IfErr result (λ f. f ≡ OutOfRange) }
    {
        if capacity.up > MAX_CAPACITY {
            return Err(PoolFault::OutOfRange);
        }
        if capacity.down > MAX_CAPACITY {
            return Err(PoolFault::OutOfRange);
        }
        Ok(PoolState {
            books: RateBooks::new(blanks),
            capacity,
        })
    }

    /// The rates of all shares, in bit/s. They are within the capacity, which is the one that the pool was made with.
    pub fn granted(&self) -> Sums
        ensures granted { result ≡ self.now.books.granted }
        ensures capacity { self.now.capacity ≡ P.capacity }
        ensures up { result.up ≤ self.now.capacity.up }
        ensures down { result.down ≤ self.now.capacity.down }
    {
        self.books.granted()
    }

    /// A share without rates, or none where sixty-four were issued. Takes no memory.
    pub fn issue(&mut self) -> Option<RateShares<P>>
        ensures none { is_none result ≡ true ↔ (self.old.books.issued ≡ 64) }
        ensures share { IfSome result (λ s. s ≡ no_rates) }
        ensures issued { is_none result ≡ false → self.new ≡ with_rate_share self.old }
        ensures refused { is_none result ≡ true → self.new ≡ self.old }
    {
        if usize::from(self.books.issued()) >= MAX_RATE_SHARES {
            return None;
        }
        Some(self.books.issue())
    }

    /// The room that is there for the rates of a share, in bit/s: the capacity less what the other shares have.
    pub fn room(&self, shares: &RateShares<P>) -> Sums
        ensures { result ≡ room_beside self.now shares.now }
    {
        let granted = self.books.granted();
        let held = shares.held();
        Sums {
            up: self.capacity.up - granted.up.saturating_sub(held.up),
            down: self.capacity.down - granted.down.saturating_sub(held.down),
        }
    }

    /// Gives a share other rates, in bit/s. Where all shares would then be over the capacity, it answers the first
    /// direction in the order of [`PoolFull`], and changes nothing. What the share had was part of what was granted, so
    /// both move by the same rates. Takes no memory.
    pub fn change(&mut self, shares: &mut RateShares<P>, rates: Sums) -> Result<(), PoolFull>
        ensures answer { result_err result ≡ first_of (pool_faults self.old shares.old rates) }
        ensures part { IsPart shares.old self.old }
        ensures shares { OnOk result (shares.new ≡ rates) }
        ensures granted { OnOk result (self.new ≡ pool_with self.old shares.old rates) }
        ensures refused { OnErr result ((shares.new ≡ shares.old) × (self.new ≡ self.old)) }
    {
        let room = self.room(shares);
        if room.up < rates.up {
            self.compare(shares);
            return Err(PoolFull::Up);
        }
        if room.down < rates.down {
            self.compare(shares);
            return Err(PoolFull::Down);
        }
        self.books.change(shares, rates);
        Ok(())
    }

    /// Shows that a share has no more than all shares, and changes nothing.
    pub fn compare(&mut self, shares: &mut RateShares<P>)
        ensures same { (self.new ≡ self.old) × (shares.new ≡ shares.old) }
        ensures part { IsPart shares.old self.old }
        ensures kept { IsPool self.old }
    {
        self.books.compare(shares)
    }

    /// What is granted, in bit/s, where these are all the shares that were issued: the exact sum over them, within the
    /// capacity. None where they are not all. Changes nothing, and takes no memory.
    pub fn compare_all(&mut self, shares: &mut [RateShares<P>]) -> Option<Sums>
        ensures all { is_none result ≡ false ↔ (length shares.old ≡ self.old.books.issued) }
        ensures granted { IfSome result (λ s. s ≡ self.old.books.granted) }
        ensures exact { IfSome result (λ _. GrantsExactly self.old shares.old) }
        ensures same { (self.new ≡ self.old) × (shares.new ≡ shares.old) }
    {
        if shares.len() != usize::from(self.books.issued()) {
            return None;
        }
        self.books.compare_all(shares);
        Some(self.books.granted())
    }

    /// What is granted, where all issued shares are handed in: the sum over them. Else gives all back as it was, with
    /// the number of shares that are missing. A dropped share stays missing. Takes no memory.
    pub fn gather(
        self,
        shares: Vec<RateShares<P>>,
    ) -> Result<Sums, (PoolState<P>, Vec<RateShares<P>>, SharesOut)>
        ensures all { IsOk result ↔ (length shares.items ≡ self.books.issued) }
        ensures granted { IfOk result (λ s. s ≡ self.books.granted) }
        ensures sums { IfOk result (λ s. s ≡ sum_of_rates no_rates shares.items) }
        ensures back { IfErr result (λ e. (e.0 ≡ self) × (e.1 ≡ shares)) }
        ensures missing { IfErr result (λ e. length shares.items + e.2.0 ≡ self.books.issued) }
        ensures some { IfErr result (λ e. 0 < e.2.0) }
    {
        let PoolState { books, capacity } = self;
        match books.gather(shares) {
            Ok(granted) => Ok(granted),
            Err((books, shares, missing)) => Err((PoolState { books, capacity }, shares, missing)),
        }
    }
}
