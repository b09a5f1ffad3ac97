//! The two books of a pool.

ghost use Rattle.std.specs.Prelude.{◌≡◌, ◌+◌, ◌-◌, ◌<◌, ◌≤◌, ◌^◌, ◌↔◌, IfOk, IfErr, IsOk, length};
ghost use Rattle.pcef_share.specs.Names.{ledger_at};
ghost use Rattle.pcef_share.specs.Rates.{granted_with, no_rates, sum_of_rates};

use crate::books::SharesOut;
use crate::pooling::Pooling;
use crate::rate_tallies::{RateBlanks, RateShares, RateTallies};
use pcef_rule::Sums;
use std::marker::Model;

/// How many shares of a pool's rates can be issued: one for each of sixty-four sessions.
pub const MAX_RATE_SHARES: usize = 64;

/// The books of a pool: one of the uplink rates that it has granted to its sessions, and one of the downlink rates.
/// Contracts see both, and how many shares were issued. Each book is the exact sum of the shares' rates, in whatever
/// order threads changed them.
pub struct RateBooks<P: Pooling> {
    tallies: RateTallies<P>,
    issued: u8,
}

// Written out, so that an owner proves one call on each return path.
impl<P: Pooling> Drop for RateBooks<P> {
    fn drop(self) {
        let RateBooks {
            tallies: _,
            issued: _,
        } = self;
    }
}

impl<P: Pooling> Model for RateBooks<P> {
    ghost use Rattle.std.specs.Prelude.{◌≡◌, ◌+◌};
    ghost use Rattle.pcef_share.specs.Rates.{RateAccount, no_rates};

    ghost Value = { RateAccount };

    ghost view = { λ b. record { granted = b.tallies.granted; issued = b.issued } };

    ghost invariant = { λ b. (b.tallies.parts + b.issued ≡ 64) × (b.tallies.amounts ≡ no_rates) };
}

impl<P: Pooling> RateBooks<P> {
    /// Books with nothing in them, of which no share is issued yet. The blanks are those that the name stands for.
    /// Takes no memory, and so can't fail.
    pub fn new(blanks: RateBlanks) -> RateBooks<P>
        requires { P.ledger ≡ ledger_at blanks }
        ensures { result ≡ record { granted = no_rates; issued = 0 } }
    {
        RateBooks {
            tallies: blanks.into_tallies(),
            issued: 0,
        }
    }

    /// How many shares were issued, at most 64.
    pub fn issued(&self) -> u8
        ensures issued { result ≡ self.now.issued }
        ensures most { result ≤ 64 }
    {
        self.issued
    }

    /// The rates of all shares.
    pub fn granted(&self) -> Sums
        ensures { result ≡ self.now.granted }
    {
        self.tallies.granted()
    }

    /// A share without rates. At most sixty-four can be issued: that there are fewer is the caller's condition.
    pub fn issue(&mut self) -> RateShares<P>
        requires { self.old.issued < 64 }
        ensures shares { result ≡ no_rates }
        ensures books { self.new ≡ record self.old { issued = self.old.issued + 1 } }
    {
        self.issued += 1;
        self.tallies.issue()
    }

    /// Gives a share other rates, and moves the books by the difference. Each book has to fit 64 bits. No share has
    /// more than its book.
    pub fn change(&mut self, shares: &mut RateShares<P>, rates: Sums)
        requires up { self.old.granted.up - shares.old.up + rates.up < 2 ^ 64 }
        requires down { self.old.granted.down - shares.old.down + rates.down < 2 ^ 64 }
        ensures shares { shares.new ≡ rates }
        ensures books { self.new
            ≡ record self.old { granted = granted_with self.old.granted shares.old rates } }
        ensures up { shares.old.up ≤ self.old.granted.up }
        ensures down { shares.old.down ≤ self.old.granted.down }
    {
        self.tallies.change(shares, rates)
    }

    /// Shows that a share has no more than its books, and changes nothing.
    pub fn compare(&mut self, shares: &mut RateShares<P>)
        ensures same { (self.new ≡ self.old) × (shares.new ≡ shares.old) }
        ensures up { shares.old.up ≤ self.old.granted.up }
        ensures down { shares.old.down ≤ self.old.granted.down }
    {
        self.tallies.compare(shares)
    }

    /// Shows that the rates of the books are the sums over these shares, which are all that were issued, and changes
    /// nothing.
    pub fn compare_all(&mut self, shares: &mut [RateShares<P>])
        requires { length shares.old ≡ self.old.issued }
        ensures same { (self.new ≡ self.old) × (shares.new ≡ shares.old) }
        ensures sums { self.old.granted ≡ sum_of_rates no_rates shares.old }
    {
        self.tallies.compare_all(shares)
    }

    /// The rates of the books, where all issued shares are handed in; they are the sums over the shares. Else the
    /// books and all that was handed in come back as they were, with the number of shares that are missing. Takes no
    /// memory.
    #[tactic(auto, using(crate::proofs::RateSums::sum_more))]
    pub fn gather(
        self,
        shares: Vec<RateShares<P>>,
    ) -> Result<Sums, (RateBooks<P>, Vec<RateShares<P>>, SharesOut)>
        ensures all { IsOk result ↔ (length shares.items ≡ self.issued) }
        ensures granted { IfOk result (λ s. s ≡ self.granted) }
        ensures sums { IfOk result (λ s. s ≡ sum_of_rates no_rates shares.items) }
        ensures back { IfErr result (λ e. (e.0 ≡ self) × (e.1 ≡ shares)) }
        ensures missing { IfErr result (λ e. length shares.items + e.2.0 ≡ self.issued) }
        ensures some { IfErr result (λ e. 0 < e.2.0) }
    {
        let here = shares.len();
        if here < usize::from(self.issued) {
            let missing = SharesOut(self.issued - here as u8);
            return Err((self, shares, missing));
        }
        let RateBooks { tallies, issued: _ } = self;
        let mut tallies = tallies;
        for share in shares {
            share.go_back(&mut tallies);
        }
        Ok(tallies.close())
    }
}
