//! The tallies of a pool's two ledgers, which move together, and shares of them.

ghost use Rattle.std.specs.Prelude.{◌≡◌, ◌+◌, ◌-◌, ◌<◌, ◌≤◌, ◌^◌, length};
ghost use Rattle.pcef_share.specs.Names.{ledger_at};
ghost use Rattle.pcef_share.specs.Rates.{granted_with, no_rates, sum_of_rates, with_rates};

use crate::pooling::{OfPool, Pooling};
use crate::rate_books::MAX_RATE_SHARES;
use crate::tally::{Portion, Tally};
use pcef_rule::Sums;
use std::marker::Model;
use std::sync::ledger::Blank;

/// Into how many parts a ledger can be cut: one for each share.
const PARTS: u64 = MAX_RATE_SHARES as u64;

/// Two new ledgers, which no pool goes by yet: of uplink rates and of downlink rates. Each can be cut into sixty-four
/// parts, one for each share. Contracts see the ledgers' names in this order.
pub struct RateBlanks {
    up: Blank,
    down: Blank,
}

// Written out, so that an owner proves one call on each return path.
impl Drop for RateBlanks {
    fn drop(self) {
        let RateBlanks { up: _, down: _ } = self;
    }
}

impl Model for RateBlanks {
    ghost use Rattle.std.specs.Prelude.{ℕ, List, [], ◌∷◌, ◌≡◌};

    ghost Value = { List ℕ };

    ghost view = { λ b. b.up.name ∷ b.down.name ∷ [] };

    ghost invariant = { λ b. (b.up.parts ≡ 64) × (b.down.parts ≡ 64) };
}

impl RateBlanks {
    /// Two new ledgers. Takes no memory.
    pub fn new() -> RateBlanks
        ensures { length result ≡ 2 }
    {
        RateBlanks {
            up: Blank::new(PARTS),
            down: Blank::new(PARTS),
        }
    }

    /// Books with nothing in them, and all parts of their ledgers.
    pub(crate) fn into_tallies<P: Pooling>(self) -> RateTallies<P>
        requires { P.ledger ≡ ledger_at self }
        ensures { result ≡ record { granted = no_rates; parts = 64; amounts = no_rates } }
    {
        let RateBlanks { up, down } = self;
        RateTallies {
            up: Tally::new(up),
            down: Tally::new(down),
        }
    }
}

/// A share of the rates of a pool: what a session has of them. Contracts see its rates. A dropped share is missing for
/// good.
pub struct RateShares<P: Pooling> {
    up: Portion<OfPool<P, 0>>,
    down: Portion<OfPool<P, 1>>,
}

// Written out, so that an owner proves one call on each return path.
impl<P: Pooling> Drop for RateShares<P> {
    fn drop(self) {
        let RateShares { up: _, down: _ } = self;
    }
}

impl<P: Pooling> Model for RateShares<P> {
    ghost use Rattle.pcef_rule.specs.declared.quantity.Sums.{Sums};

    ghost Value = { Sums };

    ghost view = { λ s. record { up = s.up; down = s.down } };
}

impl<P: Pooling> RateShares<P> {
    /// Its rates.
    pub fn held(&self) -> Sums
        ensures { result ≡ self.now }
    {
        Sums {
            up: self.up.held(),
            down: self.down.held(),
        }
    }

    /// Goes back to its books, with its rates.
    pub(crate) fn go_back(self, tallies: &mut RateTallies<P>)
        ensures granted { tallies.new.granted ≡ tallies.old.granted }
        ensures parts { tallies.new.parts ≡ tallies.old.parts + 1 }
        ensures amounts { tallies.new.amounts ≡ with_rates tallies.old.amounts self }
        ensures bound { tallies.new.parts ≤ 64 }
    {
        let RateShares { up, down } = self;
        tallies.up.take_portion_back(up);
        tallies.down.take_portion_back(down);
    }
}

/// A tally of each of the two ledgers. Both keep equally many parts.
#[derive(Drop)]
pub struct RateTallies<P: Pooling> {
    up: Tally<OfPool<P, 0>>,
    down: Tally<OfPool<P, 1>>,
}

impl<P: Pooling> Model for RateTallies<P> {
    ghost use Rattle.std.specs.Prelude.{◌≡◌};
    ghost use Rattle.pcef_share.specs.private.Standings.{RateStandings};

    ghost Value = { RateStandings };

    ghost view = { λ t. record {
      granted = record { up = t.up.total; down = t.down.total };
      parts = t.up.parts;
      amounts = record { up = t.up.amount; down = t.down.amount };
    } };

    ghost invariant = { λ t. t.up.parts ≡ t.down.parts };
}

impl<P: Pooling> RateTallies<P> {
    /// The rates of all shares.
    pub fn granted(&self) -> Sums
        ensures { result ≡ self.now.granted }
    {
        Sums {
            up: self.up.total(),
            down: self.down.total(),
        }
    }

    /// A share without rates, and one part less here.
    pub fn issue(&mut self) -> RateShares<P>
        requires { (0 < self.old.parts) × (self.old.amounts ≡ no_rates) }
        ensures shares { result ≡ no_rates }
        ensures granted { self.new.granted ≡ self.old.granted }
        ensures parts { self.new.parts + 1 ≡ self.old.parts }
        ensures amounts { self.new.amounts ≡ no_rates }
    {
        RateShares {
            up: self.up.issue_portion(),
            down: self.down.issue_portion(),
        }
    }

    /// Gives a share other rates, and moves the books by the difference.
    pub fn change(&mut self, shares: &mut RateShares<P>, rates: Sums)
        requires up { self.old.granted.up - shares.old.up + rates.up < 2 ^ 64 }
        requires down { self.old.granted.down - shares.old.down + rates.down < 2 ^ 64 }
        ensures shares { shares.new ≡ rates }
        ensures granted { self.new
            ≡ record self.old { granted = granted_with self.old.granted shares.old rates } }
        ensures up { shares.old.up ≤ self.old.granted.up }
        ensures down { shares.old.down ≤ self.old.granted.down }
    {
        self.up.change(&mut shares.up, rates.up);
        self.down.change(&mut shares.down, rates.down);
    }

    /// Shows that a share has no more than its books, and changes nothing.
    pub fn compare(&mut self, shares: &mut RateShares<P>)
        ensures same { (self.new ≡ self.old) × (shares.new ≡ shares.old) }
        ensures up { shares.old.up ≤ self.old.granted.up }
        ensures down { shares.old.down ≤ self.old.granted.down }
    {
        self.up.compare(&mut shares.up);
        self.down.compare(&mut shares.down);
    }

    /// Shows that the books have the rates that came back and those of these shares together, where no other share is
    /// out, and changes nothing. Each share lends its part until the others were compared.
    pub fn compare_all(&mut self, shares: &mut [RateShares<P>])
        requires { self.old.parts + length shares.old ≡ 64 }
        ensures same { (self.new ≡ self.old) × (shares.new ≡ shares.old) }
        ensures sum { self.old.granted ≡ sum_of_rates self.old.amounts shares.old }
    {
        self.up.compare_kept();
        self.down.compare_kept();
        if let Some((first, rest)) = shares.split_first_mut() {
            let held = first.held();
            first.up.part.share.give(&mut self.up.kept, 1, held.up);
            first
                .down
                .part
                .share
                .give(&mut self.down.kept, 1, held.down);
            self.compare_all(rest);
            self.up.kept.give(&mut first.up.part.share, 1, held.up);
            self.down
                .kept
                .give(&mut first.down.part.share, 1, held.down);
        }
    }

    /// The rates of all shares, where all parts are here: they are what came back with them.
    pub fn close(self) -> Sums
        requires { self.parts ≡ 64 }
        ensures { (result ≡ self.granted) × (result ≡ self.amounts) }
    {
        let RateTallies { up, down } = self;
        Sums {
            up: up.close(),
            down: down.close(),
        }
    }
}
