//! The tallies of the ten ledgers, which move together.

ghost use Rattle.std.specs.Prelude.{◌≡◌, ◌+◌, ◌<◌, ◌^◌, slice_index};
ghost use Rattle.pcef_share.specs.Amounts.{zeros, plus};

use crate::naming::{Naming, Of};
use crate::shares::Shares;
use crate::tally::Tally;
use std::marker::Model;

/// The number of the ledger of the rows.
pub const ROWS: u8 = 8;

/// The number of the ledger of the commands.
pub const COMMANDS: u8 = 9;

/// A tally of each ledger. All of them keep equally many parts.
#[derive(Drop)]
pub struct Tallies<N: Naming> {
    pub(crate) slot0: Tally<Of<N, 0>>,
    pub(crate) slot1: Tally<Of<N, 1>>,
    pub(crate) slot2: Tally<Of<N, 2>>,
    pub(crate) slot3: Tally<Of<N, 3>>,
    pub(crate) slot4: Tally<Of<N, 4>>,
    pub(crate) slot5: Tally<Of<N, 5>>,
    pub(crate) slot6: Tally<Of<N, 6>>,
    pub(crate) slot7: Tally<Of<N, 7>>,
    pub(crate) rows: Tally<Of<N, 8>>,
    pub(crate) commands: Tally<Of<N, 9>>,
}

impl<N: Naming> Model for Tallies<N> {
    ghost use Rattle.std.specs.Prelude.{◌≡◌, [], ◌∷◌};
    ghost use Rattle.pcef_share.specs.private.Standings.{Standings};

    ghost Value = { Standings };

    ghost view = { λ t. record {
      totals = t.slot0.total ∷ t.slot1.total ∷ t.slot2.total ∷ t.slot3.total ∷ t.slot4.total
          ∷ t.slot5.total ∷ t.slot6.total ∷ t.slot7.total ∷ t.rows.total ∷ t.commands.total ∷ [];
      parts = t.slot0.parts;
      amounts = t.slot0.amount ∷ t.slot1.amount ∷ t.slot2.amount ∷ t.slot3.amount
          ∷ t.slot4.amount ∷ t.slot5.amount ∷ t.slot6.amount ∷ t.slot7.amount
          ∷ t.rows.amount ∷ t.commands.amount ∷ [];
    } };

    ghost invariant = { λ t.
        (t.slot0.parts ≡ t.slot1.parts) × (t.slot0.parts ≡ t.slot2.parts)
        × (t.slot0.parts ≡ t.slot3.parts) × (t.slot0.parts ≡ t.slot4.parts)
        × (t.slot0.parts ≡ t.slot5.parts) × (t.slot0.parts ≡ t.slot6.parts)
        × (t.slot0.parts ≡ t.slot7.parts) × (t.slot0.parts ≡ t.rows.parts)
        × (t.slot0.parts ≡ t.commands.parts) };
}

impl<N: Naming> Tallies<N> {
    /// What was added to each book.
    pub fn totals(&self) -> [u64; 10]
        ensures { result ≡ self.now.totals }
    {
        [
            self.slot0.total(),
            self.slot1.total(),
            self.slot2.total(),
            self.slot3.total(),
            self.slot4.total(),
            self.slot5.total(),
            self.slot6.total(),
            self.slot7.total(),
            self.rows.total(),
            self.commands.total(),
        ]
    }

    /// A share with nothing added to it, and one part less here.
    pub fn issue(&mut self) -> Shares<N>
        requires { (0 < self.old.parts) × (self.old.amounts ≡ zeros) }
        ensures shares { result ≡ zeros }
        ensures totals { self.new.totals ≡ self.old.totals }
        ensures parts { self.new.parts + 1 ≡ self.old.parts }
        ensures amounts { self.new.amounts ≡ zeros }
    {
        Shares {
            slot0: self.slot0.issue(),
            slot1: self.slot1.issue(),
            slot2: self.slot2.issue(),
            slot3: self.slot3.issue(),
            slot4: self.slot4.issue(),
            slot5: self.slot5.issue(),
            slot6: self.slot6.issue(),
            slot7: self.slot7.issue(),
            rows: self.rows.issue(),
            commands: self.commands.issue(),
        }
    }

    /// Adds to the share and to the book of one ledger.
    pub fn add(&mut self, shares: &mut Shares<N>, ledger: u8, amount: u64)
        requires ledger { ledger < 10 }
        requires fits { slice_index self.old.totals ledger + amount < 2 ^ 64 }
        ensures shares { shares.new ≡ plus shares.old ledger amount }
        ensures totals { self.new
            ≡ record self.old { totals = plus self.old.totals ledger amount } }
    {
        match ledger {
            0 => self.slot0.add(&mut shares.slot0, amount),
            1 => self.slot1.add(&mut shares.slot1, amount),
            2 => self.slot2.add(&mut shares.slot2, amount),
            3 => self.slot3.add(&mut shares.slot3, amount),
            4 => self.slot4.add(&mut shares.slot4, amount),
            5 => self.slot5.add(&mut shares.slot5, amount),
            6 => self.slot6.add(&mut shares.slot6, amount),
            7 => self.slot7.add(&mut shares.slot7, amount),
            ROWS => self.rows.add(&mut shares.rows, amount),
            _ => self.commands.add(&mut shares.commands, amount),
        }
    }

    /// The totals where all parts are here: they are what was added to them.
    pub fn close(self) -> [u64; 10]
        requires { self.parts ≡ 17 }
        ensures { (result ≡ self.totals) × (result ≡ self.amounts) }
    {
        [
            self.slot0.close(),
            self.slot1.close(),
            self.slot2.close(),
            self.slot3.close(),
            self.slot4.close(),
            self.slot5.close(),
            self.slot6.close(),
            self.slot7.close(),
            self.rows.close(),
            self.commands.close(),
        ]
    }
}
