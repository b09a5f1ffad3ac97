//! The ten books of a session.

ghost use Rattle.std.specs.Prelude.{◌≡◌, ◌+◌, ◌<◌, ◌^◌, ◌↔◌, IfOk, IfErr, IsOk, is_some, count_by, slice_index};
ghost use Rattle.pcef_share.specs.Amounts.{zeros, plus, sums, row_ledger, command_ledger};
ghost use Rattle.pcef_share.specs.Names.{ledger_at};

use crate::blanks::Blanks;
use crate::naming::Naming;
use crate::shares::Shares;
use crate::tallies::{COMMANDS, ROWS, Tallies};
use arrayvec::ArrayVec;
use pcef_rule::Slot;
use std::marker::Model;
use thiserror::Error;

/// How many shares can be issued: the desk's, and one for each of sixteen workers.
pub const MAX_SHARES: usize = 17;

/// The books of a session: one for each of its eight slots, one for its rows and one for its commands.
/// Contracts see their totals in this order, and how many shares were issued. Each book is the exact sum
/// of what was added to the shares, in whatever order threads added it.
pub struct Books<N: Naming> {
    tallies: Tallies<N>,
    issued: u8,
}

// Written out, so that an owner proves one call on each return path.
impl<N: Naming> Drop for Books<N> {
    fn drop(self) {
        let Books {
            tallies: _,
            issued: _,
        } = self;
    }
}

impl<N: Naming> Model for Books<N> {
    ghost use Rattle.std.specs.Prelude.{◌≡◌, ◌+◌};
    ghost use Rattle.pcef_share.specs.Amounts.{Account, zeros};

    ghost Value = { Account };

    ghost view = { λ b. record { totals = b.tallies.totals; issued = b.issued } };

    ghost invariant = { λ b. (b.tallies.parts + b.issued ≡ 17) × (b.tallies.amounts ≡ zeros) };
}

/// Where books are gathered: how many of the issued shares weren't handed in, from 1 to 17.
#[derive(Clone, Copy, Debug, PartialEq, Eq, Error)]
#[error("issued shares that were not handed in: {0}")]
pub struct SharesOut(pub u8);

/// How many of these places hold a share.
fn handed_in<N: Naming>(shares: &ArrayVec<Option<Shares<N>>, 17>) -> u8
    ensures { result ≡ count_by is_some shares.now.items }
{
    shares
        .as_slice()
        .iter()
        .filter(|share| share.is_some())
        .count() as u8
}

impl<N: Naming> Books<N> {
    /// Books with nothing in them, of which no share is issued yet. The blanks are those that the name
    /// stands for. Takes no memory, and so can't fail.
    pub fn new(blanks: Blanks) -> Books<N>
        requires { N.ledger ≡ ledger_at blanks }
        ensures { result ≡ record { totals = zeros; issued = 0 } }
    {
        Books {
            tallies: blanks.into_tallies(),
            issued: 0,
        }
    }

    /// How many shares were issued, at most 17. By this a caller knows that one more can be issued.
    pub fn issued(&self) -> u8
        ensures { result ≡ self.now.issued }
    {
        self.issued
    }

    /// What was added to each book: octets of slots 0 to 7, rows, commands. By this a caller knows that a
    /// book has room for more.
    pub fn totals(&self) -> [u64; 10]
        ensures { result ≡ self.now.totals }
    {
        self.tallies.totals()
    }

    /// A share to which nothing was added yet. At most seventeen can be issued: that there are fewer is
    /// the caller's condition.
    pub fn issue(&mut self) -> Shares<N>
        requires { self.old.issued < 17 }
        ensures shares { result ≡ zeros }
        ensures books { self.new ≡ record self.old { issued = self.old.issued + 1 } }
    {
        self.issued += 1;
        self.tallies.issue()
    }

    /// Adds octets to the book of a slot, from 0 to 7, and to a share of it. The book has to fit 64 bits.
    pub fn add(&mut self, shares: &mut Shares<N>, slot: Slot, octets: u64)
        requires slot { slot.0 < 8 }
        requires fits { slice_index self.old.totals slot.0 + octets < 2 ^ 64 }
        ensures shares { shares.new ≡ plus shares.old slot.0 octets }
        ensures books { self.new ≡ record self.old { totals = plus self.old.totals slot.0 octets } }
    {
        self.tallies.add(shares, slot.0, octets)
    }

    /// Adds one to the book of the rows and to a share of it. The book has to fit 64 bits.
    pub fn add_row(&mut self, shares: &mut Shares<N>)
        requires { slice_index self.old.totals row_ledger + 1 < 2 ^ 64 }
        ensures shares { shares.new ≡ plus shares.old row_ledger 1 }
        ensures books { self.new ≡ record self.old { totals = plus self.old.totals row_ledger 1 } }
    {
        self.tallies.add(shares, ROWS, 1)
    }

    /// Adds commands to the book of the commands and to a share of it. The book has to fit 64 bits.
    pub fn add_commands(&mut self, shares: &mut Shares<N>, count: u64)
        requires { slice_index self.old.totals command_ledger + count < 2 ^ 64 }
        ensures shares { shares.new ≡ plus shares.old command_ledger count }
        ensures books { self.new
            ≡ record self.old { totals = plus self.old.totals command_ledger count } }
    {
        self.tallies.add(shares, COMMANDS, count)
    }

    /// The totals of the books, where all issued shares are handed in; they are the sums over the
    /// shares. Else the books and all that was handed in come back as they were, with the number of shares
    /// that are missing. A place may hold none. Takes no memory.
    #[tactic(auto, using(crate::proofs::Sums::sums_some, crate::proofs::Sums::sums_none, crate::proofs::Sums::count_some, crate::proofs::Sums::count_none))]
    pub fn gather(
        self,
        shares: ArrayVec<Option<Shares<N>>, 17>,
    ) -> Result<[u64; 10], (Books<N>, ArrayVec<Option<Shares<N>>, 17>, SharesOut)>
        ensures all { IsOk result ↔ (count_by is_some shares.items ≡ self.issued) }
        ensures totals { IfOk result (λ t. t ≡ self.totals) }
        ensures sums { IfOk result (λ t. t ≡ sums zeros shares.items) }
        ensures back { IfErr result (λ e. (e.0 ≡ self) × (e.1 ≡ shares)) }
        ensures missing { IfErr result (λ e. count_by is_some shares.items + e.2.0 ≡ self.issued) }
        ensures some { IfErr result (λ e. 0 < e.2.0) }
    {
        let here = handed_in(&shares);
        if here < self.issued {
            let missing = SharesOut(self.issued - here);
            return Err((self, shares, missing));
        }
        let Books { tallies, issued: _ } = self;
        let mut tallies = tallies;
        for share in shares {
            if let Some(share) = share {
                share.go_back(&mut tallies);
            }
        }
        Ok(tallies.close())
    }
}
