//! Shares of the ten ledgers.

ghost use Rattle.std.specs.Prelude.{◌≡◌, ◌+◌, ◌≤◌};
ghost use Rattle.pcef_share.specs.Amounts.{added};

use crate::naming::{Naming, Of};
use crate::tallies::Tallies;
use crate::tally::Part;
use std::marker::Model;

/// A share of each ledger of a session. Contracts see what was added to it, ten amounts: octets of slots 0 to 7, rows,
/// commands. It takes no bytes, since the books keep the sums. A dropped share is missing for good.
pub struct Shares<N: Naming> {
    pub(crate) slot0: Part<Of<N, 0>>,
    pub(crate) slot1: Part<Of<N, 1>>,
    pub(crate) slot2: Part<Of<N, 2>>,
    pub(crate) slot3: Part<Of<N, 3>>,
    pub(crate) slot4: Part<Of<N, 4>>,
    pub(crate) slot5: Part<Of<N, 5>>,
    pub(crate) slot6: Part<Of<N, 6>>,
    pub(crate) slot7: Part<Of<N, 7>>,
    pub(crate) rows: Part<Of<N, 8>>,
    pub(crate) commands: Part<Of<N, 9>>,
}

// Written out, so that an owner proves one call on each return path.
impl<N: Naming> Drop for Shares<N> {
    fn drop(self) {
        let Shares {
            slot0: _,
            slot1: _,
            slot2: _,
            slot3: _,
            slot4: _,
            slot5: _,
            slot6: _,
            slot7: _,
            rows: _,
            commands: _,
        } = self;
    }
}

impl<N: Naming> Model for Shares<N> {
    ghost use Rattle.std.specs.Prelude.{ℕ, List, [], ◌∷◌};

    ghost Value = { List ℕ };

    ghost view = { λ s.
        s.slot0 ∷ s.slot1 ∷ s.slot2 ∷ s.slot3 ∷ s.slot4
        ∷ s.slot5 ∷ s.slot6 ∷ s.slot7 ∷ s.rows ∷ s.commands ∷ [] };
}

impl<N: Naming> Shares<N> {
    /// Goes back to its books, with what was added to it.
    pub(crate) fn go_back(self, tallies: &mut Tallies<N>)
        ensures totals { tallies.new.totals ≡ tallies.old.totals }
        ensures parts { tallies.new.parts ≡ tallies.old.parts + 1 }
        ensures amounts { tallies.new.amounts ≡ added tallies.old.amounts self }
        ensures bound { tallies.new.parts ≤ 17 }
    {
        let Shares {
            slot0,
            slot1,
            slot2,
            slot3,
            slot4,
            slot5,
            slot6,
            slot7,
            rows,
            commands,
        } = self;
        tallies.slot0.take_back(slot0);
        tallies.slot1.take_back(slot1);
        tallies.slot2.take_back(slot2);
        tallies.slot3.take_back(slot3);
        tallies.slot4.take_back(slot4);
        tallies.slot5.take_back(slot5);
        tallies.slot6.take_back(slot6);
        tallies.slot7.take_back(slot7);
        tallies.rows.take_back(rows);
        tallies.commands.take_back(commands);
    }
}
