//! New ledgers.

ghost use Rattle.std.specs.Prelude.{◌≡◌, length};
ghost use Rattle.pcef_share.specs.Amounts.{zeros};
ghost use Rattle.pcef_share.specs.Names.{ledger_at};

use crate::books::MAX_SHARES;
use crate::naming::Naming;
use crate::tallies::Tallies;
use crate::tally::Tally;
use std::marker::Model;
use std::sync::ledger::Blank;

/// Into how many parts a ledger can be cut: one for each share.
const PARTS: u64 = MAX_SHARES as u64;

/// Ten new ledgers, which no session goes by yet: of the eight slots, of the rows and of the commands.
/// Each can be cut into seventeen parts, one for each share. Contracts see the ledgers' names in this
/// order.
pub struct Blanks {
    pub(crate) slot0: Blank,
    pub(crate) slot1: Blank,
    pub(crate) slot2: Blank,
    pub(crate) slot3: Blank,
    pub(crate) slot4: Blank,
    pub(crate) slot5: Blank,
    pub(crate) slot6: Blank,
    pub(crate) slot7: Blank,
    pub(crate) rows: Blank,
    pub(crate) commands: Blank,
}

// Written out, so that an owner proves one call on each return path.
impl Drop for Blanks {
    fn drop(self) {
        let Blanks {
            slot0: _,
            slot1: _,
            slot2: _,
            slot3: _,
            slot4: _,
            slot5: _,
            slot6: _,
            slot7: _,
            rows: _,
            commands: _,
        } = self;
    }
}

impl Model for Blanks {
    ghost use Rattle.std.specs.Prelude.{ℕ, List, [], ◌∷◌, ◌≡◌};

    ghost Value = { List ℕ };

    ghost view = { λ b.
        b.slot0.name ∷ b.slot1.name ∷ b.slot2.name ∷ b.slot3.name ∷ b.slot4.name
        ∷ b.slot5.name ∷ b.slot6.name ∷ b.slot7.name ∷ b.rows.name ∷ b.commands.name ∷ [] };

    ghost invariant = { λ b.
        (b.slot0.parts ≡ 17) × (b.slot1.parts ≡ 17) × (b.slot2.parts ≡ 17) × (b.slot3.parts ≡ 17)
        × (b.slot4.parts ≡ 17) × (b.slot5.parts ≡ 17) × (b.slot6.parts ≡ 17) × (b.slot7.parts ≡ 17)
        × (b.rows.parts ≡ 17) × (b.commands.parts ≡ 17) };
}

impl Blanks {
    /// Ten new ledgers. Takes no memory.
    pub fn new() -> Blanks
        ensures { length result ≡ 10 }
    {
        Blanks {
            slot0: Blank::new(PARTS),
            slot1: Blank::new(PARTS),
            slot2: Blank::new(PARTS),
            slot3: Blank::new(PARTS),
            slot4: Blank::new(PARTS),
            slot5: Blank::new(PARTS),
            slot6: Blank::new(PARTS),
            slot7: Blank::new(PARTS),
            rows: Blank::new(PARTS),
            commands: Blank::new(PARTS),
        }
    }

    /// Books with nothing in them, and all parts of their ledgers.
    pub(crate) fn into_tallies<N: Naming>(self) -> Tallies<N>
        requires { N.ledger ≡ ledger_at self }
        ensures { result ≡ record { totals = zeros; parts = 17; amounts = zeros } }
    {
        let Blanks {
            slot0,
            slot1,
            slot2,
            slot3,
            slot4,
            slot5,
            slot6,
            slot7,
            rows,
            commands,
        } = self;
        Tallies {
            slot0: Tally::new(slot0),
            slot1: Tally::new(slot1),
            slot2: Tally::new(slot2),
            slot3: Tally::new(slot3),
            slot4: Tally::new(slot4),
            slot5: Tally::new(slot5),
            slot6: Tally::new(slot6),
            slot7: Tally::new(slot7),
            rows: Tally::new(rows),
            commands: Tally::new(commands),
        }
    }
}
