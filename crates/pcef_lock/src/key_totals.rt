//! The totals of monitoring keys.

ghost use Rattle.std.specs.Prelude.{◌≡◌, ◌<◌, ◌++◌, ◌∷◌, [], length};

use arrayvec::ArrayVec;
use pcef_rule::KeyName;
use std::default::MadeWith;
use std::marker::Model;

/// What was counted for a monitoring key over the whole session, in octets (TS 29.212, clause 4.5.16).
#[derive(Debug, Drop)]
pub struct KeyTotal {
    /// The key.
    pub key: KeyName,
    /// The octets that were counted: those that were reported and those that weren't.
    pub counted: u64,
    /// The octets that were reported.
    pub reported: u64,
    /// The octets that weren't reported.
    pub unreported: u64,
}

/// Makes what lies in the places beyond the last total. Nobody sees it.
#[derive(Clone, Copy)]
pub(crate) struct Vacant;

impl MadeWith<Vacant> for KeyTotal {
    fn made_with(_vacant: Vacant) -> KeyTotal {
        KeyTotal {
            key: KeyName::known("-"),
            counted: 0,
            reported: 0,
            unreported: 0,
        }
    }
}

/// The totals of at most eight keys, in slot order. Contracts see them as a list.
pub struct KeyTotals {
    totals: ArrayVec<KeyTotal, 8, Vacant>,
}

// Written out, so that an owner proves one call on each return path.
impl Drop for KeyTotals {
    fn drop(self) {
        let KeyTotals { totals: _ } = self;
    }
}

impl Model for KeyTotals {
    ghost use Rattle.std.specs.Prelude.{List};
    ghost use Rattle.pcef_lock.specs.declared.key_totals.KeyTotal.{KeyTotal};

    ghost Value = { List KeyTotal };

    ghost view = { λ t. t.totals.items };
}

impl KeyTotals {
    /// No totals yet.
    pub(crate) fn new() -> KeyTotals
        ensures { result ≡ [] }
    {
        KeyTotals {
            totals: ArrayVec::new_in(Vacant),
        }
    }

    /// Adds a total. There have to be fewer than eight.
    pub(crate) fn push(&mut self, total: KeyTotal)
        requires { length self.old < 8 }
        ensures { self.new ≡ self.old ++ total ∷ [] }
    {
        self.totals.push(total);
    }

    /// The totals.
    pub fn as_slice(&self) -> &[KeyTotal]
        ensures { result.now ≡ self.now }
    {
        self.totals.as_slice()
    }
}
