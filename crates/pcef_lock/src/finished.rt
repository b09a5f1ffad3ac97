//! What workers hand in when they have left.

ghost use Rattle.std.specs.Prelude.{◌≡◌, IfSome, is_some, length};
ghost use Rattle.pcef_share.specs.Amounts.{zeros};
ghost use Rattle.pcef_handover.specs.Counting.{with_items};
ghost use Rattle.pcef_lock.specs.HandedIn.{abandoned_by};

use crate::leaving::{Departure, Leaving};
use crate::own_rows::OwnRows;
use crate::worker_lists::WorkerList;
use pcef_session::Item;
use pcef_share::{Naming, Shares};
use std::marker::Model;

/// What a worker that left hands in: the rows that it handed over, by its own list, and what they count.
pub struct Finished<N: Naming> {
    departure: Departure<N>,
    rows: OwnRows,
    shares: Shares<N>,
}

// Written out, so that an owner proves one call on each return path.
impl<N: Naming> Drop for Finished<N> {
    fn drop(self) {
        let Finished {
            departure: _,
            rows: _,
            shares: _,
        } = self;
    }
}

impl<N: Naming> Model for Finished<N> {
    ghost use Rattle.std.specs.Prelude.{◌≡◌};
    ghost use Rattle.pcef_share.specs.Amounts.{zeros};
    ghost use Rattle.pcef_handover.specs.Counting.{with_items};
    ghost use Rattle.pcef_lock.specs.HandedIn.{HandedIn};

    ghost Value = { HandedIn };

    ghost view = { λ f. record {
      worker = f.departure.worker;
      items = f.rows.items;
      keeps = f.rows.keeps;
      leaving = f.departure.leaving;
    } };

    ghost invariant = { λ f. f.shares ≡ with_items zeros f.rows.items };
}

impl<N: Naming> Finished<N> {
    /// What a worker hands in that left in this way. Its shares count these rows.
    pub fn new(departure: Departure<N>, rows: OwnRows, shares: Shares<N>) -> Finished<N>
        requires { shares ≡ with_items zeros rows.items }
        ensures { result ≡ record {
          worker = departure.worker;
          items = rows.items;
          keeps = rows.keeps;
          leaving = departure.leaving;
        } }
    {
        Finished {
            departure,
            rows,
            shares,
        }
    }

    /// The number of the worker.
    pub fn worker(&self) -> u8
        ensures { result ≡ self.now.worker }
    {
        self.departure.worker()
    }

    /// How many rows it handed over.
    pub fn handed_over(&self) -> u64
        ensures { result ≡ length self.now.items }
    {
        self.rows.len()
    }

    /// Whether the rows that it handed over are stored.
    pub fn keeps_rows(&self) -> bool
        ensures { result ≡ self.now.keeps }
    {
        self.rows.keeps()
    }

    /// The rows that it handed over, in order, each with the slots that it counts for, where they are stored.
    pub fn items(&self) -> Option<&[Item]>
        ensures items { IfSome result (λ rows. rows.now ≡ self.now.items) }
        ensures stored { is_some result ≡ self.now.keeps }
    {
        self.rows.items()
    }

    /// How it left.
    pub fn leaving(&self) -> Leaving
        ensures { result ≡ self.now.leaving }
    {
        self.departure.leaving()
    }

    /// How many rows waited when it left, and were abandoned.
    pub fn abandoned(&self) -> u8
        ensures { result ≡ abandoned_by self.now }
    {
        match self.departure.leaving() {
            Leaving::Finished(_) => 0,
            Leaving::Abandoned(rows) => rows,
        }
    }

    /// Its list, and what that counts.
    pub(crate) fn into_parts(self) -> (WorkerList, Shares<N>)
        ensures list { result.0 ≡ self }
        ensures shares { result.1 ≡ with_items zeros self.items }
    {
        let Finished {
            departure,
            rows,
            shares,
        } = self;
        let list = WorkerList {
            worker: departure.worker(),
            rows,
            leaving: departure.leaving(),
        };
        (list, shares)
    }
}
