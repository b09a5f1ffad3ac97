//! The workers' own lists, as they are gathered.

ghost use Rattle.std.specs.Prelude.{◌≡◌, ◌<◌, ◌++◌, ◌∷◌, [], length};

use crate::key_totals::Vacant;
use crate::leaving::Leaving;
use crate::own_rows::OwnRows;
use arrayvec::ArrayVec;
use std::default::MadeWith;
use std::marker::Model;

/// What a worker handed in: the rows that it handed over, by its own list, and how it left.
pub struct WorkerList {
    /// The number of the worker.
    pub worker: u8,
    /// The rows that it handed over, in order.
    pub rows: OwnRows,
    /// How it left.
    pub leaving: Leaving,
}

// Written out, so that an owner proves one call on each return path.
impl Drop for WorkerList {
    fn drop(self) {
        let WorkerList {
            worker: _,
            rows: _,
            leaving: _,
        } = self;
    }
}

impl Model for WorkerList {
    ghost use Rattle.pcef_lock.specs.HandedIn.{HandedIn};

    ghost Value = { HandedIn };

    ghost view = { λ l. record {
      worker = l.worker;
      items = l.rows.items;
      keeps = l.rows.keeps;
      leaving = l.leaving;
    } };
}

impl MadeWith<Vacant> for WorkerList {
    fn made_with(_vacant: Vacant) -> WorkerList {
        WorkerList {
            worker: 0,
            rows: OwnRows::counted(),
            leaving: Leaving::Finished(0),
        }
    }
}

/// The lists of at most sixteen workers, as they were handed in. Contracts see them as a list.
pub struct WorkerLists {
    lists: ArrayVec<WorkerList, 16, Vacant>,
}

// Written out, so that an owner proves one call on each return path.
impl Drop for WorkerLists {
    fn drop(self) {
        let WorkerLists { lists: _ } = self;
    }
}

impl Model for WorkerLists {
    ghost use Rattle.std.specs.Prelude.{List};
    ghost use Rattle.pcef_lock.specs.HandedIn.{HandedIn};

    ghost Value = { List HandedIn };

    ghost view = { λ l. l.lists.items };
}

impl WorkerLists {
    /// No lists yet.
    pub(crate) fn new() -> WorkerLists
        ensures { result ≡ [] }
    {
        WorkerLists {
            lists: ArrayVec::new_in(Vacant),
        }
    }

    /// Adds a list. There have to be fewer than sixteen.
    pub(crate) fn push(&mut self, list: WorkerList)
        requires { length self.old < 16 }
        ensures { self.new ≡ self.old ++ list ∷ [] }
    {
        self.lists.push(list);
    }

    /// The lists.
    pub fn as_slice(&self) -> &[WorkerList]
        ensures { result.now ≡ self.now }
    {
        self.lists.as_slice()
    }
}
