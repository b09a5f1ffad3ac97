//! Where rows are stored.

ghost use Rattle.std.specs.Prelude.{◌≡◌, ◌<◌, ◌≤◌, ◌+◌, ◌==◌, [], ◌∷◌, filter, reverse, IsOk, OnOk};

use crate::kept_row::KeptRow;
use crate::names::Names;
use crate::walk::Lane;
use pcef_model::Row;
use std::alloc::{AllocError, Global};
use std::marker::Model;

/// Rows, in order. They are added and never changed.
///
/// A row takes 72 octets, and no copy of the name of its rule.
pub(crate) struct Store {
    rows: Vec<KeptRow>,
    names: Names,
}

// Written out, so that an owner proves one call on each return path.
impl Drop for Store {
    fn drop(self) {
        let Store { rows: _, names: _ } = self;
    }
}

impl Model for Store {
    ghost use Rattle.pcef_journaled.specs.Archived.{Stored};

    ghost Value = { Stored };

    ghost use Rattle.pcef_journaled.specs.StoreView.{HasNames, stored_of};

    ghost view = { stored_of };

    ghost invariant = { HasNames };
}

impl Store {
    /// No rows. Takes no memory.
    pub(crate) fn new(alloc: Global) -> Store
        ensures { result.rows ≡ [] }
    {
        Store {
            rows: Vec::new(alloc),
            names: Names::new(alloc),
        }
    }

    /// Takes memory for `additional` more rows. When out of memory, nothing has changed but the room.
    pub(crate) fn reserve(&mut self, additional: usize) -> Result<(), AllocError>
        ensures rows { self.new.rows ≡ self.old.rows }
        ensures room { OnOk result (additional ≤ self.new.room) }
        ensures kept { self.old.room ≤ self.new.room }
        ensures enough { additional ≤ self.old.room → IsOk result }
    {
        self.rows.reserve(additional)?;
        self.names.reserve(additional)
    }

    /// Adds a row. Takes no memory.
    pub(crate) fn add_row(&mut self, row: &Row)
        requires { 0 < self.old.room }
        ensures rows { self.new.rows ≡ row.now ∷ self.old.rows }
        ensures room { self.old.room ≤ self.new.room + 1 }
    {
        self.rows.push_reserved(KeptRow::new(row, &mut self.names));
    }

    /// The rows of a worker, from the oldest on.
    pub(crate) fn lane(&self, worker: u8) -> Lane<'_>
        ensures { result ≡ reverse (filter (λ r. r.worker == worker) self.now.rows) }
    {
        Lane::new(self.rows.as_slice(), self.names.as_slice(), worker)
    }
}
