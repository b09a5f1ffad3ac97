//! The rows and the commands of a session.

ghost use Rattle.std.specs.Prelude.{◌≡◌, ◌<◌, ◌≤◌, ◌+◌, ◌==◌, [], ◌∷◌, false, filter, reverse, true, IsOk, OnOk};

use crate::store::Store;
use crate::walk::{Commands, Lane};
use pcef_journal::History;
use pcef_model::{Command, Row};
use std::alloc::{AllocError, Global};
use std::marker::Model;

/// The rows and the commands of a session, each in order: they are added, and never changed. Commands are stored, up to
/// the profile's limit. Rows are stored too, or stand in contracts alone and take no memory.
pub struct Archive {
    commands: Vec<Command>,
    rows: History<Row>,
    store: Option<Store>,
}

// Written out, so that an owner proves one call on each return path.
impl Drop for Archive {
    fn drop(self) {
        let Archive {
            commands: _,
            rows: _,
            store: _,
        } = self;
    }
}

impl Model for Archive {
    ghost use Rattle.pcef_journaled.specs.Archived.{Archived};

    ghost Value = { Archived };

    ghost use Rattle.pcef_journaled.specs.ArchiveView.{StoresAll, archived_of};

    ghost view = { archived_of };

    ghost invariant = { StoresAll };
}

impl Archive {
    /// No commands and no rows, which will be stored. Takes no memory.
    pub fn new(alloc: Global) -> Archive
        ensures rows { result.rows ≡ [] }
        ensures commands { result.commands ≡ [] }
        ensures keeps { result.keeps ≡ true }
    {
        Archive {
            commands: Vec::new(alloc),
            rows: History::new(),
            store: Some(Store::new(alloc)),
        }
    }

    /// No commands and no rows, of which the rows will not be stored. Takes no memory.
    pub fn without_rows(alloc: Global) -> Archive
        ensures rows { result.rows ≡ [] }
        ensures commands { result.commands ≡ [] }
        ensures keeps { result.keeps ≡ false }
    {
        Archive {
            commands: Vec::new(alloc),
            rows: History::new(),
            store: None,
        }
    }

    /// Whether rows are stored.
    pub fn keeps(&self) -> bool
        ensures { result ≡ self.now.keeps }
    {
        self.store.is_some()
    }

    /// Takes memory for `additional` more of each, as far as they are stored. When out of memory, nothing has changed
    /// but the room.
    pub fn reserve(&mut self, additional: usize) -> Result<(), AllocError>
        ensures rows { self.new.rows ≡ self.old.rows }
        ensures commands { self.new.commands ≡ self.old.commands }
        ensures keeps { self.new.keeps ≡ self.old.keeps }
        ensures room { OnOk result (additional ≤ self.new.room) }
        ensures kept { self.old.room ≤ self.new.room }
        ensures enough { additional ≤ self.old.room → IsOk result }
    {
        self.commands.reserve(additional)?;
        match &mut self.store {
            Some(store) => store.reserve(additional),
            None => Ok(()),
        }
    }

    /// Adds a command. Takes no memory.
    pub fn add_command(&mut self, command: Command)
        requires { 0 < self.old.room }
        ensures rows { self.new.rows ≡ self.old.rows }
        ensures commands { self.new.commands ≡ command ∷ self.old.commands }
        ensures keeps { self.new.keeps ≡ self.old.keeps }
        ensures room { self.old.room ≤ self.new.room + 1 }
    {
        self.commands.push_reserved(command);
    }

    /// Adds a row. Takes no memory.
    pub fn add_row(&mut self, row: &Row)
        requires { 0 < self.old.room }
        ensures rows { self.new.rows ≡ row.now ∷ self.old.rows }
        ensures commands { self.new.commands ≡ self.old.commands }
        ensures keeps { self.new.keeps ≡ self.old.keeps }
        ensures room { self.old.room ≤ self.new.room + 1 }
    {
        self.rows = self.rows.then(row);
        if let Some(store) = &mut self.store {
            store.add_row(row);
        }
    }

    /// The rows of a worker, from the oldest on. They have to be stored.
    pub fn lane(&self, worker: u8) -> Lane<'_>
        requires { self.now.keeps ≡ true }
        ensures { result ≡ reverse (filter (λ r. r.worker == worker) self.now.rows) }
    {
        match &self.store {
            Some(store) => store.lane(worker),
            None => unreachable!(),
        }
    }

    /// The commands, from the oldest on.
    pub fn commands(&self) -> Commands<'_>
        ensures { result ≡ reverse self.now.commands }
    {
        Commands::new(self.commands.as_slice())
    }
}
