//! A worker's own list of the rows that it handed over.

ghost use Rattle.std.specs.Prelude.{◌≡◌, ◌<◌, ◌≤◌, ◌+◌, ◌^◌, ◌++◌, ◌∷◌, [], IfSome, IsOk, OnOk, false, is_some, length, true};

use pcef_journal::History;
use pcef_session::Item;
use std::alloc::{AllocError, Global};
use std::marker::Model;

/// How many rows a list counts at most, so that the numbers of those that wait fit too.
const MOST_ROWS: u64 = 1 << 63;

/// The rows that a worker handed over, in order. They are stored, or only counted: contracts see them either way, as a
/// history that takes no memory.
pub struct OwnRows {
    history: History<Item>,
    count: u64,
    stored: Option<Vec<Item>>,
}

// Written out, so that an owner proves one call on each return path.
impl Drop for OwnRows {
    fn drop(self) {
        let OwnRows {
            history: _,
            count: _,
            stored: _,
        } = self;
    }
}

impl Model for OwnRows {
    ghost use Rattle.pcef_lock.specs.HandedIn.{OwnList};

    ghost Value = { OwnList };

    ghost use Rattle.pcef_lock.specs.private.OwnView.{IsOwn, own_list_of};

    ghost view = { own_list_of };

    ghost invariant = { IsOwn };
}

impl OwnRows {
    /// No rows, which will be stored. Takes no memory.
    pub fn new(alloc: Global) -> OwnRows
        ensures items { result.items ≡ [] }
        ensures keeps { result.keeps ≡ true }
    {
        OwnRows {
            history: History::new(),
            count: 0,
            stored: Some(Vec::new(alloc)),
        }
    }

    /// No rows, which will only be counted.
    pub fn counted() -> OwnRows
        ensures items { result.items ≡ [] }
        ensures keeps { result.keeps ≡ false }
    {
        OwnRows {
            history: History::new(),
            count: 0,
            stored: None,
        }
    }

    /// Whether rows are stored.
    pub fn keeps(&self) -> bool
        ensures { result ≡ self.now.keeps }
    {
        self.stored.is_some()
    }

    /// How many rows there are.
    pub fn len(&self) -> u64
        ensures many { result ≡ length self.now.items }
        ensures most { result ≤ 2 ^ 63 }
    {
        self.count
    }

    /// The rows, in order, where they are stored.
    pub fn items(&self) -> Option<&[Item]>
        ensures items { IfSome result (λ rows. rows.now ≡ self.now.items) }
        ensures stored { is_some result ≡ self.now.keeps }
    {
        match &self.stored {
            Some(stored) => Some(stored.as_slice()),
            None => None,
        }
    }

    /// Takes memory for `additional` more rows, where they are stored. When out of memory, nothing has changed but the
    /// room.
    pub fn reserve(&mut self, additional: usize) -> Result<(), AllocError>
        ensures items { self.new.items ≡ self.old.items }
        ensures keeps { self.new.keeps ≡ self.old.keeps }
        ensures room { OnOk result (additional ≤ self.new.room) }
        ensures enough { additional ≤ self.old.room → IsOk result }
    {
        if MOST_ROWS - self.count < additional as u64 {
            return Err(AllocError);
        }
        match &mut self.stored {
            Some(stored) => stored.reserve(additional),
            None => Ok(()),
        }
    }

    /// Adds a row. Takes no memory.
    pub fn add(&mut self, item: &Item)
        requires { 0 < self.old.room }
        ensures items { self.new.items ≡ self.old.items ++ item.now ∷ [] }
        ensures keeps { self.new.keeps ≡ self.old.keeps }
        ensures room { self.old.room ≤ self.new.room + 1 }
    {
        self.history = self.history.then(item);
        self.count += 1;
        if let Some(stored) = &mut self.stored {
            stored.push_reserved(item.copy());
        }
    }
}
