//! The rows of a worker that wait.

ghost use Rattle.std.specs.Prelude.{◌≡◌, ◌≤◌, ◌<◌, ◌++◌, ◌∷◌, [], ◌↔◌, IfOk, IsTrue, length};
ghost use Rattle.pcef_table.specs.Tables.{IsTable};
ghost use Rattle.pcef_model.specs.declared.verdict.Verdict.TheVariants.{Stray};
ghost use Rattle.pcef_session.specs.Deciding.{Adds, AddsDecided};
ghost use Rattle.pcef_session.specs.Following.{HasSmallRows};

use crate::judging::{RowId, push_decided, push_stray};
use arrayvec::ArrayVec;
use pcef_catalog::Offers;
use pcef_index::Indexed;
use pcef_model::Row;
use pcef_packet::Header;
use pcef_rule::Slot;
use std::alloc::{AllocError, Global};
use std::marker::Model;
use thiserror::Error;

/// The most rows that wait.
pub const MAX_WAITING: usize = 32;

/// As many rows wait as may.
#[derive(Clone, Copy, Debug, PartialEq, Eq, Error)]
#[error("32 rows wait already")]
pub struct BatchFull;

/// A row that waits, with the slots that it counts for.
#[derive(Debug, PartialEq, Eq, Drop)]
pub struct Item {
    /// The row.
    pub row: Row,
    /// The slots that it counts for.
    pub slots: ArrayVec<Slot, 8>,
}

impl Item {
    /// A copy. Takes no memory.
    pub fn copy(&self) -> Item
        ensures { result ≡ self.now }
    {
        Item {
            row: self.row.copy(),
            slots: copy_slots(&self.slots),
        }
    }
}

fn copy_slots(slots: &ArrayVec<Slot, 8>) -> ArrayVec<Slot, 8>
    ensures { result ≡ slots.now }
{
    let mut copy = ArrayVec::new();
    let Ok(()) = copy.try_extend_from_slice(slots.as_slice()) else {
        unreachable!()
    };
    copy
}

/// At most 32 rows of one worker that wait, with memory for all of them.
pub struct Batch {
    items: Vec<Item>,
}

// Written out, so that an owner proves one call on each return path.
impl Drop for Batch {
    fn drop(self) {
        let Batch { items: _ } = self;
    }
}

impl Model for Batch {
    ghost use Rattle.std.specs.Prelude.{List, ◌≤◌, length, vec_capacity};
    ghost use Rattle.pcef_session.specs.declared.batch.Item.{Item};

    ghost Value = { List Item };

    ghost view = { λ b. b.items.items };

    ghost use Rattle.pcef_session.specs.Following.{HasSmallRows};

    ghost invariant = { λ b. (length b.items.items ≤ 32) × (32 ≤ vec_capacity b.items)
        × HasSmallRows b.items.items };
}

impl Batch {
    /// No rows, with memory for 32, or out of memory.
    pub fn new(alloc: Global) -> Result<Batch, AllocError>
        ensures { IfOk result (λ b. b ≡ []) }
    {
        Ok(Batch {
            items: Vec::with_capacity(alloc, MAX_WAITING)?,
        })
    }

    /// How many rows wait.
    pub fn len(&self) -> usize
        ensures len { result ≡ length self.now }
        ensures most { result ≤ 32 }
    {
        self.items.len()
    }

    /// Whether no row waits.
    pub fn is_empty(&self) -> bool
        ensures { IsTrue result ↔ (self.now ≡ []) }
    {
        self.items.is_empty()
    }

    /// The rows that wait.
    pub fn items(&self) -> &[Item]
        ensures items { result.now ≡ self.now }
        ensures octets { HasSmallRows result.now }
        ensures most { length result.now ≤ 32 }
    {
        self.items.as_slice()
    }

    /// Adds the row of a packet that isn't the session's. Takes no memory.
    #[inline(always)]
    pub fn push_stray(&mut self, id: RowId, header: &Header)
        requires { length self.old < 32 }
        ensures { Adds id header.now Stray [] self.old self.new }
    {
        push_stray(&mut self.items, id, header);
    }

    /// Adds the row of a packet of the session, as a table decides, where the entry at this place is the first that fits,
    /// or where none does. Returns the place of the rule that decided, where one did. Takes no memory.
    #[inline(always)]
    pub fn push_decided<C: Offers>(
        &mut self,
        id: RowId,
        header: &Header,
        held: &Indexed,
        catalog: &C,
        place: Option<u8>,
    ) -> Option<u8>
        requires room { length self.old < 32 }
        requires table { IsTable (C.offers catalog.now) held.now.entries }
        ensures { AddsDecided (C.offers catalog.now) held.now place id header.now result self.old self.new }
    {
        push_decided(&mut self.items, id, header, held, catalog, place)
    }

    /// Adds a row. Takes no memory.
    pub fn push(&mut self, item: Item)
        requires { length self.old < 32 }
        ensures { self.new ≡ self.old ++ item ∷ [] }
    {
        self.items.push_reserved(item);
    }

    /// Removes all rows.
    pub fn clear(&mut self)
        ensures { self.new ≡ [] }
    {
        self.items.clear();
    }
}
