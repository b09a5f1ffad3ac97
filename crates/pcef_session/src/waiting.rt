//! The rows of a worker that wait, for which memory is taken as they come.

ghost use Rattle.std.specs.Prelude.{◌≡◌, ◌≤◌, ◌<◌, [], IfOk, OnErr, OnOk, length};
ghost use Rattle.pcef_table.specs.Tables.{IsTable};
ghost use Rattle.pcef_model.specs.declared.verdict.Verdict.TheVariants.{Stray};
ghost use Rattle.pcef_session.specs.Deciding.{Adds, AddsDecided};
ghost use Rattle.pcef_session.specs.Following.{HasSmallRows};

use crate::batch::Item;
use crate::judging::{RowId, push_decided, push_stray};
use pcef_catalog::Offers;
use pcef_index::Indexed;
use pcef_packet::Header;
use std::alloc::{AllocError, Global};
use std::marker::Model;

/// How many places for rows are kept while none waits.
const FEW: usize = 4;

/// At most 32 rows of one worker that wait, for which memory is taken as they come.
pub struct WaitingRows {
    items: Vec<Item>,
}

// Written out, so that an owner proves one call on each return path.
impl Drop for WaitingRows {
    fn drop(self) {
        let WaitingRows { items: _ } = self;
    }
}

impl Model for WaitingRows {
    ghost use Rattle.std.specs.Prelude.{List, ◌≤◌, length};
    ghost use Rattle.pcef_session.specs.declared.batch.Item.{Item};

    ghost Value = { List Item };

    ghost view = { λ w. w.items.items };

    ghost use Rattle.pcef_session.specs.Following.{HasSmallRows};

    ghost invariant = { λ w. (length w.items.items ≤ 32) × HasSmallRows w.items.items };
}

impl WaitingRows {
    /// No rows. Takes no memory.
    pub fn new(alloc: Global) -> WaitingRows
        ensures { result ≡ [] }
    {
        WaitingRows {
            items: Vec::new(alloc),
        }
    }

    /// How many rows wait.
    pub fn len(&self) -> usize
        ensures len { result ≡ length self.now }
        ensures most { result ≤ 32 }
    {
        self.items.len()
    }

    /// The rows that wait.
    pub fn items(&self) -> &[Item]
        ensures items { result.now ≡ self.now }
        ensures octets { HasSmallRows result.now }
    {
        self.items.as_slice()
    }

    /// Adds the row of a packet that isn't the session's, or changes nothing where there is no memory for it.
    pub fn push_stray(&mut self, id: RowId, header: &Header) -> Result<(), AllocError>
        requires { length self.old < 32 }
        ensures added { OnOk result (Adds id header.now Stray [] self.old self.new) }
        ensures same { OnErr result (self.new ≡ self.old) }
    {
        self.items.reserve(1)?;
        push_stray(&mut self.items, id, header);
        Ok(())
    }

    /// Adds the row of a packet of the session, as a table decides, where the entry at this place is the first that fits,
    /// or where none does; or changes nothing where there is no memory for it. Returns the place of the rule that
    /// decided, where one did.
    #[inline(always)]
    pub fn push_decided<C: Offers>(
        &mut self,
        id: RowId,
        header: &Header,
        held: &Indexed,
        catalog: &C,
        place: Option<u8>,
    ) -> Result<Option<u8>, AllocError>
        requires room { length self.old < 32 }
        requires table { IsTable (C.offers catalog.now) held.now.entries }
        ensures added { IfOk result (λ decided.
            AddsDecided (C.offers catalog.now) held.now place id header.now decided self.old self.new) }
        ensures same { OnErr result (self.new ≡ self.old) }
    {
        self.items.reserve(1)?;
        Ok(push_decided(&mut self.items, id, header, held, catalog, place))
    }

    /// Removes all rows, and gives back the memory of all but a few.
    pub fn clear(&mut self)
        ensures { self.new ≡ [] }
    {
        self.items.clear();
        self.items.shrink_to(FEW);
    }
}
