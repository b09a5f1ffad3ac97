//! A table with its index.

ghost use Rattle.std.specs.Prelude.{◌≡◌, [], IfOk, IfSome, None, Some, find, map, slice_get, true};
ghost use Rattle.std.specs.Arc.{arc_value};
ghost use Rattle.std.specs.Option.{option_and_then, option_map};
ghost use Rattle.pcef_index.specs.Places.{IsFirstPlace};
ghost use Rattle.pcef_table.specs.SessionSlots.{no_slots, slots_counted};
ghost use Rattle.pcef_table.specs.Sources.{IsKnown, source_fits};
ghost use Rattle.pcef_table.specs.Tables.{IsTable};
ghost use Rattle.pcef_table.specs.Verdicts.{IsPlaced, IsVerdict, verdict_by};

use crate::index::{Index, index_of};
use arrayvec::ArrayVec;
use pcef_catalog::{Detects, Offers};
use pcef_model::Verdict;
use pcef_packet::{Addr, Header};
use pcef_rule::Slot;
use pcef_table::{Table, TableEntry, gate_verdict, is_own, judged_by};
use std::alloc::{AllocError, Global};
use std::marker::Model;
use std::sync::Arc;

/// What a generation decides of a packet.
#[derive(Drop)]
pub struct Decision {
    /// The verdict.
    pub verdict: Verdict,
    /// The place of the rule that decided, where one did: the number of entries before it, 0 to 63.
    pub place: Option<u8>,
    /// The slots that the packet counts for, in slot order.
    pub slots: ArrayVec<Slot, 8>,
}

/// The decision on a packet that no rule decides.
fn undecided(verdict: Verdict) -> Decision
    ensures verdict { result.verdict ≡ verdict }
    ensures place { result.place ≡ None }
    ensures slots { result.slots.items ≡ [] }
{
    Decision {
        verdict,
        place: None,
        slots: ArrayVec::new(),
    }
}

/// A table and the index of its rules, which never change. Tables with equal rules may share an index. Contracts see
/// the table.
pub struct Indexed {
    table: Table,
    index: Arc<Index>,
    /// The session's address, for which the index is made.
    ue: Addr,
    // The index was put on a shelf or taken from one, so there is no need to look for it again.
    is_shelved: bool,
}

// Written out, so that an owner proves one call on each return path.
impl Drop for Indexed {
    fn drop(self) {
        let Indexed {
            table: _,
            index: _,
            ue: _,
            is_shelved: _,
        } = self;
    }
}

impl Model for Indexed {
    ghost use Rattle.std.specs.Arc.{arc_value};
    ghost use Rattle.std.specs.Prelude.{◌≡◌, map};
    ghost use Rattle.pcef_table.specs.Tables.{TableValue};

    ghost Value = { TableValue };

    ghost view = { λ i. i.table };

    ghost invariant = { λ i. arc_value i.index ≡ map (λ e. e.source) i.table.entries };
}

impl Indexed {
    /// The table of a generation without rules, with its index, for a session with the address `ue`. Fails when out of memory.
    pub fn empty(alloc: Global, generation: u32, ue: Addr) -> Result<Indexed, AllocError>
        ensures number { IfOk result (λ i. i.number ≡ generation) }
        ensures entries { IfOk result (λ i. i.entries ≡ []) }
        ensures session { IfOk result (λ i. i.session ≡ no_slots) }
    {
        let table = Table::empty(alloc, generation)?;
        let index = Arc::new(alloc, index_of(alloc, None, Vec::new(alloc), ue)?)?;
        Ok(Indexed {
            table,
            index,
            ue,
            is_shelved: false,
        })
    }

    /// The table with its index, for a session with the address `ue`: packets of other addresses are judged as well, but
    /// slower. When out of memory, the table is dropped.
    pub fn new<C: Offers>(
        alloc: Global,
        table: Table,
        catalog: &C,
        ue: Addr,
    ) -> Result<Indexed, AllocError>
        ensures { IfOk result (λ i. i ≡ table) }
    {
        let index = Arc::new(alloc, Index::build(alloc, &table, catalog, ue)?)?;
        Ok(Indexed {
            table,
            index,
            ue,
            is_shelved: false,
        })
    }

    /// The table of a later generation with its index, which takes over what it can of this one's. When out of memory, the
    /// table is dropped.
    pub fn after(&self, alloc: Global, table: Table) -> Result<Indexed, AllocError>
        ensures { IfOk result (λ i. i ≡ table) }
    {
        let index = Arc::new(alloc, self.index.after(alloc, &table, self.ue)?)?;
        Ok(Indexed {
            table,
            index,
            ue: self.ue,
            is_shelved: false,
        })
    }

    /// A table that has the rules of this one, with the same index. When out of memory, the table is dropped.
    pub fn with_table(&self, table: Table) -> Result<Indexed, AllocError>
        requires { map (λ e. e.source) table.entries ≡ map (λ e. e.source) self.now.entries }
        ensures { IfOk result (λ i. i ≡ table) }
    {
        let index = Arc::try_clone(&self.index)?;
        Ok(Indexed {
            table,
            index,
            ue: self.ue,
            is_shelved: self.is_shelved,
        })
    }

    /// The table.
    pub fn table(&self) -> &Table
        ensures { result.now ≡ self.now }
    {
        &self.table
    }

    /// The index of the table.
    pub fn index(&self) -> &Index
        ensures { result.now ≡ map (λ e. e.source) self.now.entries }
    {
        &self.index
    }

    /// Whether an index looks the packets of its session up.
    pub(crate) fn is_served_by(&self, index: &Index) -> bool {
        index.is_for(self.ue)
    }

    /// Whether the index takes memory that other tables could share, and was on no shelf yet.
    pub(crate) fn is_to_share(&self) -> bool {
        self.index.is_based() && !self.is_shelved
    }

    /// A copy of the index for a shelf, which shares its memory. Fails when out of memory.
    pub(crate) fn shelved(&mut self) -> Result<Arc<Index>, AllocError>
        ensures index { IfOk result (λ i. arc_value i ≡ map (λ e. e.source) self.old.entries) }
        ensures table { self.new ≡ self.old }
    {
        let shelved = Arc::try_clone(&self.index);
        self.is_shelved = shelved.is_ok();
        shelved
    }

    /// Replaces its index by one of a shelf, or keeps its own when out of memory.
    pub(crate) fn share(&mut self, index: &Arc<Index>)
        requires { arc_value index.now ≡ map (λ e. e.source) self.old.entries }
        ensures { self.new ≡ self.old }
    {
        if let Ok(index) = Arc::try_clone(index) {
            self.index = index;
            self.is_shelved = true;
        }
    }

    /// The number of the table's generation.
    pub fn generation(&self) -> u32
        ensures { result ≡ self.now.number }
    {
        self.table.generation()
    }

    /// The generation's verdict on a packet, for a session with this address (TS 23.203, clause 6.2.2), found by the
    /// index. Takes no memory. For callers that want no slots; sessions and workers ask [`Indexed::judged`].
    pub fn classify<C: Detects>(&self, catalog: &C, ue: Addr, header: &Header) -> Verdict
        requires { IsTable (C.offers catalog.now) self.now.entries }
        ensures { IsVerdict (C.offers catalog.now) self.now.entries ue header.now result }
    {
        if !is_own(header, ue) {
            return Verdict::Stray;
        }
        let Some((_, entry)) = self.first_fitting(catalog, &ue, header) else {
            return Verdict::Unmatched;
        };
        let properties = entry.source.properties(catalog);
        gate_verdict(properties, entry.bearer, header.dir)
    }

    /// The first entry that fits, behind its place.
    fn first_fitting<C: Detects>(
        &self,
        catalog: &C,
        ue: &Addr,
        header: &Header,
    ) -> Option<(u8, &TableEntry)>
        requires { IsTable (C.offers catalog.now) self.now.entries }
        ensures known { IfSome result (λ found. IsKnown (C.offers catalog.now) found.1.now.source) }
        ensures first { option_map (λ found. found.1.now) result
            ≡ find (λ e. source_fits (C.offers catalog.now) ue.now header.now e.source) self.now.entries }
        ensures place { IfSome result (λ found. slice_get self.now.entries found.0 ≡ Some found.1.now) }
    {
        self.index.first_fitting(&self.table, catalog, ue, header)
    }

    /// What the generation decides of a packet, for a session with this address (TS 23.203, clause 6.2.2), by one
    /// look-up: the verdict, the place of the rule that it names, and the slots that the packet counts for. Takes no
    /// memory.
    pub fn judged<C: Detects>(&self, catalog: &C, ue: Addr, header: &Header) -> Decision
        requires { IsTable (C.offers catalog.now) self.now.entries }
        ensures verdict { IsVerdict (C.offers catalog.now) self.now.entries ue header.now result.verdict }
        ensures place { IsPlaced (C.offers catalog.now) self.now.entries result.verdict result.place }
        ensures slots { result.slots.items ≡ slots_counted (C.offers catalog.now) self.now result.verdict }
    {
        if !is_own(header, ue) {
            return undecided(Verdict::Stray);
        }
        let Some((place, entry)) = self.first_fitting(catalog, &ue, header) else {
            return undecided(Verdict::Unmatched);
        };
        self.decided_by(catalog, place, entry, header)
    }

    /// What the entry at a place decides of a packet.
    #[inline(always)]
    fn decided_by<C: Offers>(
        &self,
        catalog: &C,
        place: u8,
        entry: &TableEntry,
        header: &Header,
    ) -> Decision
        requires table { IsTable (C.offers catalog.now) self.now.entries }
        requires there { slice_get self.now.entries place ≡ Some entry.now }
        ensures verdict { verdict_by (C.offers catalog.now) header.now.dir entry.now ≡ Some result.verdict }
        ensures place { IsPlaced (C.offers catalog.now) self.now.entries result.verdict result.place }
        ensures slots { result.slots.items ≡ slots_counted (C.offers catalog.now) self.now result.verdict }
    {
        let (verdict, slot) = judged_by(catalog, entry, header.dir);
        let slots = self.table.slots_beside(&verdict, slot);
        Decision {
            verdict,
            place: Some(place),
            slots,
        }
    }

    /// The place of the first entry that fits a packet, where one does: the number of entries before it, 0 to 63. Takes
    /// no memory. [`Indexed::entry_at`] gives the entry, for callers that keep places.
    pub fn first_place<C: Detects>(&self, catalog: &C, ue: Addr, header: &Header) -> Option<u8>
        requires { IsTable (C.offers catalog.now) self.now.entries }
        ensures { IsFirstPlace (C.offers catalog.now) self.now.entries ue header.now result }
    {
        match self.first_fitting(catalog, &ue, header) {
            Some((place, _)) => Some(place),
            None => None,
        }
    }

    /// The entry at a place, behind the place. Takes no memory.
    #[inline(always)]
    pub fn entry_at(&self, place: Option<u8>) -> Option<(u8, &TableEntry)>
        ensures entry { option_map (λ found. found.1.now) result
            ≡ option_and_then (λ n. slice_get self.now.entries n) place }
        ensures place { IfSome result (λ found. slice_get self.now.entries found.0 ≡ Some found.1.now) }
    {
        let place = place?;
        let entry = self.table.entry(usize::from(place))?;
        Some((place, entry))
    }
}
