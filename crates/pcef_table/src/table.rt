//! The table of a generation.

ghost use Rattle.std.specs.Prelude.{◌≡◌, ◌≤◌, ◌<◌, ◌+◌, ◌^◌, [], IfOk, IfSome, find, length, map, set, slice_get};
ghost use Rattle.std.specs.Option.{option_copied, option_map};
ghost use Rattle.pcef_table.specs.SessionSlots.{no_slots, slots_beside, slots_counted, slots_up, with_flag_up};
ghost use Rattle.pcef_table.specs.Sources.{IsKnown, source_fits};
ghost use Rattle.pcef_table.specs.Tables.{IsTable, StaysTable, most_entries, placed, with_counting, without_entry, without_bearer, without_taken};
ghost use Rattle.pcef_table.specs.Verdicts.{IsVerdict, slot_for};

use crate::change::{copy_all, copy_counting, copy_sources, copy_with, copy_without_taken};
use crate::deciding::{first_fitting, gate_verdict, is_own, slot_of};
use crate::entry::{Source, TableEntry};
use crate::session_slots::{Flags, slots_up, slots_with};
use arrayvec::ArrayVec;
use pcef_catalog::{Detects, Offers};
use pcef_model::{Command, Verdict};
use pcef_packet::{Addr, Header};
use pcef_rule::{BearerId, RuleName, Slot};
use std::alloc::{AllocError, Global};
use std::marker::Model;

/// The most entries of a table.
pub const MAX_ENTRIES: usize = 64;

/// One rule generation, which never changes: at most 64 entries in precedence order. The operations
/// that make the next generation take memory for its entries.
pub struct Table {
    alloc: Global,
    entries: Vec<TableEntry>,
    generation: u32,
    session: Flags,
}

// Written out, so that an owner proves one call on each return path.
impl Drop for Table {
    fn drop(self) {
        let Table {
            alloc: _,
            entries: _,
            generation: _,
            session: _,
        } = self;
    }
}

impl Model for Table {
    ghost use Rattle.std.specs.Prelude.{◌≤◌, length};
    ghost use Rattle.pcef_table.specs.Tables.{TableValue};
    ghost use Rattle.pcef_table.specs.Tables.{most_entries};

    ghost Value = { TableValue };

    ghost view = { λ t. record {
      number = t.generation;
      entries = t.entries.items;
      session = t.session;
    } };

    ghost invariant = { λ t. length t.entries.items ≤ most_entries };
}

impl Table {
    /// The table of a generation without rules, in which no key of session level is on.
    pub fn empty(alloc: Global, generation: u32) -> Result<Table, AllocError>
        ensures number { IfOk result (λ t. t.number ≡ generation) }
        ensures entries { IfOk result (λ t. t.entries ≡ []) }
        ensures session { IfOk result (λ t. t.session ≡ no_slots) }
    {
        Ok(Table {
            alloc,
            entries: Vec::new(alloc),
            generation,
            session: [false; 8],
        })
    }

    /// The number of the generation.
    pub fn generation(&self) -> u32
        ensures { result ≡ self.now.number }
    {
        self.generation
    }

    /// The entries, in precedence order.
    pub fn entries(&self) -> &[TableEntry]
        ensures entries { result.now ≡ self.now.entries }
        ensures most { length result.now ≤ most_entries }
    {
        &self.entries
    }

    /// Copies of the rules of the entries, in precedence order. Fails when out of memory.
    pub fn sources(&self, alloc: Global) -> Result<Vec<Source>, AllocError>
        ensures sources { IfOk result (λ v. v.items ≡ map (λ e. e.source) self.now.entries) }
        ensures most { IfOk result (λ v. length v.items ≤ most_entries) }
    {
        copy_sources(alloc, self.entries())
    }

    /// How many entries there are: 64 at most.
    pub fn len(&self) -> usize
        ensures is { result ≡ length self.now.entries }
        ensures few { result ≤ most_entries }
    {
        self.entries.len()
    }

    /// The entry at a place, if there is one.
    pub fn entry(&self, place: usize) -> Option<&TableEntry>
        ensures { option_copied result ≡ slice_get self.now.entries place }
    {
        self.entries.get(place)
    }

    /// The next generation with this entry, which takes the place of one of its name. Fails when out of memory.
    pub fn with<C: Offers>(&self, catalog: &C, entry: TableEntry) -> Result<Table, AllocError>
        requires number { self.now.number + 1 < 2 ^ 32 }
        requires table { IsTable (C.offers catalog.now) self.now.entries }
        requires known { IsKnown (C.offers catalog.now) entry.source }
        requires room { length (placed (C.offers catalog.now) entry self.now.entries)
            ≤ most_entries }
        ensures number { IfOk result (λ t. t.number ≡ self.now.number + 1) }
        ensures entries { IfOk result
            (λ t. t.entries ≡ placed (C.offers catalog.now) entry self.now.entries) }
        ensures session { IfOk result (λ t. t.session ≡ self.now.session) }
        ensures table { IfOk result (λ t. IsTable (C.offers catalog.now) t.entries) }
    {
        let entries = copy_with(self.alloc, catalog, self.entries(), entry)?;
        Ok(Table {
            alloc: self.alloc,
            entries,
            generation: self.generation + 1,
            session: self.session,
        })
    }

    /// The next generation without the entry of this name. Fails when out of memory.
    pub fn without<C: Offers>(&self, catalog: &C, name: &RuleName) -> Result<Table, AllocError>
        requires number { self.now.number + 1 < 2 ^ 32 }
        requires table { IsTable (C.offers catalog.now) self.now.entries }
        ensures number { IfOk result (λ t. t.number ≡ self.now.number + 1) }
        ensures entries { IfOk result
            (λ t. t.entries ≡ without_entry (C.offers catalog.now) name.now self.now.entries) }
        ensures session { IfOk result (λ t. t.session ≡ self.now.session) }
        ensures table { IfOk result (λ t. IsTable (C.offers catalog.now) t.entries) }
    {
        self.without_taken(catalog, &Command::Remove(name.copy()))
    }

    /// The next generation without the entries on this bearer. Fails when out of memory.
    pub fn without_bearer<C: Offers>(
        &self,
        catalog: &C,
        bearer: BearerId,
    ) -> Result<Table, AllocError>
        requires number { self.now.number + 1 < 2 ^ 32 }
        requires table { IsTable (C.offers catalog.now) self.now.entries }
        ensures number { IfOk result (λ t. t.number ≡ self.now.number + 1) }
        ensures entries { IfOk result (λ t. t.entries ≡ without_bearer bearer.0 self.now.entries) }
        ensures session { IfOk result (λ t. t.session ≡ self.now.session) }
        ensures table { IfOk result (λ t. IsTable (C.offers catalog.now) t.entries) }
    {
        self.without_taken(catalog, &Command::LoseBearer(bearer))
    }

    /// The next generation without the entries whose rules a command takes away. Fails when out of memory.
    pub fn without_taken<C: Offers>(
        &self,
        catalog: &C,
        command: &Command,
    ) -> Result<Table, AllocError>
        requires number { self.now.number + 1 < 2 ^ 32 }
        requires table { IsTable (C.offers catalog.now) self.now.entries }
        ensures number { IfOk result (λ t. t.number ≡ self.now.number + 1) }
        ensures entries { IfOk result
            (λ t. t.entries ≡ without_taken (C.offers catalog.now) command.now self.now.entries) }
        ensures session { IfOk result (λ t. t.session ≡ self.now.session) }
        ensures table { IfOk result (λ t. IsTable (C.offers catalog.now) t.entries) }
    {
        let entries = copy_without_taken(self.alloc, catalog, self.entries(), command)?;
        Ok(Table {
            alloc: self.alloc,
            entries,
            generation: self.generation + 1,
            session: self.session,
        })
    }

    /// The next generation, where this slot is counted or not. Fails when out of memory.
    pub fn counting(&self, slot: Slot, on: bool) -> Result<Table, AllocError>
        requires { self.now.number + 1 < 2 ^ 32 }
        ensures number { IfOk result (λ t. t.number ≡ self.now.number + 1) }
        ensures entries { IfOk result
            (λ t. t.entries ≡ map (with_counting slot on) self.now.entries) }
        ensures session { IfOk result (λ t. t.session ≡ self.now.session) }
        ensures table { IfOk result (λ t. StaysTable self.now.entries t.entries) }
    {
        let entries = copy_counting(self.alloc, self.entries(), slot, on)?;
        Ok(Table {
            alloc: self.alloc,
            entries,
            generation: self.generation + 1,
            session: self.session,
        })
    }

    /// The next generation, where every packet that passes counts for this slot or doesn't. Fails when out of memory.
    pub fn counting_session(&self, slot: Slot, on: bool) -> Result<Table, AllocError>
        requires number { self.now.number + 1 < 2 ^ 32 }
        requires slot { slot.0 < 8 }
        ensures number { IfOk result (λ t. t.number ≡ self.now.number + 1) }
        ensures entries { IfOk result (λ t. t.entries ≡ self.now.entries) }
        ensures session { IfOk result (λ t. t.session ≡ set self.now.session slot.0 on) }
    {
        let entries = copy_all(self.alloc, self.entries())?;
        let mut session = self.session;
        session[slot.0 as usize] = on;
        Ok(Table {
            alloc: self.alloc,
            entries,
            generation: self.generation + 1,
            session,
        })
    }

    /// The next generation without rules. Fails when out of memory.
    pub fn cleared(&self) -> Result<Table, AllocError>
        requires { self.now.number + 1 < 2 ^ 32 }
        ensures number { IfOk result (λ t. t.number ≡ self.now.number + 1) }
        ensures entries { IfOk result (λ t. t.entries ≡ []) }
        ensures session { IfOk result (λ t. t.session ≡ self.now.session) }
    {
        Ok(Table {
            alloc: self.alloc,
            entries: Vec::new(self.alloc),
            generation: self.generation + 1,
            session: self.session,
        })
    }

    /// The slots of the keys of session level that are on, in slot order.
    pub fn session_slots(&self) -> ArrayVec<Slot, 8>
        ensures { result.items ≡ slots_up self.now.session }
    {
        slots_up(&self.session)
    }

    /// The first entry that fits a packet, for a session with this address, behind its place: the number of entries
    /// before it, 0 to 63.
    pub fn first_fitting<C: Detects>(
        &self,
        catalog: &C,
        ue: &Addr,
        header: &Header,
    ) -> Option<(u8, &TableEntry)>
        requires { IsTable (C.offers catalog.now) self.now.entries }
        ensures known { IfSome result (λ found. IsKnown (C.offers catalog.now) found.1.now.source) }
        ensures first { option_map (λ found. found.1.now) result
            ≡ find (λ e. source_fits (C.offers catalog.now) ue.now header.now e.source) self.now.entries }
        ensures place { IfSome result (λ found. slice_get self.now.entries found.0 ≡ Some found.1.now) }
    {
        first_fitting(catalog, self.entries(), ue, header)
    }

    /// What the generation decides of a packet, for a session with this address
    /// (TS 23.203, clause 6.2.2). Takes no memory.
    pub fn classify<C: Detects>(&self, catalog: &C, ue: Addr, header: &Header) -> Verdict
        requires { IsTable (C.offers catalog.now) self.now.entries }
        ensures { IsVerdict (C.offers catalog.now) self.now.entries ue header.now result }
    {
        if !is_own(header, ue) {
            return Verdict::Stray;
        }
        match first_fitting(catalog, self.entries(), &ue, header) {
            None => Verdict::Unmatched,
            Some((_, entry)) => {
                let properties = entry.source.properties(catalog);
                gate_verdict(properties, entry.bearer, header.dir)
            }
        }
    }

    /// The slot that a packet with this verdict counts for, if there is one.
    pub fn counts<C: Offers>(&self, catalog: &C, verdict: &Verdict) -> Option<Slot>
        requires { IsTable (C.offers catalog.now) self.now.entries }
        ensures { result ≡ slot_for (C.offers catalog.now) self.now.entries verdict.now }
    {
        match verdict {
            Verdict::Passed { rule, .. } => slot_of(catalog, self.entries(), rule),
            _ => None,
        }
    }

    /// The slots that a packet with this verdict counts for, in slot order: where it passed, the counted slot of its
    /// rule, and those of the keys of session level that are on. Takes no memory.
    pub fn slots_counted<C: Offers>(&self, catalog: &C, verdict: &Verdict) -> ArrayVec<Slot, 8>
        requires { IsTable (C.offers catalog.now) self.now.entries }
        ensures { result.items ≡ slots_counted (C.offers catalog.now) self.now verdict.now }
    {
        self.slots_beside(verdict, self.counts(catalog, verdict))
    }

    /// The slots that a packet counts for which a rule with this counted slot let pass, in slot order. Takes no memory.
    #[inline(always)]
    pub fn slots_where_passed(&self, slot: Option<Slot>) -> ArrayVec<Slot, 8>
        ensures { result.items ≡ slots_up (with_flag_up slot self.now.session) }
    {
        slots_with(slot, &self.session)
    }

    /// The slots that a packet with this verdict counts for, in slot order. The given slot is that of the rule that let
    /// it pass. Takes no memory.
    pub fn slots_beside(&self, verdict: &Verdict, slot: Option<Slot>) -> ArrayVec<Slot, 8>
        ensures { result.items ≡ slots_beside slot self.now.session verdict.now }
    {
        match verdict {
            Verdict::Passed { .. } => self.slots_where_passed(slot),
            _ => ArrayVec::new(),
        }
    }
}
