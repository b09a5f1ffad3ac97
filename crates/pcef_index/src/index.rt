//! The index of a table.

ghost use Rattle.std.specs.Prelude.{◌≡◌, ◌≤◌, ◌<◌, ◌++◌, ◌∷◌, [], map, length, slice_get, IfOk, IfSome, Some, find, if◌then◌else◌};
ghost use Rattle.std.specs.Option.{option_map};
ghost use Rattle.pcef_table.specs.Sources.{IsKnown, source_fits};
ghost use Rattle.pcef_table.specs.Tables.{IsTable};
ghost use Rattle.pcef_table.specs.Verdicts.{IsVerdict};
ghost use Rattle.pcef_index.specs.Candidates.{is_candidate, places_from};
ghost use Rattle.pcef_index.specs.private.Indexes.{IsBased};

use crate::based::{Based, line_count};
use crate::candidates::is_candidate;
use arrayvec::ArrayVec;
use pcef_catalog::{Detects, Offers};
use pcef_model::Verdict;
use pcef_packet::{Addr, Header};
use pcef_table::{Source, Table, TableEntry, gate_verdict, is_own};
use std::alloc::{AllocError, Global};
use std::marker::Model;

/// Up to this many filters are searched one after the other.
const MOST_SEARCHED: usize = 6;

/// The compiled index of a table. Contracts see the rules of the table's entries, in order. It keeps copies of the
/// rules, which share their filters, so that its answers are about these rules, whatever becomes of the table. A few
/// filters are searched one after the other, and have no base.
pub struct Index {
    sources: Vec<Source>,
    based: Option<Based>,
}

// Written out, so that an owner proves one call on each return path.
impl Drop for Index {
    fn drop(self) {
        let Index {
            sources: _,
            based: _,
        } = self;
    }
}

impl Model for Index {
    ghost use Rattle.std.specs.Prelude.{List};
    ghost use Rattle.pcef_table.specs.declared.entry.Source.{Source};
    ghost use Rattle.pcef_index.specs.private.Indexes.{IsIndexed};

    ghost Value = { List Source };

    ghost view = { λ i. i.sources.items };

    ghost invariant = { λ i. IsIndexed i.sources.items i.based };
}

/// Appends a place if its rule passes.
fn push_if(places: &mut ArrayVec<u8, 64>, place: u8, passes: bool)
    requires { length places.old.items < 64 }
    ensures { places.new.items ≡ places.old.items ++ (if passes then place ∷ [] else []) }
{
    if passes {
        places.push(place);
    }
}

/// Whether a search through the filters of rules is as fast as their sieve.
fn are_few(sources: &[Source]) -> bool {
    let mut left = MOST_SEARCHED;
    for source in sources {
        let count = line_count(source);
        if count > left {
            return false;
        }
        left -= count;
    }
    true
}

/// Whether a predefined rule is among some. Its closure is called for no packet that an earlier rule decides: one base
/// looks at lines in their order, where two are both asked.
fn call_closures(sources: &[Source]) -> bool {
    for source in sources {
        if let Source::Predefined(_) = source {
            return true;
        }
    }
    false
}

/// The rules with a base, if they have many filters: that of older rules, where most of these are among them.
fn based_if_many(
    alloc: Global,
    older: Option<&Based>,
    sources: &[Source],
    ue: Addr,
) -> Result<Option<Based>, AllocError>
    requires { length sources.now ≤ 64 }
    ensures { IfOk result (λ b. IfSome b (IsBased sources.now)) }
{
    if are_few(sources) {
        return Ok(None);
    }
    let based = match older {
        None => Based::new(alloc, sources, ue)?,
        Some(older) => Based::after(alloc, older, sources, ue)?,
    };
    Ok(Some(based))
}

/// The index of some rules, at most as many as a table has. It takes over what it can of an older one.
pub(crate) fn index_of(
    alloc: Global,
    older: Option<&Index>,
    sources: Vec<Source>,
    ue: Addr,
) -> Result<Index, AllocError>
    requires { length sources.items ≤ 64 }
    ensures { IfOk result (λ i. i ≡ sources.items) }
{
    let older = match older {
        Some(index) if !call_closures(&sources) => index.based.as_ref(),
        _ => None,
    };
    let based = based_if_many(alloc, older, &sources, ue)?;
    Ok(Index { sources, based })
}

/// The first entry of a table that fits, behind its place, by the bases of its rules.
fn first_based<'a, C: Detects>(
    based: &Based,
    table: &'a Table,
    catalog: &C,
    ue: &Addr,
    header: &Header,
) -> Option<(u8, &'a TableEntry)>
    requires table { IsTable (C.offers catalog.now) table.now.entries }
    requires based { IsBased (map (λ e. e.source) table.now.entries) based.now }
    ensures known { IfSome result (λ found. IsKnown (C.offers catalog.now) found.1.now.source) }
    ensures first { option_map (λ found. found.1.now) result
        ≡ find (λ e. source_fits (C.offers catalog.now) ue.now header.now e.source) table.now.entries }
    ensures place { IfSome result (λ found. slice_get table.now.entries found.0 ≡ Some found.1.now) }
{
    let Some(place) = based.first_place(catalog, ue, header) else {
        return None;
    };
    let Some(entry) = table.entry(usize::from(place)) else {
        return None;
    };
    Some((place, entry))
}

impl Index {
    /// The index of a table, for a session with the address `ue`, or out of memory. Packets of other addresses are judged as
    /// well, but slower. The catalog isn't read: the closure of a predefined rule is called as packets come, for each that
    /// no earlier rule decides.
    pub fn build<C: Offers>(
        alloc: Global,
        table: &Table,
        _catalog: &C,
        ue: Addr,
    ) -> Result<Index, AllocError>
        ensures { IfOk result (λ i. i ≡ map (λ e. e.source) table.now.entries) }
    {
        index_of(alloc, None, table.sources(alloc)?, ue)
    }

    /// The index of a table that comes after this one's, or out of memory. Where most rules are those of an older table,
    /// it looks these up as that table does, and takes memory for the others alone.
    pub(crate) fn after(&self, alloc: Global, table: &Table, ue: Addr) -> Result<Index, AllocError>
        ensures { IfOk result (λ i. i ≡ map (λ e. e.source) table.now.entries) }
    {
        index_of(alloc, Some(self), table.sources(alloc)?, ue)
    }

    /// The rules, in order.
    pub(crate) fn sources(&self) -> &[Source]
        ensures { result.now ≡ self.now }
    {
        &self.sources
    }

    /// Whether the packets of a session with this address are looked up by its bases, if it has any.
    pub(crate) fn is_for(&self, ue: Addr) -> bool {
        match &self.based {
            None => true,
            Some(based) => based.is_for(ue),
        }
    }

    /// Whether there is a base. Its sieves take memory for each 64 filters.
    pub(crate) fn is_based(&self) -> bool {
        self.based.is_some()
    }

    /// The first entry of the table that fits, behind its place.
    pub(crate) fn first_fitting<'a, C: Detects>(
        &self,
        table: &'a Table,
        catalog: &C,
        ue: &Addr,
        header: &Header,
    ) -> Option<(u8, &'a TableEntry)>
        requires table { IsTable (C.offers catalog.now) table.now.entries }
        requires index { self.now ≡ map (λ e. e.source) table.now.entries }
        ensures known { IfSome result (λ found. IsKnown (C.offers catalog.now) found.1.now.source) }
        ensures first { option_map (λ found. found.1.now) result
            ≡ find (λ e. source_fits (C.offers catalog.now) ue.now header.now e.source) table.now.entries }
        ensures place { IfSome result (λ found. slice_get table.now.entries found.0 ≡ Some found.1.now) }
    {
        match &self.based {
            None => table.first_fitting(catalog, ue, header),
            Some(based) => first_based(based, table, catalog, ue, header),
        }
    }

    /// The generation's verdict on a packet, for a session with this address (TS 23.203, clause 6.2.2). The table has
    /// the rules that the index was built of. Takes no memory.
    pub fn classify<C: Detects>(
        &self,
        table: &Table,
        catalog: &C,
        ue: Addr,
        header: &Header,
    ) -> Verdict
        requires table { IsTable (C.offers catalog.now) table.now.entries }
        requires index { self.now ≡ map (λ e. e.source) table.now.entries }
        ensures { IsVerdict (C.offers catalog.now) table.now.entries ue header.now result }
    {
        if !is_own(header, ue) {
            return Verdict::Stray;
        }
        match self.first_fitting(table, catalog, &ue, header) {
            None => Verdict::Unmatched,
            Some((_, entry)) => {
                let properties = entry.source.properties(catalog);
                gate_verdict(properties, entry.bearer, header.dir)
            }
        }
    }

    /// The places of the entries that may fit where port lists are ignored, in table order: those of predefined rules,
    /// and of dynamic ones with a filter that matches without its port lists.
    pub fn candidates(&self, ue: Addr, header: &Header) -> ArrayVec<u8, 64>
        ensures { result.items ≡ places_from (is_candidate ue header.now) 0 self.now }
    {
        let mut places = ArrayVec::new();
        for place in 0..self.sources.len() {
            let stays = is_candidate(&self.sources[place], ue, header);
            push_if(&mut places, place as u8, stays);
        }
        places
    }
}
