//! The rules of a table, looked up by one base or by two: one that an older table had, and one of the rules that came
//! since.

ghost use Rattle.std.specs.Prelude.{◌≡◌, ◌≤◌, ℕ, List, IfOk, IfSome, length};
ghost use Rattle.pcef_table.specs.declared.entry.Source.{Source};
ghost use Rattle.pcef_index.specs.declared.part.Part.{Part};
ghost use Rattle.pcef_index.specs.private.Bases.{AreBelow, AreReaches, Ascend, Has, HasPlace, IsFirstOf, Reaches, fits_at};
ghost use Rattle.pcef_index.specs.private.Indexes.{IsBased, IsNewer};
ghost use Rattle.pcef_index.specs.private.Firsts.{least};

use crate::lines::is_for;
use crate::part::Part;
use pcef_catalog::Detects;
use pcef_packet::{Addr, Header};
use pcef_table::Source;
use std::alloc::{AllocError, Global};

/// The most lines of rules that came since.
const MOST_NEWER: usize = 64;

/// The most rules of an older base that went since. Their lines take memory and make intervals.
const MOST_GONE: usize = 8;

/// The rules of a table that came since its older base was made.
#[derive(Drop)]
pub(crate) struct Newer {
    part: Part,
    /// For each place of the table, how many of the older base's first rules may stand before it: all of them, where none of
    /// these rules stands there.
    reaches: Vec<usize>,
}

/// The rules of a table, in one or two parts.
#[derive(Drop)]
pub(crate) struct Based {
    /// Those of a base that an older table may have had.
    older: Part,
    /// The others, where there are any.
    newer: Option<Newer>,
}

/// How many lines a rule has.
pub(crate) fn line_count(source: &Source) -> usize {
    match source {
        Source::Dynamic(rule) => rule.filters().len(),
        Source::Predefined(_) => 1,
    }
}

/// How many lines of a rule may fit packets of a session.
fn own_lines(source: &Source, ue: Addr) -> usize {
    match source {
        Source::Dynamic(rule) => {
            let mut count = 0usize;
            for filter in rule.filters() {
                count = count.saturating_add(usize::from(is_for(filter, ue)));
            }
            count
        }
        Source::Predefined(_) => 1,
    }
}

/// How many lines of the rules at some places may fit packets of a session.
fn lines_at(sources: &[Source], places: &[u8], ue: Addr) -> usize {
    let mut count = 0usize;
    for place in places {
        if let Some(source) = sources.get(usize::from(*place)) {
            count = count.saturating_add(own_lines(source, ue));
        }
    }
    count
}

/// The lesser of two places, where there are any.
#[inline(always)]
fn least(a: Option<u8>, b: Option<u8>) -> Option<u8>
    ensures { result ≡ least a b }
{
    match (a, b) {
        (Some(a), Some(b)) if b < a => Some(b),
        (Some(a), _) => Some(a),
        (None, b) => b,
    }
}

/// The places of all rules.
fn all_places(alloc: Global, sources: &[Source]) -> Result<Vec<u8>, AllocError>
    requires { length sources.now ≤ 64 }
    ensures { IfOk result (λ v. AreBelow (length sources.now) v.items) }
{
    let mut places = Vec::with_capacity(alloc, sources.len())?;
    for place in 0..sources.len() {
        places.push(place as u8)?;
    }
    Ok(places)
}

/// How many of an older part's first rules may stand before a place: all of them, where no newer rule stands there.
fn reach_at(older: &Part, newer: &[u8], place: u8) -> usize
    ensures { Reaches older.now result place }
{
    if newer.contains(&place) {
        older.reach(place)
    } else {
        older.len()
    }
}

/// The same for each of the first places.
fn reaches_of(
    alloc: Global,
    older: &Part,
    newer: &[u8],
    places: usize,
) -> Result<Vec<usize>, AllocError>
    requires { places ≤ 64 }
    ensures { IfOk result (λ v. AreReaches older.now v.items) }
{
    let mut reaches = Vec::with_capacity(alloc, places)?;
    for place in 0..places {
        reaches.push(reach_at(older, newer, place as u8))?;
    }
    Ok(reaches)
}

impl Newer {
    /// The rules at some places, which have a base of their own, beside those of an older base. Fails when out of memory.
    fn new(
        alloc: Global,
        older: &Part,
        sources: &[Source],
        places: Vec<u8>,
        ue: Addr,
    ) -> Result<Newer, AllocError>
        requires few { length sources.now ≤ 64 }
        requires places { Ascend (length sources.now) places.items }
        ensures newer { IfOk result (IsNewer sources.now older.now) }
        ensures all { IfOk result (λ n. (k : ℕ) → Has places.items k → HasPlace n.part k) }
    {
        let reaches = reaches_of(alloc, older, &places, sources.len())?;
        let part = Part::new(alloc, sources, places, ue)?;
        Ok(Newer { part, reaches })
    }

    /// How many of the older base's first rules may stand before a place.
    #[inline(always)]
    fn reach(&self, place: u8) -> Option<usize>
        ensures { (older : Part) → AreReaches older self.now.reaches.items → IfSome result (λ r. Reaches older r place) }
    {
        let reach = self.reaches.get(usize::from(place))?;
        Some(*reach)
    }
}

impl Based {
    /// Rules with a base of their own, for a session with this address. Fails when out of memory.
    pub(crate) fn new(alloc: Global, sources: &[Source], ue: Addr) -> Result<Based, AllocError>
        requires { length sources.now ≤ 64 }
        ensures { IfOk result (IsBased sources.now) }
    {
        let places = all_places(alloc, sources)?;
        let older = Part::new(alloc, sources, places, ue)?;
        Ok(Based { older, newer: None })
    }

    /// Rules that are looked up by the base of older ones where these are most of them, and by one of the others; or with
    /// a base of their own. Fails when out of memory.
    pub(crate) fn after(
        alloc: Global,
        older: &Based,
        sources: &[Source],
        ue: Addr,
    ) -> Result<Based, AllocError>
        requires { length sources.now ≤ 64 }
        ensures { IfOk result (IsBased sources.now) }
    {
        let (older, rest) = Part::over(alloc, older.older.base()?, sources)?;
        if lines_at(sources, &rest, ue) > MOST_NEWER || older.has_lost_many(MOST_GONE) {
            return Based::new(alloc, sources, ue);
        }
        let newer = if rest.is_empty() {
            None
        } else {
            Some(Newer::new(alloc, &older, sources, rest, ue)?)
        };
        Ok(Based { older, newer })
    }

    /// Whether the packets of a session with this address are looked up by its bases.
    pub(crate) fn is_for(&self, ue: Addr) -> bool {
        match &self.newer {
            None => self.older.is_for(ue),
            Some(newer) => self.older.is_for(ue) && newer.part.is_for(ue),
        }
    }

    /// The place of the first rule that fits a packet. The newer rules are asked first: they are few.
    #[inline(always)]
    pub(crate) fn first_place<C: Detects>(
        &self,
        catalog: &C,
        ue: &Addr,
        header: &Header,
    ) -> Option<u8>
        ensures { (sources : List Source) → IsBased sources self.now
            → IsFirstOf (fits_at (C.offers catalog.now) ue.now header.now sources) result }
    {
        let Some(newer) = &self.newer else {
            return self.older.first_place(catalog, ue, header);
        };
        let Some(place) = newer.part.first_place(catalog, ue, header) else {
            return self.older.first_place(catalog, ue, header);
        };
        let older = match newer.reach(place) {
            None => self.older.first_place(catalog, ue, header),
            Some(reach) => self.older.first_within(reach, catalog, ue, header),
        };
        least(older, Some(place))
    }
}
