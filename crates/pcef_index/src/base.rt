//! A base: rules with the sieves of their lines, for the look-ups of all tables that have most of these rules.

ghost use Rattle.std.specs.Prelude.{◌≡◌, ◌≤◌, IfOk, find, length, true};
ghost use Rattle.std.specs.Option.{option_map};
ghost use Rattle.pcef_table.specs.Sources.{source_fits};
ghost use Rattle.pcef_index.specs.declared.lines.Line.{Line};
ghost use Rattle.pcef_index.specs.private.AllSieves.{AreServed};
ghost use Rattle.pcef_index.specs.private.Bases.{IsFirstOf, stands_and_fits};
ghost use Rattle.pcef_index.specs.private.Lines.{IsFor, standing_fits};
ghost use Rattle.pcef_index.specs.private.Standing.{AreStandingIn, StandFor};

use crate::kinds::kind_of;
use crate::lines::{Line, Standing, lines_of, stands};
use crate::sides::{Side, end_on};
use crate::sieves::{Sieves, sieves_of};
use crate::standing_words::{StandingWords, words_by_kind, words_for};
use pcef_catalog::Detects;
use pcef_filter::{Place, any_matches};
use pcef_packet::{Addr, Header};
use pcef_table::{Source, is_own};
use std::alloc::{AllocError, Global};
use std::marker::Model;

/// Rules, their lines, and the sieves of all kinds of packets. Contracts see all three.
pub(crate) struct Base {
    sources: Vec<Source>,
    /// The address of the session whose packets alone are looked up, where filters have networks on its side.
    own: Option<Addr>,
    lines: Vec<Line>,
    sieves: Sieves,
}

// Written out, so that an owner proves one call on each return path.
impl Drop for Base {
    fn drop(self) {
        let Base {
            sources: _,
            own: _,
            lines: _,
            sieves: _,
        } = self;
    }
}

impl Model for Base {
    ghost use Rattle.pcef_index.specs.private.AllSieves.{AreSievedOf, BaseValue};

    ghost Value = { BaseValue };

    ghost view = { λ b. record { sources = b.sources.items; lines = b.lines.items; sieves = b.sieves } };

    ghost invariant = { λ b. AreSievedOf b.sources.items b.own b.lines.items b.sieves };
}

/// Whether a packet is one of those that are looked up: of any session, or of the one with an address.
#[inline(always)]
fn is_looked_up(own: Option<Addr>, ue: Addr, header: &Header) -> bool
    ensures { result ≡ true → IsFor own ue header.now }
{
    match own {
        None => true,
        Some(own) => ue == own && is_own(header, ue),
    }
}

/// The place of the rule of the first line that fits a packet, and whose rule stands at a place.
#[inline(always)]
fn first_place<C: Detects>(
    sieves: &Sieves,
    standing: Standing<'_>,
    words: &StandingWords,
    catalog: &C,
    ue: &Addr,
    header: &Header,
) -> Option<u8>
    requires served { AreServed standing.lines.now sieves.now }
    requires words { StandFor standing.places.now standing.lines.now sieves.now words.now }
    ensures { result ≡ option_map (λ (l : Line). l.place)
        (find (standing_fits standing.entry.places.now (C.offers catalog.now) ue.now header.now)
        standing.entry.lines.now) }
{
    let kind = kind_of(header);
    match sieves.of(kind) {
        None => None,
        Some(sieve) => sieve.first_place(standing, words_for(words, kind), catalog, ue, header),
    }
}

/// Whether one of the filters of some rules has a network on the user equipment's side.
fn have_local_networks(sources: &[Source]) -> bool {
    for source in sources {
        if let Source::Dynamic(rule) = source {
            for filter in rule.filters() {
                if let Place::Net(_) = end_on(Side::Local, filter).place {
                    return true;
                }
            }
        }
    }
    false
}

/// Whether a rule fits a packet.
fn fits<C: Detects>(source: &Source, catalog: &C, ue: &Addr, header: &Header) -> bool
    ensures { result ≡ source_fits (C.offers catalog.now) ue.now header.now source.now }
{
    match source {
        Source::Dynamic(rule) => any_matches(rule.filters(), ue, header),
        Source::Predefined(index) => catalog.detects(*index, header),
    }
}

/// The number of the first rule that fits a packet, among those that stand at a place, by a look at each.
fn first_searched<C: Detects>(
    sources: &[Source],
    places: &[Option<u8>],
    catalog: &C,
    ue: &Addr,
    header: &Header,
) -> Option<u8>
    requires { length sources.now ≤ 64 }
    ensures { IsFirstOf (stands_and_fits places.now (C.offers catalog.now) ue.now header.now sources.now) result }
{
    for number in 0..sources.len() {
        if stands(places, number as u8) && fits(&sources[number], catalog, ue, header) {
            return Some(number as u8);
        }
    }
    None
}

impl Base {
    /// The base of some rules, for the packets of a session with this address. Where no filter has a network on its side, it
    /// is for all sessions. Fails when out of memory.
    pub(crate) fn new(alloc: Global, sources: Vec<Source>, ue: Addr) -> Result<Base, AllocError>
        requires { length sources.items ≤ 64 }
        ensures { IfOk result (λ b. b.sources ≡ sources.items) }
    {
        let own = if have_local_networks(&sources) {
            Some(ue)
        } else {
            None
        };
        let lines = lines_of(alloc, &sources, own)?;
        let sieves = sieves_of(alloc, &lines)?;
        Ok(Base {
            sources,
            own,
            lines,
            sieves,
        })
    }

    /// The rules, in order.
    pub(crate) fn sources(&self) -> &[Source]
        ensures { result.now ≡ self.now.sources }
    {
        &self.sources
    }

    /// The words of the lines whose rules stand at a place. Fails when out of memory.
    pub(crate) fn standing(
        &self,
        alloc: Global,
        places: &[Option<u8>],
    ) -> Result<StandingWords, AllocError>
        ensures { IfOk result (AreStandingIn self.now places.now) }
    {
        if places.iter().all(|place| place.is_some()) {
            return Ok(None);
        }
        words_by_kind(alloc, &self.lines, &self.sieves, places)
    }

    /// Whether the packets of a session with this address are looked up.
    pub(crate) fn is_for(&self, ue: Addr) -> bool {
        match self.own {
            None => true,
            Some(own) => own == ue,
        }
    }

    /// The number of the first rule that fits a packet, among those that stand at a place.
    #[inline(always)]
    pub(crate) fn first_standing<C: Detects>(
        &self,
        places: &[Option<u8>],
        words: &StandingWords,
        catalog: &C,
        ue: &Addr,
        header: &Header,
    ) -> Option<u8>
        requires { AreStandingIn self.now places.now words.now }
        ensures { IsFirstOf (stands_and_fits places.now (C.offers catalog.now) ue.now header.now self.now.sources) result }
    {
        if !is_looked_up(self.own, *ue, header) {
            return first_searched(&self.sources, places, catalog, ue, header);
        }
        let standing = Standing {
            lines: &self.lines,
            places,
        };
        first_place(&self.sieves, standing, words, catalog, ue, header)
    }
}
