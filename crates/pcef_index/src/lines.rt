//! The lines of rules. A line is what can fit a packet: a filter of a dynamic rule, or a predefined rule.

ghost use Rattle.std.specs.Prelude.{◌≡◌, ◌<◌, ◌≤◌, ◌++◌, ◌∷◌, [], List, length, IfOk, OnOk, true};
ghost use Rattle.pcef_filter.specs.Matching.{matches, place_fits};
ghost use Rattle.pcef_packet.specs.Addresses.{is_assigned, ue_side};
ghost use Rattle.pcef_packet.specs.declared.header.Addr.{Addr};
ghost use Rattle.pcef_packet.specs.declared.header.Header.{Header};
ghost use Rattle.pcef_index.specs.declared.lines.Line.{Line};
ghost use Rattle.pcef_index.specs.private.Lines.{IsFor, KeepFor, filter_line, filter_lines, line_fits, lines_from, shared_bits, source_lines, standing_fits, stands};

use crate::rule_filter::RuleFilter;
use crate::sides::{Side, end_on};
use pcef_catalog::Detects;
use pcef_filter::{Filter, Place};
use pcef_packet::{Addr, Header};
use pcef_rule::Rule;
use pcef_table::Source;
use std::alloc::{AllocError, Global};

/// A filter, or a predefined rule.
#[derive(Drop)]
pub(crate) enum Part {
    /// A filter.
    Filter(RuleFilter),
    /// The place of a predefined rule in the catalog.
    Offer(u8),
}

/// A part of the rule of an entry, with the place of the entry.
#[derive(Drop)]
pub(crate) struct Line {
    /// The place.
    pub place: u8,
    /// The part.
    pub part: Part,
}

impl Line {
    /// Whether the part fits a packet.
    pub(crate) fn fits<C: Detects>(&self, catalog: &C, ue: &Addr, header: &Header) -> bool
        ensures { result ≡ line_fits (C.offers catalog.now) ue.now header.now self.now }
    {
        match &self.part {
            Part::Filter(filter) => filter.get().matches_for(ue, header),
            Part::Offer(index) => catalog.detects(*index, header),
        }
    }
}

/// Whether the rule that had a place still stands at one.
pub(crate) fn stands(places: &[Option<u8>], place: u8) -> bool
    ensures { result ≡ stands places.now place }
{
    match places.get(usize::from(place)) {
        Some(now) => now.is_some(),
        None => false,
    }
}

/// Lines, and where their rules stand among others.
#[derive(Clone, Copy)]
pub(crate) struct Standing<'a> {
    /// The lines.
    pub lines: &'a [Line],
    /// For each place of a rule that has lines its place among the others, if it is there.
    pub places: &'a [Option<u8>],
}

impl Standing<'_> {
    /// Whether the rule of a line is there, and its part fits a packet.
    #[inline(always)]
    pub(crate) fn fits<C: Detects>(
        &self,
        line: &Line,
        catalog: &C,
        ue: &Addr,
        header: &Header,
    ) -> bool
        ensures { result ≡ standing_fits self.now.places.now (C.offers catalog.now) ue.now header.now line.now }
    {
        stands(self.places, line.place) && line.fits(catalog, ue, header)
    }
}

/// How many of a network's first bits are those of all addresses of a session: at most 64 in version 6.
pub(crate) fn shared_bits(bits: u8, ue: Addr) -> u8
    ensures { result ≡ shared_bits bits ue }
{
    match ue {
        Addr::V6(_) if bits > 64 => 64,
        _ => bits,
    }
}

/// Whether a place has one of a session's addresses.
fn meets(place: &Place, ue: Addr) -> bool
    ensures { (a : Addr) → is_assigned a ue ≡ true → place_fits place.now ue a ≡ true → result ≡ true }
{
    match place {
        Place::Any | Place::Assigned => true,
        Place::Net(net) => ue.agrees_in(shared_bits(net.bits, ue), net.addr),
    }
}

/// Whether a filter may match packets of a session.
pub(crate) fn is_for(filter: &Filter, ue: Addr) -> bool
    ensures { (h : Header) → is_assigned (ue_side h) ue ≡ true → matches filter.now ue h ≡ true → result ≡ true }
{
    meets(&end_on(Side::Local, filter).place, ue)
}

/// Whether a filter may match packets that are looked up: of any session, or of the one with an address.
fn is_kept(filter: &Filter, own: Option<Addr>) -> bool
    ensures { (ue : Addr) (h : Header) → IsFor own ue h → matches filter.now ue h ≡ true → result ≡ true }
{
    match own {
        None => true,
        Some(ue) => is_for(filter, ue),
    }
}

/// Appends a filter of a rule, unless it is for other sessions than the one whose packets are looked up.
fn push_filter(
    lines: &mut Vec<Line>,
    place: u8,
    filter: RuleFilter,
    own: Option<Addr>,
) -> Result<(), AllocError>
    ensures { OnOk result ((all : List Line) → KeepFor own all lines.old.items
        → KeepFor own (all ++ filter_line place filter ∷ []) lines.new.items) }
{
    if is_kept(filter.get(), own) {
        lines.push(Line {
            place,
            part: Part::Filter(filter),
        })?;
    }
    Ok(())
}

fn push_filters(
    lines: &mut Vec<Line>,
    place: u8,
    rule: &Rule,
    own: Option<Addr>,
) -> Result<(), AllocError>
    ensures { OnOk result ((all : List Line) → KeepFor own all lines.old.items
        → KeepFor own (all ++ filter_lines place rule.now.filters) lines.new.items) }
{
    for number in 0..rule.filters().len() {
        push_filter(lines, place, RuleFilter::new(rule, number, own)?, own)?;
    }
    Ok(())
}

fn push_source(
    lines: &mut Vec<Line>,
    place: u8,
    source: &Source,
    own: Option<Addr>,
) -> Result<(), AllocError>
    ensures { OnOk result ((all : List Line) → KeepFor own all lines.old.items
        → KeepFor own (all ++ source_lines place source.now) lines.new.items) }
{
    match source {
        Source::Dynamic(rule) => push_filters(lines, place, rule, own),
        Source::Predefined(index) => {
            lines.push(Line {
                place,
                part: Part::Offer(*index),
            })?;
            Ok(())
        }
    }
}

/// The lines of some rules, in order; where the packets of one session alone are looked up, those that may fit them.
pub(crate) fn lines_of(
    alloc: Global,
    sources: &[Source],
    own: Option<Addr>,
) -> Result<Vec<Line>, AllocError>
    requires { length sources.now ≤ 64 }
    ensures { IfOk result (λ v. KeepFor own (lines_from 0 sources.now) v.items) }
{
    let mut lines = Vec::new(alloc);
    for place in 0..sources.len() {
        push_source(&mut lines, place as u8, &sources[place], own)?;
    }
    lines.shrink_to_fit();
    Ok(lines)
}
