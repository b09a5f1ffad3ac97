//! How the parts of a table are made, and the first rule of a part that fits a packet.

ghost use Rattle.std.specs.Prelude.{◌≡◌, ◌≤◌, ◌<◌, ℕ, List, IfOk, IfSome, None, Some, get_or, length, map, slice_get};
ghost use Rattle.pcef_table.specs.declared.entry.Source.{Source};
ghost use Rattle.pcef_index.specs.private.Bases.{AreCopies, Ascend, Has, HasPlace, IsFirstPlaced, IsFirstWithin, IsPart, IsRest, Reaches, place_in};

use crate::base::Base;
use crate::equal::is_equal;
use crate::part::Part;
use pcef_catalog::Detects;
use pcef_packet::{Addr, Header};
use pcef_table::Source;
use std::alloc::{AllocError, Global};
use std::sync::Arc;

/// The number of a rule that is equal to this one, from a number on.
fn number_from(sources: &[Source], from: usize, source: &Source) -> Option<usize>
    ensures { IfSome result (λ n. (from ≤ n) × (slice_get sources.now n ≡ Some source.now)) }
{
    for number in from..sources.len() {
        if is_equal(&sources[number], source) {
            return Some(number);
        }
    }
    None
}

/// Places that are all there.
fn somes(alloc: Global, places: &[u8]) -> Result<Vec<Option<u8>>, AllocError>
    ensures { IfOk result (λ v. v.items ≡ map (λ k. Some k) places.now) }
{
    let mut all = Vec::with_capacity(alloc, places.len())?;
    for place in places {
        all.push(Some(*place))?;
    }
    Ok(all)
}

/// Copies of the rules at some places.
fn copies_at(alloc: Global, sources: &[Source], places: &[u8]) -> Result<Vec<Source>, AllocError>
    requires { Ascend (length sources.now) places.now }
    ensures { IfOk result (λ v. AreCopies sources.now places.now v.items) }
{
    let mut copies = Vec::with_capacity(alloc, places.len())?;
    for place in places {
        copies.push(sources[usize::from(*place)].copy()?)?;
    }
    Ok(copies)
}

impl Part {
    /// The rules at some places, with a base of their own, for a session with this address. Fails when out of memory.
    pub(crate) fn new(
        alloc: Global,
        sources: &[Source],
        places: Vec<u8>,
        ue: Addr,
    ) -> Result<Part, AllocError>
        requires few { length sources.now ≤ 64 }
        requires places { Ascend (length sources.now) places.items }
        ensures part { IfOk result (IsPart sources.now) }
        ensures all { IfOk result (λ p. (k : ℕ) → Has places.items k → HasPlace p k) }
    {
        let copies = copies_at(alloc, sources, &places)?;
        let base = Arc::new(alloc, Base::new(alloc, copies, ue)?)?;
        let places = somes(alloc, &places)?;
        Ok(Part {
            base,
            places,
            words: None,
        })
    }

    /// Those of these rules that a base has, and the places of the others. Fails when out of memory.
    pub(crate) fn over(
        alloc: Global,
        base: Arc<Base>,
        sources: &[Source],
    ) -> Result<(Part, Vec<u8>), AllocError>
        requires { length sources.now ≤ 64 }
        ensures part { IfOk result (λ r. IsPart sources.now r.0) }
        ensures rest { IfOk result (λ r. IsRest sources.now r.0 r.1.items) }
    {
        let mut places = vec![in alloc; None; base.sources().len()]?;
        let mut rest = Vec::new(alloc);
        let mut next = 0;
        for place in 0..sources.len() {
            match number_from(base.sources(), next, &sources[place]) {
                Some(number) => {
                    places[number] = Some(place as u8);
                    next = number + 1;
                }
                None => rest.push(place as u8)?,
            }
        }
        let words = base.standing(alloc, &places)?;
        let part = Part {
            base,
            places,
            words,
        };
        Ok((part, rest))
    }

    /// How many rules the base has.
    pub(crate) fn len(&self) -> usize
        ensures { (place : ℕ) → Reaches self.now result place }
    {
        self.places.len()
    }

    /// How many of the base's first rules may stand before a place.
    pub(crate) fn reach(&self, place: u8) -> usize
        ensures { Reaches self.now result place }
    {
        let mut reach = 0;
        for number in 0..self.places.len() {
            if let Some(there) = self.places[number] {
                if there < place {
                    reach = number + 1;
                }
            }
        }
        reach
    }

    /// The places of so many of the base's first rules.
    #[inline(always)]
    fn first_places(&self, reach: usize) -> &[Option<u8>]
        ensures same { (b : ℕ) → b < reach → get_or result.now b None ≡ place_in self.now b }
        ensures past { (b : ℕ) → reach ≤ b → get_or result.now b None ≡ None }
    {
        &self.places[..reach.min(self.places.len())]
    }

    /// The place of the first of its rules that fits a packet, among so many of the base's first rules.
    #[inline(always)]
    pub(crate) fn first_within<C: Detects>(
        &self,
        reach: usize,
        catalog: &C,
        ue: &Addr,
        header: &Header,
    ) -> Option<u8>
        ensures { (sources : List Source) → IsPart sources self.now
            → IsFirstWithin reach (C.offers catalog.now) ue.now header.now sources self.now result }
    {
        if reach == 0 {
            return None;
        }
        let places = self.first_places(reach);
        let number = self
            .base
            .first_standing(places, &self.words, catalog, ue, header)?;
        *self.places.get(usize::from(number))?
    }

    /// The place of the first of its rules that fits a packet.
    #[inline(always)]
    pub(crate) fn first_place<C: Detects>(
        &self,
        catalog: &C,
        ue: &Addr,
        header: &Header,
    ) -> Option<u8>
        ensures { (sources : List Source) → IsPart sources self.now
            → IsFirstPlaced (C.offers catalog.now) ue.now header.now sources self.now result }
    {
        let number = self
            .base
            .first_standing(&self.places, &self.words, catalog, ue, header)?;
        *self.places.get(usize::from(number))?
    }
}
