//! The cache of flows.

ghost use Rattle.std.specs.Prelude.{◌≡◌, Contains, IfOk, IfSome, List, OnErr, Some, false, true};
ghost use Rattle.pcef_packet.specs.Addresses.{is_assigned, ue_side};
ghost use Rattle.pcef_packet.specs.declared.header.Addr.{Addr};
ghost use Rattle.pcef_table.specs.Tables.{IsTable};
ghost use Rattle.pcef_table.specs.declared.entry.TableEntry.{TableEntry};
ghost use Rattle.pcef_catalog.specs.declared.listing.Offer.{Offer};
ghost use Rattle.pcef_index.specs.Places.{IsFirstPlace};
ghost use Rattle.pcef_flow.specs.Flows.{IsOwnPlace, Remembers, all_ignore_volume, flow_of, ignores_volume};

use crate::flow::{Flow, spread};
use pcef_catalog::{Detects, Offers};
use pcef_index::Indexed;
use pcef_packet::{Addr, Header};
use pcef_table::{Source, Table, TableEntry, is_own};
use std::alloc::{AllocError, Global};
use std::marker::Model;
use thiserror::Error;

/// A flow, and the place of the rule that decides of its packets, where one does.
#[derive(Clone, Copy)]
struct Remembered {
    flow: Flow,
    place: Option<u8>,
}

/// The packet is none of the session's: the address at its side isn't the user equipment's.
#[derive(Clone, Copy, Debug, PartialEq, Eq, Error)]
#[error("the packet is none of the session's")]
pub struct NotOwn;

/// The session's flows that were judged last by one table, each with the place of its rule, never with a verdict: gates,
/// bearers and slots are looked up for each packet. It is used where no rule of the table looks at the volume of a
/// packet, which differs within a flow. Each flow has one place in it, so that an opponent who chooses ports pays for
/// look-ups alone.
pub struct FlowCache {
    flows: Vec<Option<Remembered>>,
    is_used: bool,
}

// Written out, so that an owner proves one call on each return path.
impl Drop for FlowCache {
    fn drop(self) {
        let FlowCache {
            flows: _,
            is_used: _,
        } = self;
    }
}

impl Model for FlowCache {
    ghost use Rattle.std.specs.Prelude.{map};
    ghost use Rattle.pcef_flow.specs.Flows.{Flows};
    ghost use Rattle.pcef_flow.specs.private.Packed.{note_of};

    ghost Value = { Flows };

    ghost view = { λ c. record {
      notes = map note_of c.flows.items;
      is_used = c.is_used;
    } };
}

fn ignores_volume<C: Offers>(catalog: &C, source: &Source) -> bool
    ensures { result ≡ ignores_volume (C.offers catalog.now) source.now }
{
    match source {
        Source::Dynamic(_) => true,
        Source::Predefined(index) => match catalog.listing().offers().get(usize::from(*index)) {
            Some(offer) => offer.shape.ignores_volume(),
            None => true,
        },
    }
}

fn all_ignore_volume<C: Offers>(catalog: &C, entries: &[TableEntry]) -> bool
    ensures { result ≡ all_ignore_volume (C.offers catalog.now) entries.now }
{
    entries
        .iter()
        .all(|entry| ignores_volume(catalog, &entry.source))
}

impl FlowCache {
    /// A cache with places for this many flows, a power of two, of some 80 octets each. It remembers none, and is used
    /// once it follows a table. Fails when out of memory.
    pub fn new(alloc: Global, places: usize) -> Result<FlowCache, AllocError>
        ensures { IfOk result (λ c. (offers : List Offer) (entries : List TableEntry) (ue : Addr)
            → Remembers offers entries ue c) }
    {
        Ok(FlowCache {
            flows: Vec::from_elem(alloc, None, places)?,
            is_used: false,
        })
    }

    /// Forgets all flows, and is of this table from now on. Takes no memory.
    pub fn follow<C: Offers>(&mut self, catalog: &C, table: &Table)
        ensures { (ue : Addr) → Remembers (C.offers catalog.now) table.now.entries ue self.new }
    {
        self.flows.fill(None);
        self.is_used = all_ignore_volume(catalog, table.entries());
    }

    /// The place of the first entry of the table that is followed that fits a packet of the session, as
    /// [`Indexed::first_place`] gives it: that of its flow, where the cache has it, else by a look-up, which it then
    /// remembers, where it is used. Takes no memory. Fails with [`NotOwn`] where the packet is none of the session's.
    #[inline(always)]
    pub fn own_place<C: Detects>(
        &mut self,
        followed: &Indexed,
        catalog: &C,
        ue: &Addr,
        header: &Header,
    ) -> Result<Option<u8>, NotOwn>
        requires table { IsTable (C.offers catalog.now) followed.now.entries }
        requires remembers { Remembers (C.offers catalog.now) followed.now.entries ue.now self.old }
        ensures remembers { Remembers (C.offers catalog.now) followed.now.entries ue.now self.new }
        ensures own { IfOk result (λ place. IsOwnPlace (C.offers catalog.now) followed.now.entries
            ue.now header.now place) }
        ensures stray { OnErr result (is_assigned (ue_side header.now) ue.now ≡ false) }
    {
        // The flow first: one that is remembered is the session's.
        let at = spread(header) & self.flows.len().wrapping_sub(1);
        if let Some(remembered) = self.remembered_at(at, header) {
            return Ok(remembered);
        }
        if !is_own(header, *ue) {
            return Err(NotOwn);
        }
        // A copy, so that the header itself need not lie in memory.
        let copy = *header;
        Ok(self.looked_up(at, followed, catalog, ue, &copy))
    }

    /// The place of the first entry that fits a packet of the session, by a look-up, which is remembered where the cache
    /// is used.
    #[inline(never)]
    fn looked_up<C: Detects>(
        &mut self,
        at: usize,
        followed: &Indexed,
        catalog: &C,
        ue: &Addr,
        header: &Header,
    ) -> Option<u8>
        requires table { IsTable (C.offers catalog.now) followed.now.entries }
        requires own { is_assigned (ue_side header.now) ue.now ≡ true }
        requires remembers { Remembers (C.offers catalog.now) followed.now.entries ue.now self.old }
        ensures remembers { Remembers (C.offers catalog.now) followed.now.entries ue.now self.new }
        ensures first { IsFirstPlace (C.offers catalog.now) followed.now.entries ue.now header.now result }
    {
        let place = followed.first_place(catalog, *ue, header);
        if self.is_used && at < self.flows.len() {
            let flow = Flow::of(header);
            self.flows[at] = Some(Remembered { flow, place });
        }
        place
    }

    /// The place of the rule that decides of a packet, where its flow is remembered here.
    #[inline(always)]
    fn remembered_at(&self, at: usize, header: &Header) -> Option<Option<u8>>
        ensures { IfSome result (λ place. Contains self.now.notes
            (Some (record { flow = flow_of header.now; place = place }))) }
    {
        match self.flows.get(at) {
            Some(Some(remembered)) if remembered.flow.has(header) => Some(remembered.place),
            _ => None,
        }
    }
}
