//! A worker.

ghost use Rattle.std.specs.Prelude.{◌≡◌, ◌≤◌, ◌<◌, ◌+◌, IfOk, List, Ok, OnErr, false, length, true};
ghost use Rattle.pcef_packet.specs.Addresses.{is_assigned, ue_side};
ghost use Rattle.pcef_packet.specs.declared.header.Addr.{Addr};
ghost use Rattle.pcef_catalog.specs.declared.listing.Offer.{Offer};
ghost use Rattle.pcef_table.specs.Tables.{IsTable};
ghost use Rattle.pcef_index.specs.Places.{IsFirstPlace};
ghost use Rattle.pcef_session.specs.Answers.{AnswersFinish, AnswersFlush, MayComeNext};
ghost use Rattle.pcef_session.specs.Following.{HasItsSlots};
ghost use Rattle.pcef_world.specs.Workers.{LacksForItem, PlacesLast, TakesItem, after_flushing, held_by, waiting_count};
ghost use Rattle.pcef_flow.specs.Flows.{Remembers};

use pcef_catalog::{Detects, Offers};
use pcef_flow::FlowCache;
use pcef_index::Indexed;
use pcef_model::{FlushRefusal, Verdicts};
use pcef_packet::{Addr, Header};
use pcef_session::{BatchFull, MAX_WAITING, RowId, SessionState, WaitingRows};
use pcef_table::is_own;
use std::alloc::AllocError;
use std::sync::Arc;

/// A worker: the table of the generation that it holds, and its waiting rows.
#[derive(Drop)]
pub struct WorldWorker {
    /// Its number.
    pub number: u8,
    /// The table that it judges by, with its index.
    pub held: Arc<Indexed>,
    /// The rows that wait.
    pub waiting: WaitingRows,
}

/// What came of a packet that a worker took.
#[derive(Clone, Copy, Debug, PartialEq, Eq)]
pub struct Taken {
    /// How many rows wait now, 1 to 32.
    pub waiting: u8,
    /// The place of the rule that decided, where one did: the number of rules before it in the table that the worker
    /// holds.
    pub place: Option<u8>,
}

impl WorldWorker {
    /// Which row is its next one, after `handed_over` rows that it has handed over.
    fn next(&self, handed_over: u64) -> RowId
        requires { handed_over ≤ 4294967295 }
        ensures { result ≡ record {
          worker = self.now.number;
          seq = handed_over + length self.now.waiting;
          generation = (held_by self.now).number;
        } }
    {
        RowId {
            worker: self.number,
            seq: handed_over + self.waiting.len() as u64,
            generation: self.held.generation(),
        }
    }

    /// What came of the packet whose row waits last, and which the rule at this place decided.
    fn taken(&self, place: Option<u8>) -> Taken
        ensures waiting { result.waiting ≡ length self.now.waiting }
        ensures place { result.place ≡ place }
    {
        Taken {
            waiting: self.waiting.len() as u8,
            place,
        }
    }

    /// Lets the row of a packet wait that isn't the session's. Without memory for it, nothing changes.
    #[inline(never)]
    fn wait_stray(&mut self, handed_over: u64, header: &Header) -> Result<Taken, AllocError>
        requires few { handed_over ≤ 4294967295 }
        requires room { length self.old.waiting < 32 }
        ensures taken { IfOk result (λ taken. (offers : List Offer) (ue : Addr)
            → is_assigned (ue_side header.now) ue ≡ false
            → TakesItem offers ue header.now handed_over self.old (Ok taken.waiting) self.new) }
        ensures place { IfOk result (λ taken. (offers : List Offer) → PlacesLast offers self.new taken.place) }
        ensures held { self.new.held ≡ self.old.held }
        ensures lacks { OnErr result (LacksForItem self.old self.new) }
    {
        let id = self.next(handed_over);
        self.waiting.push_stray(id, header)?;
        Ok(self.taken(None))
    }

    /// Lets the row of a packet wait, as the entry at a place decides. Without memory for it, nothing changes.
    #[inline(always)]
    fn wait_decided<C: Offers>(
        &mut self,
        catalog: &C,
        handed_over: u64,
        header: &Header,
        place: Option<u8>,
    ) -> Result<Taken, AllocError>
        requires table { IsTable (C.offers catalog.now) (held_by self.old).entries }
        requires few { handed_over ≤ 4294967295 }
        requires room { length self.old.waiting < 32 }
        ensures taken { IfOk result (λ taken. (ue : Addr)
            → is_assigned (ue_side header.now) ue ≡ true
            → IsFirstPlace (C.offers catalog.now) (held_by self.old).entries ue header.now place
            → TakesItem (C.offers catalog.now) ue header.now handed_over self.old (Ok taken.waiting) self.new) }
        ensures place { IfOk result (λ taken. PlacesLast (C.offers catalog.now) self.new taken.place) }
        ensures held { self.new.held ≡ self.old.held }
        ensures lacks { OnErr result (LacksForItem self.old self.new) }
    {
        let id = self.next(handed_over);
        let decided = self
            .waiting
            .push_decided(id, header, &self.held, catalog, place)?;
        Ok(self.taken(decided))
    }

    /// Judges a packet, lets it wait, and returns how many wait then, with the place of the rule that decided. Without
    /// memory for it, nothing changes.
    pub(crate) fn take<C: Detects>(
        &mut self,
        catalog: &C,
        ue: Addr,
        handed_over: u64,
        header: &Header,
    ) -> Result<Result<Taken, BatchFull>, AllocError>
        requires table { IsTable (C.offers catalog.now) (held_by self.old).entries }
        requires few { handed_over ≤ 4294967295 }
        ensures taken { IfOk result (λ answer. TakesItem (C.offers catalog.now) ue header.now handed_over
            self.old (waiting_count answer) self.new) }
        ensures place { IfOk result (λ answer. IfOk answer (λ taken. PlacesLast (C.offers catalog.now)
            self.new taken.place)) }
        ensures lacks { OnErr result (LacksForItem self.old self.new) }
    {
        if self.waiting.len() >= MAX_WAITING {
            return Ok(Err(BatchFull));
        }
        if !is_own(header, ue) {
            return Ok(Ok(self.wait_stray(handed_over, header)?));
        }
        let place = self.held.first_place(catalog, ue, header);
        Ok(Ok(self.wait_decided(catalog, handed_over, header, place)?))
    }

    /// The same, by the flows that were judged before by this table, or by a look-up, which they then remember.
    pub(crate) fn take_by_flows<C: Detects>(
        &mut self,
        catalog: &C,
        flows: &mut FlowCache,
        ue: Addr,
        handed_over: u64,
        header: &Header,
    ) -> Result<Result<Taken, BatchFull>, AllocError>
        requires table { IsTable (C.offers catalog.now) (held_by self.old).entries }
        requires remembers { Remembers (C.offers catalog.now) (held_by self.old).entries ue flows.old }
        requires few { handed_over ≤ 4294967295 }
        ensures taken { IfOk result (λ answer. TakesItem (C.offers catalog.now) ue header.now handed_over
            self.old (waiting_count answer) self.new) }
        ensures place { IfOk result (λ answer. IfOk answer (λ taken. PlacesLast (C.offers catalog.now)
            self.new taken.place)) }
        ensures lacks { OnErr result (LacksForItem self.old self.new) }
        ensures remembers { Remembers (C.offers catalog.now) (held_by self.new).entries ue flows.new }
    {
        if self.waiting.len() >= MAX_WAITING {
            return Ok(Err(BatchFull));
        }
        let Ok(place) = flows.own_place(&self.held, catalog, &ue, header) else {
            return Ok(Ok(self.wait_stray(handed_over, header)?));
        };
        Ok(Ok(self.wait_decided(catalog, handed_over, header, place)?))
    }

    /// Hands the waiting rows over to the session. A refusal keeps them.
    pub(crate) fn flush(&mut self, session: &mut SessionState) -> Result<Verdicts, FlushRefusal>
        requires follow { MayComeNext session.old self.old.number self.old.waiting }
        requires slots { HasItsSlots session.old.setting session.old.journal self.old.waiting }
        ensures answer { AnswersFlush session.old self.old.number self.old.waiting
            result session.new }
        ensures worker { self.new ≡ after_flushing result self.old }
        ensures setting { session.new.setting ≡ session.old.setting }
        ensures forgotten { session.new.forgotten ≡ session.old.forgotten }
    {
        let verdicts = session.flush_items(self.number, self.waiting.items())?;
        self.waiting.clear();
        Ok(verdicts)
    }

    /// Hands the waiting rows over to the session, which the worker leaves. A refusal keeps it there.
    pub(crate) fn finish(&self, session: &mut SessionState) -> Result<(Verdicts, u64), FlushRefusal>
        requires follow { MayComeNext session.old self.now.number self.now.waiting }
        requires slots { HasItsSlots session.old.setting session.old.journal self.now.waiting }
        ensures answer { AnswersFinish session.old self.now.number self.now.waiting
            result session.new }
        ensures setting { session.new.setting ≡ session.old.setting }
        ensures forgotten { session.new.forgotten ≡ session.old.forgotten }
    {
        session.finish_items(self.number, self.waiting.items())
    }
}
