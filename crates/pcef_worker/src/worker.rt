//! Workers, with the rows that wait and those that they handed over.

ghost use Rattle.std.specs.Prelude.{◌≡◌, ◌≤◌, ◌+◌, [], IfErr, IfOk, IfSome, OnErr, OnOk, false, is_some, length, true};
ghost use mathlib.Core.List.{IsPrefix};
ghost use Rattle.pcef_worker.specs.Working.{JudgesPacket};

use crate::gate::Gate;
use pcef_catalog::{Detects, Offers};
use pcef_flow::FlowCache;
use pcef_lock::{Departure, Finished, OwnRows, Seat, Shared};
use pcef_model::AttachFault;
use pcef_packet::Header;
use pcef_publish::{Board, Cell};
use pcef_session::{Batch, BatchFull, Item, MAX_WAITING};
use pcef_share::{Naming, Pooling};
use std::alloc::{AllocError, Global};
use std::marker::Model;
use std::sync::{Arc, Wait};

/// How many flows a worker remembers.
const MOST_FLOWS: usize = 256;

/// A worker of a session: its seat, what is offered, the flows that it judged last, the rows that wait, and its own list
/// of those that it handed over, which is stored or only counted. Its shares hold what that list counts. It is used with
/// the [`Shared`] that it was attached to: that is the caller's condition.
pub struct Worker<C: Offers + Drop, N: Naming, G: Gate + Drop> {
    pub(crate) seat: Seat<N>,
    pub(crate) catalog: Arc<C>,
    pub(crate) flows: FlowCache,
    pub(crate) gate: G,
    pub(crate) waiting: Batch,
    pub(crate) rows: OwnRows,
}

// Written out, so that an owner proves one call on each return path.
impl<C: Offers + Drop, N: Naming, G: Gate + Drop> Drop for Worker<C, N, G> {
    fn drop(self) {
        let Worker {
            seat: _,
            catalog: _,
            flows: _,
            gate: _,
            waiting: _,
            rows: _,
        } = self;
    }
}

impl<C: Offers + Drop, N: Naming, G: Gate + Drop> Model for Worker<C, N, G> {
    ghost use Rattle.std.specs.Prelude.{◌≡◌};
    ghost use Rattle.std.specs.Arc.{arc_value};
    ghost use Rattle.pcef_share.specs.Amounts.{zeros};
    ghost use Rattle.pcef_handover.specs.Counting.{with_items};
    ghost use Rattle.pcef_lock.specs.Judging.{AllJudged, FollowsLast};
    ghost use Rattle.pcef_worker.specs.Working.{WorkerModel};

    ghost Value = { WorkerModel };

    ghost view = { λ w. record {
      worker = w.seat.worker;
      seen = w.seat.subscriber;
      waiting = w.waiting;
      rows = w.rows.items;
      keeps = w.rows.keeps;
    } };

    ghost invariant = { λ w. (w.seat.shares ≡ with_items zeros w.rows.items)
        × (w.seat.ue ≡ N.setting.ue)
        × (C.offers (arc_value w.catalog) ≡ N.setting.catalog)
        × AllJudged N.setting N.first w.seat.subscriber w.waiting
        × FollowsLast N.setting w.seat.subscriber w.flows };
}

impl<C: Detects + Drop, N: Naming, G: Gate + Drop> Worker<C, N, G> {
    /// Attaches a worker, in one hold of the lock: it then holds the newest table, and no row waits. Or answers the
    /// first fault in the order of [`AttachFault`], which leaves the session as it was; there is no place, either, once
    /// as many workers were attached as the lock has places. The rows that it hands over are stored with it, so that
    /// they can be compared at the end. Takes memory, which may be refused before another fault is seen. Waits for the
    /// lock.
    pub fn attach<W: Board<Cell<N>> + Drop, P: Pooling, R: Wait>(
        rt: &R,
        alloc: Global,
        shared: &Shared<C, N, W, P>,
        gate: G,
    ) -> Result<Worker<C, N, G>, AttachFault>
        ensures waiting { IfOk result (λ w. w.waiting ≡ []) }
        ensures rows { IfOk result (λ w. w.rows ≡ []) }
        ensures keeps { IfOk result (λ w. w.keeps ≡ true) }
    {
        Worker::attach_to(rt, alloc, shared, gate, OwnRows::new(alloc))
    }

    /// The same, of a worker that stores none of the rows that it hands over: it takes no memory for packets. Its
    /// shares hold what they count all the same.
    pub fn attach_without_rows<W: Board<Cell<N>> + Drop, P: Pooling, R: Wait>(
        rt: &R,
        alloc: Global,
        shared: &Shared<C, N, W, P>,
        gate: G,
    ) -> Result<Worker<C, N, G>, AttachFault>
        ensures waiting { IfOk result (λ w. w.waiting ≡ []) }
        ensures rows { IfOk result (λ w. w.rows ≡ []) }
        ensures keeps { IfOk result (λ w. w.keeps ≡ false) }
    {
        Worker::attach_to(rt, alloc, shared, gate, OwnRows::counted())
    }

    /// Attaches a worker with this list, which has no rows.
    fn attach_to<W: Board<Cell<N>> + Drop, P: Pooling, R: Wait>(
        rt: &R,
        alloc: Global,
        shared: &Shared<C, N, W, P>,
        gate: G,
        rows: OwnRows,
    ) -> Result<Worker<C, N, G>, AttachFault>
        requires { rows.items ≡ [] }
        ensures waiting { IfOk result (λ w. w.waiting ≡ []) }
        ensures rows { IfOk result (λ w. w.rows ≡ []) }
        ensures keeps { IfOk result (λ w. w.keeps ≡ rows.keeps) }
    {
        let Ok(waiting) = Batch::new(alloc) else {
            return Err(AttachFault::NoMemory);
        };
        let Ok(mut flows) = FlowCache::new(alloc, MOST_FLOWS) else {
            return Err(AttachFault::NoMemory);
        };
        let Ok(catalog) = shared.catalog() else {
            return Err(AttachFault::NoMemory);
        };
        let seat = match shared.attach(rt) {
            Ok(seat) => seat,
            Err(fault) => return Err(fault),
        };
        seat.follow(&*catalog, &mut flows);
        Ok(Worker {
            seat,
            catalog,
            flows,
            gate,
            waiting,
            rows,
        })
    }

    /// The number of the worker.
    pub fn worker(&self) -> u8
        ensures { result ≡ self.now.worker }
    {
        self.seat.worker
    }

    /// The generation of the table that is held.
    pub fn generation(&self) -> u32
        ensures { result + 1 ≡ N.first + length self.now.seen }
    {
        self.seat.subscriber.current().0
    }

    /// The rows that wait, in order, each with the slots that it counts for: at most 32.
    pub fn waiting(&self) -> &[Item]
        ensures rows { result.now ≡ self.now.waiting }
        ensures most { length result.now ≤ 32 }
    {
        self.waiting.items()
    }

    /// How many rows were handed over.
    pub fn handed_over(&self) -> u64
        ensures { result ≡ length self.now.rows }
    {
        self.rows.len()
    }

    /// The rows that were handed over, in order, where they are stored.
    pub fn rows(&self) -> Option<&[Item]>
        ensures items { IfSome result (λ rows. rows.now ≡ self.now.rows) }
        ensures stored { is_some result ≡ self.now.keeps }
    {
        self.rows.items()
    }

    /// Judges a packet by the table that is held, and lets its row wait; or refuses it where 32 rows wait, which
    /// changes nothing. Takes no lock and no memory, and doesn't wait.
    pub fn take(&mut self, header: &Header) -> Result<(), BatchFull>
        ensures takes { OnOk result (JudgesPacket N.setting N.first header.now self.old self.new) }
        ensures full { OnErr result (32 ≤ length self.old.waiting) }
        ensures same { OnErr result (self.new ≡ self.old) }
    {
        if self.waiting.len() >= MAX_WAITING {
            return Err(BatchFull);
        }
        let seq = self.rows.len() + self.waiting.len() as u64;
        self.seat.judge(
            &*self.catalog,
            &mut self.flows,
            seq,
            header,
            &mut self.waiting,
        );
        Ok(())
    }

    /// Reads the published table once, with no lock, and returns the generation that is then held, which is never older
    /// than before. Where there is no reading or no copy, the table held stays. Takes no memory. A newer table forgets
    /// the flows.
    pub fn refresh(&mut self) -> u32
        ensures grows { IsPrefix self.old.seen self.new.seen }
        ensures number { result + 1 ≡ N.first + length self.new.seen }
        ensures same { self.new ≡ record self.old { seen = self.new.seen } }
    {
        self.seat.refresh(&*self.catalog, &mut self.flows)
    }

    /// Takes the newest table in one hold of the lock, and returns its generation. Where a further owner of the table
    /// is refused, nothing changes. Waits for the lock.
    pub fn meet<W: Board<Cell<N>> + Drop, P: Pooling, R: Wait>(
        &mut self,
        rt: &R,
        shared: &Shared<C, N, W, P>,
    ) -> Result<u32, AllocError>
        ensures grows { IsPrefix self.old.seen self.new.seen }
        ensures number { IfOk result (λ g. g + 1 ≡ N.first + length self.new.seen) }
        ensures same { self.new ≡ record self.old { seen = self.new.seen } }
        ensures refused { OnErr result (self.new ≡ self.old) }
    {
        let newest = shared.meet(rt, &mut self.seat)?;
        self.seat.follow(&*self.catalog, &mut self.flows);
        Ok(newest)
    }

    /// What the worker hands in, which left in this way.
    pub(crate) fn into_finished(self, departure: Departure<N>) -> Finished<N>
        ensures { result ≡ record {
          worker = departure.worker;
          items = self.rows;
          keeps = self.keeps;
          leaving = departure.leaving;
        } }
    {
        let Worker {
            seat,
            catalog: _,
            flows: _,
            gate: _,
            waiting: _,
            rows,
        } = self;
        let Seat {
            worker: _,
            shares,
            subscriber: _,
            ue: _,
        } = seat;
        Finished::new(departure, rows, shares)
    }
}
