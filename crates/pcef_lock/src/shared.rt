//! The lock of a session.

ghost use Rattle.std.specs.Prelude.{◌≡◌, ◌≤◌, ◌+◌, ◌<◌, ◌^◌, IfErr, IfOk, is_some, length};
ghost use Rattle.std.specs.Arc.{arc_value};
ghost use Rattle.pcef_share.specs.Amounts.{zeros};
ghost use Rattle.pcef_handover.specs.Counting.{with_command, with_taken};
ghost use Rattle.pcef_lock.specs.Desks.{IsAnswerDue};
ghost use Rattle.pcef_lock.specs.Gathering.{AddUpTo, IsAtFault};
ghost use Rattle.pcef_lock.specs.HandedIn.{abandoned_with, finished_with};
ghost use Rattle.pcef_lock.specs.Judging.{AllJudged};
ghost use Rattle.pcef_lock.specs.Outcomes.{IsDueToLeaver, IsDueToRows, IsDueToSeat, judged_rows};
ghost use Rattle.pcef_lock.specs.Reports.{AreNumbered};
ghost use Rattle.pcef_lock.specs.Seats.{ChangesOnlyShares, ChangesOnlySubscriber};
ghost use mathlib.Core.List.{IsPrefix};

use crate::desk::Desk;
use crate::finished::Finished;
use crate::gathering::{GatherFault, Totals};
use crate::leaving::{Departure, LastFlush};
use crate::pool::Pool;
use crate::seat::Seat;
use crate::state::{State, StateUngathered};
use pcef_catalog::Offers;
use pcef_model::{Accepted, AttachFault, Command, FlushRefusal, Refusal, Report, Verdicts};
use pcef_publish::{Board, Cell};
use pcef_session::Batch;
use pcef_share::{Naming, NoPool, Pooling, Shares};
use std::alloc::AllocError;
use std::marker::Model;
use std::sync::{Arc, Mutex, Wait};

/// A session that threads share: its catalog, and the lock of all else. Each call takes the lock once and makes one
/// call of the [`State`] behind it, and returns what that call returns. Contracts see what the catalog offers.
pub struct Shared<'p, C: Offers + Drop, N: Naming, W: Board<Cell<N>> + Drop, P: Pooling = NoPool> {
    catalog: Arc<C>,
    state: Mutex<State<N, W, P>>,
    pool: Option<&'p Pool<P>>,
}

// Written out, so that an owner proves one call on each return path.
impl<'p, C: Offers + Drop, N: Naming, W: Board<Cell<N>> + Drop, P: Pooling> Drop
    for Shared<'p, C, N, W, P> {
    fn drop(self) {
        let Shared {
            catalog: _,
            state: _,
            pool: _,
        } = self;
    }
}

impl<'p, C: Offers + Drop, N: Naming, W: Board<Cell<N>> + Drop, P: Pooling> Model
    for Shared<'p, C, N, W, P> {
    ghost use Rattle.std.specs.Prelude.{◌≡◌, List, is_some};
    ghost use Rattle.std.specs.Arc.{arc_value};
    ghost use Rattle.pcef_catalog.specs.declared.listing.Offer.{Offer};

    ghost Value = { List Offer };

    ghost view = { λ s. C.offers (arc_value s.catalog) };

    ghost invariant = { λ s. (C.offers (arc_value s.catalog) ≡ N.setting.catalog)
        × (is_some s.pool ≡ P.is_there) };
}

/// What is given back where there are no totals: the reason, and all that was handed in. [`Shared::new`] puts the value
/// behind a lock again.
#[derive(Drop)]
pub struct Ungathered<
    'p,
    C: Offers + Drop,
    N: Naming,
    W: Board<Cell<N>> + Drop,
    P: Pooling = NoPool,
> {
    /// Why.
    pub fault: GatherFault,
    /// The catalog of the session.
    pub catalog: Arc<C>,
    /// The value that was behind the lock.
    pub state: State<N, W, P>,
    /// The pool, where there is one.
    pub pool: Option<&'p Pool<P>>,
    /// The desk.
    pub desk: Desk<N>,
    /// What the workers handed in.
    pub finished: Vec<Finished<N>>,
}

impl<'p, C: Offers + Drop, N: Naming, W: Board<Cell<N>> + Drop, P: Pooling> Shared<'p, C, N, W, P> {
    /// Puts the value behind a lock. The catalog has to be that of the session.
    pub fn new(
        catalog: Arc<C>,
        state: State<N, W, P>,
        pool: Option<&'p Pool<P>>,
    ) -> Shared<'p, C, N, W, P>
        requires offers { C.offers (arc_value catalog) ≡ N.setting.catalog }
        requires pool { is_some pool ≡ P.is_there }
        ensures { result ≡ N.setting.catalog }
    {
        Shared {
            catalog,
            state: Mutex::new(state),
            pool,
        }
    }

    /// The catalog, for one more owner. Fails when out of memory.
    pub fn catalog(&self) -> Result<Arc<C>, AllocError>
        ensures { IfOk result (λ c. C.offers (arc_value c) ≡ N.setting.catalog) }
    {
        Arc::try_clone(&self.catalog)
    }

    /// As [`State::command`], or, for a session on a pool, as [`State::command_within`], with the pool's lock taken
    /// inside the hold and kept to its end.
    pub fn command<R: Wait>(
        &self,
        rt: &R,
        shares: &mut Shares<N>,
        command: Command,
    ) -> Result<Accepted, Refusal>
        ensures shares { shares.new ≡ with_command result shares.old }
        ensures due { IsAnswerDue N.setting P.is_there command result }
    {
        let mut state = self.state.lock(rt);
        // For what it says of the journal, here and below: that it is lawful.
        let _lawful = state.session();
        match self.pool {
            Some(pool) => state.command_within(shares, command, &mut pool.state.lock(rt)),
            None => state.command(shares, command),
        }
    }

    /// As [`State::attach`].
    pub fn attach<R: Wait>(&self, rt: &R) -> Result<Seat<N>, AttachFault>
        ensures seat { IfOk result (λ s. (s.shares ≡ zeros) × (s.ue ≡ N.setting.ue)) }
        ensures due { IsDueToSeat N.setting result }
    {
        let mut state = self.state.lock(rt);
        let _lawful = state.session();
        state.attach()
    }

    /// As [`State::meet`].
    pub fn meet<R: Wait>(&self, rt: &R, seat: &mut Seat<N>) -> Result<u32, AllocError>
        ensures grows { IsPrefix seat.old.subscriber seat.new.subscriber }
        ensures number { IfOk result (λ g. g + 1 ≡ N.first + length seat.new.subscriber) }
        ensures refused { IfErr result (λ _. seat.new.subscriber ≡ seat.old.subscriber) }
        ensures seat { ChangesOnlySubscriber seat.old seat.new }
    {
        self.state.lock(rt).meet(seat)
    }

    /// As [`State::flush`].
    pub fn flush<R: Wait>(
        &self,
        rt: &R,
        seat: &mut Seat<N>,
        batch: &Batch,
    ) -> Result<Verdicts, FlushRefusal>
        requires { AllJudged N.setting N.first seat.old.subscriber batch.now }
        ensures verdicts { IfOk result (λ v. v.rows.items ≡ judged_rows batch.now) }
        ensures due { IsDueToRows N.setting seat.old.worker batch.now result }
        ensures shares { seat.new.shares ≡ with_taken result seat.old.shares batch.now }
        ensures seat { ChangesOnlyShares seat.old seat.new }
    {
        let mut state = self.state.lock(rt);
        let _lawful = state.session();
        state.flush(seat, batch)
    }

    /// As [`State::finish`].
    pub fn finish<R: Wait>(
        &self,
        rt: &R,
        seat: &mut Seat<N>,
        batch: &Batch,
    ) -> Result<LastFlush<N>, FlushRefusal>
        requires { AllJudged N.setting N.first seat.old.subscriber batch.now }
        ensures verdicts { IfOk result (λ l. l.verdicts.rows.items ≡ judged_rows batch.now) }
        ensures departure { IfOk result (λ l. l.departure ≡ finished_with seat.old.worker batch.now) }
        ensures due { IsDueToLeaver N.setting seat.old.worker batch.now result }
        ensures shares { seat.new.shares ≡ with_taken result seat.old.shares batch.now }
        ensures seat { ChangesOnlyShares seat.old seat.new }
    {
        let mut state = self.state.lock(rt);
        let _lawful = state.session();
        state.finish(seat, batch)
    }

    /// As [`State::abandon`].
    pub fn abandon<R: Wait>(&self, rt: &R, seat: &Seat<N>, waiting: &Batch) -> Departure<N>
        ensures { result ≡ abandoned_with seat.now.worker waiting.now }
    {
        self.state.lock(rt).abandon(seat, waiting)
    }

    /// As [`State::collect`].
    pub fn collect<R: Wait>(&self, rt: &R, from: u64) -> Result<Vec<Report>, AllocError>
        ensures numbered { IfOk result (λ v. AreNumbered from v.items) }
        ensures fits { IfOk result (λ v. from + length v.items < 2 ^ 64) }
    {
        self.state.lock(rt).collect(from)
    }

    /// As [`State::gather`], of the value behind the lock, which ends with it. For each monitoring key three sums of
    /// octets are the same: those of the journal's rows that count for it, those of all workers' lists, and the reported
    /// with the unreported ones. Where lists are compared, each row stands in one worker's list, once.
    pub fn gather<R: Wait>(
        self,
        rt: &R,
        desk: Desk<N>,
        finished: Vec<Finished<N>>,
    ) -> Result<Totals<P>, Ungathered<'p, C, N, W, P>>
        requires { length finished.items ≤ 16 }
        ensures totals { IfOk result
            (AddUpTo N.setting P.is_there desk.commands finished.items) }
        ensures fault { IfErr result (λ e.
            IsAtFault e.state.session.journal desk.commands finished.items e.fault) }
        ensures back { IfErr result (λ e. (e.desk ≡ desk) × (e.finished.items ≡ finished.items)) }
        ensures offers { IfErr result (λ e. C.offers (arc_value e.catalog) ≡ N.setting.catalog) }
        ensures pool { IfErr result (λ e. is_some e.pool ≡ P.is_there) }
    {
        let Shared {
            catalog,
            state,
            pool,
        } = self;
        match state.into_inner().gather(desk, finished) {
            Ok(totals) => Ok(totals),
            Err(ungathered) => {
                let StateUngathered {
                    fault,
                    state,
                    desk,
                    finished,
                } = ungathered;
                Err(Ungathered {
                    fault,
                    catalog,
                    state,
                    pool,
                    desk,
                    finished,
                })
            }
        }
    }
}
