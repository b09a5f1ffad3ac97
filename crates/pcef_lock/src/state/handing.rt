//! Rows that workers hand over, and workers that leave.

ghost use Rattle.std.specs.Prelude.{◌≡◌, IfOk};
ghost use Rattle.pcef_lock.specs.HandedIn.{abandoned_with, finished_with};
ghost use Rattle.pcef_lock.specs.Outcomes.{AnswersHandOver, AnswersLeave, after_leaving, judged_rows};
ghost use Rattle.pcef_handover.specs.Counting.{books_with_taken, with_taken};
ghost use Rattle.pcef_lock.specs.Judging.{AllJudged};
ghost use Rattle.pcef_handover.specs.Lanes.{continues_lane};
ghost use Rattle.pcef_lock.specs.Seats.{ChangesOnlyShares};
ghost use mathlib.Core.List.{IsPrefix};

use super::State;
use crate::leaving::{Departure, LastFlush, Leaving};
use crate::seat::Seat;
use pcef_handover::{continues, count_items, end_of};
use pcef_model::{FlushRefusal, Verdicts};
use pcef_publish::{Board, Cell};
use pcef_session::Batch;
use pcef_share::{Naming, Pooling};

impl<N: Naming, W: Board<Cell<N>> + Drop, P: Pooling> State<N, W, P> {
    /// Whether rows of a worker continue its lane.
    fn continues_lane(&self, worker: u8, batch: &Batch) -> bool
        ensures { result ≡ continues_lane self.now.session.journal worker batch.now }
    {
        let end = end_of(&self.session, worker);
        continues(batch.items(), worker, end)
    }

    /// Takes over the waiting rows of a worker, all or none, and counts them into the seat's shares. The verdict and
    /// the slots of a row are those of the table of its generation, which the seat's subscriber saw. Or answers the
    /// first refusal in the order of [`FlushRefusal`], which changes nothing. A batch that doesn't continue the
    /// worker's lane is refused as that of a worker that isn't attached. Takes memory.
    pub fn flush(&mut self, seat: &mut Seat<N>, batch: &Batch) -> Result<Verdicts, FlushRefusal>
        requires { AllJudged N.setting N.first seat.old.subscriber batch.now }
        ensures verdicts { IfOk result (λ v. v.rows.items ≡ judged_rows batch.now) }
        ensures answer { AnswersHandOver N.setting seat.old.worker batch.now
            self.old result self.new }
        ensures rest { self.new ≡ record self.old {
          session = self.new.session;
          books = books_with_taken result self.old.books batch.now;
        } }
        ensures seen { IsPrefix seat.old.subscriber self.old.tables }
        ensures shares { seat.new.shares ≡ with_taken result seat.old.shares batch.now }
        ensures seat { ChangesOnlyShares seat.old seat.new }
    {
        seat.subscriber.compare(&mut self.publisher);
        if !self.continues_lane(seat.worker, batch) {
            return Err(FlushRefusal::NotAttached);
        }
        let verdicts = match self.session.flush(seat.worker, batch) {
            Ok(verdicts) => verdicts,
            Err(refusal) => return Err(refusal),
        };
        count_items(&mut self.books, &mut seat.shares, batch.items());
        Ok(verdicts)
    }

    /// Takes over the last rows of a worker, as [`State::flush`] does, and lets it leave. After a refusal, which
    /// changes nothing, the worker is there as before.
    pub fn finish(
        &mut self,
        seat: &mut Seat<N>,
        batch: &Batch,
    ) -> Result<LastFlush<N>, FlushRefusal>
        requires { AllJudged N.setting N.first seat.old.subscriber batch.now }
        ensures verdicts { IfOk result (λ l. l.verdicts.rows.items ≡ judged_rows batch.now) }
        ensures departure { IfOk result (λ l. l.departure ≡ finished_with seat.old.worker batch.now) }
        ensures answer { AnswersLeave N.setting seat.old.worker batch.now
            self.old result self.new }
        ensures rest { self.new ≡ record self.old {
          session = self.new.session;
          books = books_with_taken result self.old.books batch.now;
        } }
        ensures seen { IsPrefix seat.old.subscriber self.old.tables }
        ensures shares { seat.new.shares ≡ with_taken result seat.old.shares batch.now }
        ensures seat { ChangesOnlyShares seat.old seat.new }
    {
        let verdicts = match self.flush(seat, batch) {
            Ok(verdicts) => verdicts,
            Err(refusal) => return Err(refusal),
        };
        self.leave(seat.worker);
        Ok(LastFlush {
            departure: Departure::new(seat.worker, Leaving::Finished(batch.len() as u8)),
            verdicts,
        })
    }

    /// Lets the worker of a seat leave without the rows that wait with it: they never reach the journal. Where it isn't
    /// attached, nothing changes. Takes no memory.
    pub fn abandon(&mut self, seat: &Seat<N>, waiting: &Batch) -> Departure<N>
        ensures departure { result ≡ abandoned_with seat.now.worker waiting.now }
        ensures journal { self.new.session.journal
            ≡ after_leaving seat.now.worker self.old.session.journal }
        ensures rest { self.new ≡ record self.old { session = self.new.session } }
    {
        self.leave(seat.worker);
        Departure::new(seat.worker, Leaving::Abandoned(waiting.len() as u8))
    }

    /// Lets a worker leave. Where it isn't attached, nothing changes.
    fn leave(&mut self, worker: u8)
        ensures journal { self.new.session.journal ≡ after_leaving worker self.old.session.journal }
        ensures rest { self.new ≡ record self.old { session = self.new.session } }
    {
        if self.session.session().is_attached(worker) {
            self.session.detach(worker);
        }
    }
}
