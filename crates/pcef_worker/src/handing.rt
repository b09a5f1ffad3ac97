//! Rows that a worker hands over, and how it leaves.

ghost use Rattle.std.specs.Prelude.{◌≡◌, ◌⊎◌, ◌++◌, ◌≤◌, ◌+◌, Err, IfErr, IfOk, OnErr, OnOk, length};
ghost use Rattle.pcef_model.specs.declared.answer.FlushRefusal.TheVariants.{NoMemory};
ghost use Rattle.pcef_lock.specs.HandedIn.{finished_with};
ghost use Rattle.pcef_lock.specs.Outcomes.{IsDueToRows, judged_rows};
ghost use Rattle.pcef_worker.specs.Working.{abandoned, finished_hand_in, flushed};

use crate::gate::{Gate, Point};
use crate::worker::Worker;
use pcef_catalog::Detects;
use pcef_lock::{Finished, LastFlush, OwnRows, Shared};
use pcef_model::{FlushRefusal, Verdicts};
use pcef_publish::{Board, Cell};
use pcef_session::{Item, MAX_WAITING};
use pcef_share::{Naming, Pooling};
use std::sync::Wait;

/// Adds rows to a worker's own list, which has the room.
fn keep_all(rows: &mut OwnRows, items: &[Item])
    requires { length items.now ≤ rows.old.room }
    ensures items { rows.new.items ≡ rows.old.items ++ items.now }
    ensures keeps { rows.new.keeps ≡ rows.old.keeps }
{
    for item in items {
        rows.add(item);
    }
}

impl<C: Detects + Drop, N: Naming, G: Gate + Drop> Worker<C, N, G> {
    /// Hands the waiting rows over in one hold of the lock, and keeps them in the worker's own list.
    fn hand_over<W: Board<Cell<N>> + Drop, P: Pooling, R: Wait>(
        &mut self,
        rt: &R,
        shared: &Shared<C, N, W, P>,
    ) -> Result<Verdicts, FlushRefusal>
        ensures verdicts { IfOk result (λ v. v.rows.items ≡ judged_rows self.old.waiting) }
        ensures due { (result ≡ Err NoMemory)
            ⊎ IsDueToRows N.setting self.old.worker self.old.waiting result }
        ensures flushed { OnOk result (self.new ≡ flushed self.old) }
        ensures refused { OnErr result (self.new ≡ self.old) }
    {
        if self.rows.reserve(MAX_WAITING).is_err() {
            return Err(FlushRefusal::NoMemory);
        }
        let verdicts = match shared.flush(rt, &mut self.seat, &self.waiting) {
            Ok(verdicts) => verdicts,
            Err(refusal) => return Err(refusal),
        };
        keep_all(&mut self.rows, self.waiting.items());
        self.waiting.clear();
        Ok(verdicts)
    }

    /// Hands the waiting rows over and leaves, in one hold of the lock.
    fn hand_last<W: Board<Cell<N>> + Drop, P: Pooling, R: Wait>(
        &mut self,
        rt: &R,
        shared: &Shared<C, N, W, P>,
    ) -> Result<LastFlush<N>, FlushRefusal>
        ensures verdicts { IfOk result (λ l. l.verdicts.rows.items ≡ judged_rows self.old.waiting) }
        ensures departure { IfOk result (λ l. l.departure ≡ finished_with self.old.worker self.old.waiting) }
        ensures flushed { OnOk result (self.new ≡ flushed self.old) }
        ensures refused { OnErr result (self.new ≡ self.old) }
    {
        if self.rows.reserve(MAX_WAITING).is_err() {
            return Err(FlushRefusal::NoMemory);
        }
        let last = match shared.finish(rt, &mut self.seat, &self.waiting) {
            Ok(last) => last,
            Err(refusal) => return Err(refusal),
        };
        keep_all(&mut self.rows, self.waiting.items());
        self.waiting.clear();
        Ok(last)
    }

    /// Hands the waiting rows over, all or none, in one hold of the lock, and returns their verdicts; or answers the
    /// first refusal in the order of [`FlushRefusal`], which changes nothing. The gate is called before and after, with
    /// no lock held. Takes memory, and may answer out of memory before another refusal is seen. Waits for the lock.
    pub fn flush<W: Board<Cell<N>> + Drop, P: Pooling, R: Wait>(
        &mut self,
        rt: &R,
        shared: &Shared<C, N, W, P>,
    ) -> Result<Verdicts, FlushRefusal>
        ensures verdicts { IfOk result (λ v. v.rows.items ≡ judged_rows self.old.waiting) }
        ensures due { (result ≡ Err NoMemory)
            ⊎ IsDueToRows N.setting self.old.worker self.old.waiting result }
        ensures flushed { OnOk result (self.new ≡ flushed self.old) }
        ensures refused { OnErr result (self.new ≡ self.old) }
    {
        self.gate.at(Point::FlushBegins(self.seat.worker));
        let answer = self.hand_over(rt, shared);
        self.gate.at(Point::FlushAnswered(self.seat.worker));
        answer
    }

    /// Hands the waiting rows over, as [`Worker::flush`] does, and leaves, both in one hold of the lock: what it hands
    /// in, and the verdicts of its last rows. After a refusal, which changes nothing, the worker is given back as it
    /// was. The gate is called before and after, with no lock held. Takes memory. Waits for the lock.
    pub fn finish<W: Board<Cell<N>> + Drop, P: Pooling, R: Wait>(
        self,
        rt: &R,
        shared: &Shared<C, N, W, P>,
    ) -> Result<(Finished<N>, Verdicts), (Worker<C, N, G>, FlushRefusal)>
        ensures left { IfOk result (λ r. r.0 ≡ finished_hand_in self) }
        ensures verdicts { IfOk result (λ r. r.1.rows.items ≡ judged_rows self.waiting) }
        ensures back { IfErr result (λ e. e.0 ≡ self) }
    {
        let mut worker = self;
        worker.gate.at(Point::FlushBegins(worker.seat.worker));
        let answer = worker.hand_last(rt, shared);
        worker.gate.at(Point::FlushAnswered(worker.seat.worker));
        match answer {
            Ok(last) => Ok((worker.into_finished(last.departure), last.verdicts)),
            Err(refusal) => Err((worker, refusal)),
        }
    }

    /// Leaves in one hold of the lock. The rows that wait get no verdict and never reach the session: they are only
    /// counted. Takes no memory. Waits for the lock.
    pub fn abandon<W: Board<Cell<N>> + Drop, P: Pooling, R: Wait>(
        self,
        rt: &R,
        shared: &Shared<C, N, W, P>,
    ) -> Finished<N>
        ensures { result ≡ abandoned self }
    {
        let departure = shared.abandon(rt, &self.seat, &self.waiting);
        self.into_finished(departure)
    }
}
