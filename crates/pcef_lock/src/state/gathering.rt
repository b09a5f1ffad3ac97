//! All books of a session, when its workers have left.

ghost use Rattle.std.specs.Prelude.{◌≡◌, ◌≤◌, ◌<◌, ◌∷◌, ℕ, IfErr, IfOk, Some, length, map, slice_index};
ghost use Rattle.pcef_model.specs.Journals.{attach_count};
ghost use Rattle.pcef_share.specs.Amounts.{zeros};
ghost use Rattle.pcef_handover.specs.Counting.{slot_total, with_items};
ghost use Rattle.pcef_lock.specs.Gathering.{AddUpTo, IsAtFault, key_totals};

use super::State;
use crate::desk::Desk;
use crate::finished::Finished;
use crate::gathering::{GatherFault, Totals, abandoned_rows, are_compared, gather_fault};
use crate::key_totals::{KeyTotal, KeyTotals};
use crate::worker_lists::WorkerLists;
use arrayvec::ArrayVec;
use pcef_publish::{Board, Cell};
use pcef_session::SessionState;
use pcef_share::{Naming, NoPool, Pooling, Shares};

/// What is given back where there are no totals: the reason, and all that was handed in.
#[derive(Drop)]
pub struct StateUngathered<N: Naming, W: Board<Cell<N>> + Drop, P: Pooling = NoPool> {
    /// Why.
    pub fault: GatherFault,
    /// The value behind the lock.
    pub state: State<N, W, P>,
    /// The desk.
    pub desk: Desk<N>,
    /// What the workers handed in.
    pub finished: Vec<Finished<N>>,
}

/// The shares of the desk and of the workers, and the workers' lists.
fn all_shares<N: Naming>(
    shares: Shares<N>,
    finished: Vec<Finished<N>>,
) -> (ArrayVec<Option<Shares<N>>, 17>, WorkerLists)
    requires { length finished.items ≤ 16 }
    ensures shares { result.0.items
        ≡ Some shares ∷ map (λ h. Some (with_items zeros h.items)) finished.items }
    ensures lists { result.1 ≡ finished.items }
{
    let mut all = ArrayVec::new();
    let mut lists = WorkerLists::new();
    all.push(Some(shares));
    for f in finished {
        let (list, shares) = f.into_parts();
        all.push(Some(shares));
        lists.push(list);
    }
    (all, lists)
}

/// The totals of the keys of a session, whose books hold these amounts.
fn totals_of(session: &SessionState, amounts: &[u64; 10]) -> KeyTotals
    requires { (n : ℕ) → n < 8 →
        slice_index amounts.now n ≡ slot_total session.now.setting session.now.journal n }
    ensures keys { result ≡ key_totals session.now.setting session.now.journal }
    ensures few { length result ≤ 8 }
{
    let mut totals = KeyTotals::new();
    for (slot, state) in session.usage().states().iter().enumerate() {
        totals.push(KeyTotal {
            key: state.key.copy(),
            counted: amounts[slot],
            reported: state.reported,
            unreported: state.unreported,
        });
    }
    totals
}

impl<N: Naming, W: Board<Cell<N>> + Drop, P: Pooling> State<N, W, P> {
    /// How many workers were ever attached.
    fn workers(&self) -> u8
        ensures number { result ≡ attach_count self.now.session.journal }
        ensures most { result ≤ 16 }
    {
        self.books.issued() - 1
    }

    /// The totals of the session when all its workers have left and what each has was handed in. What is counted for a
    /// key is then what the own lists of the workers have for it, and it is reported or unreported. Where the session
    /// stores its rows, and each worker its own list, lists are compared: each worker's list is its lane, and the desk's
    /// list is the journal's commands. Where there is a fault, gives all back with the first in the order of
    /// [`GatherFault`]. Takes no memory. The conditions of the caller: the desk and the workers are those of this lock,
    /// and no two of them are of one worker.
    // Apart, for inlined it takes LLVM a minute and a half: the value is large, and is moved three times.
    #[inline(never)]
    pub fn gather(
        self,
        desk: Desk<N>,
        finished: Vec<Finished<N>>,
    ) -> Result<Totals<P>, StateUngathered<N, W, P>>
        requires { length finished.items ≤ 16 }
        ensures journal { IfOk result (λ t. t.session.journal ≡ self.session.journal) }
        ensures totals { IfOk result
            (AddUpTo N.setting P.is_there desk.commands finished.items) }
        ensures fault { IfErr result (λ e.
            IsAtFault self.session.journal desk.commands finished.items e.fault) }
        ensures back { IfErr result (λ e. (e.state ≡ self)
            × (e.desk ≡ desk) × (e.finished.items ≡ finished.items)) }
    {
        let workers = self.workers();
        let compared = are_compared(&self.session, finished.as_slice());
        if let Some(fault) = gather_fault(
            &self.session,
            desk.commands(),
            finished.as_slice(),
            workers,
            compared,
        ) {
            return Err(StateUngathered {
                fault,
                state: self,
                desk,
                finished,
            });
        }
        let abandoned = abandoned_rows(finished.as_slice());
        let (shares, lists) = all_shares(desk.into_shares(), finished);
        let State {
            alloc: _,
            session,
            publisher: _,
            subscribers: _,
            books,
            rates,
            places: _,
        } = self;
        let Ok(amounts) = books.gather(shares) else {
            unreachable!()
        };
        let (session, archive) = session.into_parts();
        let keys = totals_of(&session, &amounts);
        Ok(Totals {
            session,
            archive,
            compared,
            rows: amounts[8],
            abandoned,
            keys,
            lists,
            rates,
        })
    }
}
