//! What the workers of a session and its desk hand in at the end, compared with its journal.

ghost use Rattle.std.specs.Prelude.{◌≡◌, ◌↔◌, ◌<◌, ◌≤◌, ◌+◌, ◌*◌, ◌==◌, ℕ, All, IfSome, IsTrue, None, find, length, map, reverse, slice_get, true};
ghost use Rattle.std.specs.Option.{option_map};
ghost use Rattle.pcef_model.specs.Entries.{lane};
ghost use Rattle.pcef_session.specs.Following.{row_of};
ghost use Rattle.pcef_model.specs.Journals.{attach_count};
ghost use Rattle.pcef_model.specs.Lawful.{Lawful};
ghost use Rattle.pcef_lock.specs.Gathering.{AgreeWith, AreCompared, CanGather, HasLane, IsAtFault, rows_abandoned};

use crate::finished::Finished;
use crate::key_totals::KeyTotals;
use crate::worker_lists::WorkerLists;
use pcef_handover::{are_commands, is_lane};
use pcef_journaled::{Archive, JournaledState};
use pcef_model::Command;
use pcef_session::SessionState;
use pcef_share::{Naming, NoPool, Pooling, RateShares};
use thiserror::Error;

/// Why there are no totals. The reasons are looked for in this order.
#[derive(Clone, Copy, Debug, PartialEq, Eq, Error)]
pub enum GatherFault {
    /// This many workers that were attached, 1 to 16, have handed nothing in.
    #[error("workers that were not handed in: {0}")]
    WorkersOut(u8),
    /// The own list of this worker isn't its lane.
    #[error("the list of worker {0} is not its lane")]
    LaneDiffers(u8),
    /// The list of the desk isn't the journal's commands.
    #[error("the list of the desk is not the journal's commands")]
    DeskDiffers,
}

/// What a session adds up to when all its workers have left.
#[derive(Drop)]
pub struct Totals<P: Pooling = NoPool> {
    /// The session, with all of its reports.
    pub session: SessionState,
    /// Its commands, and its rows, which are stored or not.
    pub archive: Archive,
    /// Whether all rows were stored, with the session and with each worker, so that lists were compared.
    pub compared: bool,
    /// How many rows its journal has.
    pub rows: u64,
    /// How many waiting rows workers abandoned.
    pub abandoned: u64,
    /// The keys that have a slot, in slot order.
    pub keys: KeyTotals,
    /// What the workers handed in, in the order in which it was gathered.
    pub lists: WorkerLists,
    /// The session's share of a pool in bit/s, where there is one.
    pub rates: Option<RateShares<P>>,
}

/// Whether the own lists of all workers are stored.
fn are_stored<N: Naming>(finished: &[Finished<N>]) -> bool
    ensures { IsTrue result ↔ All (λ h. h.keeps ≡ true) finished.now }
{
    finished.iter().all(|f| f.keeps_rows())
}

/// Whether the rows of the session and the own lists of all workers are stored.
pub(crate) fn are_compared<N: Naming>(session: &JournaledState, finished: &[Finished<N>]) -> bool
    ensures { IsTrue result ↔ AreCompared session.now.keeps finished.now }
{
    session.keeps_rows() && are_stored(finished)
}

/// What a worker handed in.
fn handed_in<N: Naming>(finished: &[Finished<N>], worker: u8) -> Option<&Finished<N>>
    requires { All (λ h. h.keeps ≡ true) finished.now }
    ensures stored { IfSome result (λ f. f.now.keeps ≡ true) }
    ensures found { option_map (λ f. f.now) result ≡ find (λ h. h.worker == worker) finished.now }
{
    finished.iter().find(|f| f.worker() == worker)
}

/// Whether a worker has handed in, and its own list is its lane.
fn has_lane<N: Naming>(session: &JournaledState, finished: &[Finished<N>], worker: u8) -> bool
    requires session { session.now.keeps ≡ true }
    requires lists { All (λ h. h.keeps ≡ true) finished.now }
    ensures { IsTrue result ↔ HasLane session.now.session.journal finished.now worker }
{
    match handed_in(finished, worker) {
        Some(own) => match own.items() {
            Some(items) => is_lane(items, session.lane(worker)),
            None => unreachable!(),
        },
        None => false,
    }
}

/// The first of the workers below `workers` whose lane differs from its own list.
pub(crate) fn first_difference<N: Naming>(
    session: &JournaledState,
    finished: &[Finished<N>],
    workers: u8,
) -> Option<u8>
    requires session { session.now.keeps ≡ true }
    requires lists { All (λ h. h.keeps ≡ true) finished.now }
    ensures none { result ≡ None → (w : ℕ) → w < workers →
        HasLane session.now.session.journal finished.now w }
    ensures some { IfSome result (λ w. (w < workers)
        × (HasLane session.now.session.journal finished.now w → ⊥)) }
{
    for worker in 0..workers {
        if !has_lane(session, finished, worker) {
            return Some(worker);
        }
    }
    None
}

/// The first stored list that differs from the journal: the own list of one of the workers below `workers`, or the list
/// of the desk.
fn difference<N: Naming>(
    session: &JournaledState,
    listed: &[Command],
    finished: &[Finished<N>],
    workers: u8,
) -> Option<GatherFault>
    requires session { session.now.keeps ≡ true }
    requires lists { All (λ h. h.keeps ≡ true) finished.now }
    requires workers { workers ≡ attach_count session.now.session.journal }
    requires here { workers ≤ length finished.now }
    ensures none { result ≡ None → AgreeWith session.now.session.journal listed.now finished.now }
    ensures some { IfSome result
        (IsAtFault session.now.session.journal listed.now finished.now) }
{
    if let Some(worker) = first_difference(session, finished, workers) {
        return Some(GatherFault::LaneDiffers(worker));
    }
    if !are_commands(listed, session.commands()) {
        return Some(GatherFault::DeskDiffers);
    }
    None
}

/// Why there are no totals of a session to which `workers` workers were attached, if there are none. The session's
/// journal is lawful.
pub(crate) fn gather_fault<N: Naming>(
    session: &JournaledState,
    listed: &[Command],
    finished: &[Finished<N>],
    workers: u8,
    compared: bool,
) -> Option<GatherFault>
    requires few { length finished.now ≤ 16 }
    requires workers { workers ≡ attach_count session.now.session.journal }
    requires compared { IsTrue compared → AreCompared session.now.keeps finished.now }
    ensures none { result ≡ None →
        CanGather compared session.now.session.journal listed.now finished.now }
    ensures some { IfSome result
        (IsAtFault session.now.session.journal listed.now finished.now) }
    ensures lawful { Lawful session.now.session.setting session.now.session.journal }
{
    // For what it says of the journal: that it is lawful.
    let _journal = session.session().journal();
    let here = finished.len() as u8;
    if here < workers {
        return Some(GatherFault::WorkersOut(workers - here));
    }
    if compared {
        return difference(session, listed, finished, workers);
    }
    None
}

/// How many waiting rows were abandoned.
pub(crate) fn abandoned_rows<N: Naming>(finished: &[Finished<N>]) -> u64
    requires { length finished.now ≤ 16 }
    ensures { result ≡ rows_abandoned finished.now }
{
    let mut abandoned = 0;
    for f in finished {
        abandoned += u64::from(f.abandoned());
    }
    abandoned
}
