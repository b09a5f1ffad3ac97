//! What is done at the place of a worker, which is there or has left.

ghost use Rattle.std.specs.Prelude.{◌≡◌, ◌≤◌, IfSome, true};
ghost use Rattle.pcef_model.specs.Refusals.{is_attached};
ghost use Rattle.pcef_table.specs.Tables.{IsTable};
ghost use Rattle.pcef_world.specs.private.Places.{AbandonsAt, HandsOverAt, LeavesAt, RefreshesAt, TakesAt};
ghost use Rattle.pcef_world.specs.Workers.{MayHandOver, held_by};

use crate::answer::{
    Abandoned, StepAnswer, finish_step_answer, flush_step_answer, take_step_answer,
};
use crate::worker::WorldWorker;
use pcef_catalog::Detects;
use pcef_packet::{Addr, Header};
use pcef_session::SessionState;
use std::alloc::AllocError;
use std::sync::Arc;

/// A worker takes a packet, after `handed_over` rows that it has handed over.
pub(crate) fn take_at<C: Detects>(
    place: &mut Option<WorldWorker>,
    catalog: &C,
    ue: Addr,
    handed_over: u64,
    header: &Header,
) -> Result<StepAnswer, AllocError>
    requires table { IfSome place.old (λ w. IsTable (C.offers catalog.now) (held_by w).entries) }
    requires few { IfSome place.old (λ w. handed_over ≤ 4294967295) }
    ensures { TakesAt (C.offers catalog.now) ue header.now handed_over place.old result place.new }
{
    match place {
        None => Ok(StepAnswer::NoWorker),
        Some(worker) => {
            let answer = worker.take(catalog, ue, handed_over, header)?;
            Ok(take_step_answer(answer))
        }
    }
}

/// A worker takes the session's newest table, and its generation is given.
pub(crate) fn refresh_at(
    place: &mut Option<WorldWorker>,
    session: &SessionState,
) -> Result<StepAnswer, AllocError>
    ensures { RefreshesAt session.now.setting session.now.journal place.old result place.new }
{
    match place {
        None => Ok(StepAnswer::NoWorker),
        Some(worker) => {
            worker.held = Arc::try_clone(session.indexed())?;
            Ok(StepAnswer::Refresh(worker.held.generation()))
        }
    }
}

/// A worker hands its rows over.
pub(crate) fn flush_at(
    place: &mut Option<WorldWorker>,
    session: &mut SessionState,
) -> Result<StepAnswer, AllocError>
    requires { IfSome place.old (MayHandOver session.old.setting session.old.journal) }
    ensures answer { HandsOverAt session.old place.old result session.new place.new }
    ensures setting { session.new.setting ≡ session.old.setting }
    ensures forgotten { session.new.forgotten ≡ session.old.forgotten }
{
    match place {
        None => Ok(StepAnswer::NoWorker),
        Some(worker) => flush_step_answer(worker.flush(session)),
    }
}

/// A worker hands its rows over and leaves its place.
pub(crate) fn finish_at(
    place: &mut Option<WorldWorker>,
    session: &mut SessionState,
) -> Result<StepAnswer, AllocError>
    requires { IfSome place.old (MayHandOver session.old.setting session.old.journal) }
    ensures answer { LeavesAt session.old place.old result session.new place.new }
    ensures setting { session.new.setting ≡ session.old.setting }
    ensures forgotten { session.new.forgotten ≡ session.old.forgotten }
{
    let answer = match &*place {
        None => return Ok(StepAnswer::NoWorker),
        Some(worker) => worker.finish(session),
    };
    match answer {
        Err(refusal) => finish_step_answer(Err(refusal)),
        Ok(finished) => {
            *place = None;
            Ok(StepAnswer::Finish(Ok(finished)))
        }
    }
}

/// A worker leaves its place without its waiting rows.
pub(crate) fn abandon_at(place: &mut Option<WorldWorker>, session: &mut SessionState) -> StepAnswer
    requires { IfSome place.old (λ w. is_attached session.old.journal w.number ≡ true) }
    ensures answer { AbandonsAt session.old.journal place.old result session.new.journal place.new }
    ensures setting { session.new.setting ≡ session.old.setting }
    ensures forgotten { session.new.forgotten ≡ session.old.forgotten }
{
    let abandoned = match &*place {
        None => return StepAnswer::NoWorker,
        Some(worker) => Abandoned {
            waiting: worker.waiting.len() as u8,
            rows: session.abandon(worker.number),
        },
    };
    *place = None;
    StepAnswer::Abandon(abandoned)
}
