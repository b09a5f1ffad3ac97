//! A session is renewed in its place, and the answer to that.

ghost use Rattle.std.specs.Prelude.{◌≡◌, ◌≢◌, IfOk, OnErr, OnOk, length, string_bytes, true};
ghost use Rattle.std.specs.Bool.{OnTrue};
ghost use Rattle.pcef_model.specs.Journals.{attach_count};
ghost use Rattle.pcef_answer.specs.RefusalAnswers.{refusal_text};
ghost use Rattle.pcef_renewal.specs.declared.renewing.RenewRefusal.TheVariants as refusal;
ghost use Rattle.pcef_renewal_answer.specs.Texts.{reason_of};
ghost use Rattle.pcef_renewal_answer.specs.Renewed.{AnswersRenew, GoesOnLike, IsRenewedOrNot, LacksForRenew, renews};
ghost use Rattle.pcef_renewal_answer.specs.private.Pieces.{pieces_of, reports_text};

use crate::text::renewed_text;
use pcef_answer::{command_answer, reports_answer};
use pcef_catalog::Detects;
use pcef_model::Refusal;
use pcef_renewal::{BearerNumbers, RenewRefusal, RenewedWorld, renew_world};
use pcef_world::WorldState;
use std::alloc::{AllocError, Global};

/// The refusal of a command that has the same reason.
fn reason_of(reason: RenewRefusal) -> Refusal
    ensures { result ≡ reason_of reason }
{
    match reason {
        RenewRefusal::Terminated => Refusal::Terminated,
        RenewRefusal::WorkersAttached(count) => Refusal::WorkersAttached(count),
        RenewRefusal::NoCommandLeft => Refusal::CommandsFull,
        RenewRefusal::NoMemory => Refusal::NoMemory,
    }
}

/// The answer to a renewal that was refused, but for want of memory.
#[tactic(auto, unfolding(pcef_answer::specs::StepAnswers::command_text))]
fn refused_text(
    alloc: Global,
    world: &WorldState,
    reason: RenewRefusal,
) -> Result<String, AllocError>
    ensures text { IfOk result (λ text. string_bytes text ≡ refusal_text (reason_of reason)) }
    ensures told { OnOk result (reason ≢ refusal.NoMemory) }
{
    if reason == RenewRefusal::NoMemory {
        return Err(AllocError);
    }
    let refused = Err(reason_of(reason));
    command_answer(alloc, world.session().journal(), &refused)
}

/// The answer of a session that was ended: all its reports that aren't forgotten are in it.
fn ended_text(
    alloc: Global,
    ended: &WorldState,
    pairs: &[BearerNumbers],
) -> Result<String, AllocError>
    ensures { IfOk result (λ text. string_bytes text
        ≡ pieces_of pairs.now (reports_text ended.now.session)) }
{
    let journal = ended.session().journal();
    let reports = reports_answer(alloc, journal, journal.forgotten())?;
    renewed_text(alloc, pairs, reports.as_str())
}

/// What came of a renewal.
#[derive(Drop)]
pub struct RenewAnswer {
    /// Whether the session was renewed.
    pub renewed: bool,
    /// The answer, where there was memory for it.
    pub text: Result<String, AllocError>,
}

/// Answers for a session that was ended, and puts the new one in its place.
fn take_over(alloc: Global, world: &mut WorldState, renewed: RenewedWorld) -> RenewAnswer
    ensures text { IfOk result.text (λ text. string_bytes text
        ≡ pieces_of renewed.bearers.items (reports_text world.old.session)) }
    ensures renewed { result.renewed ≡ true }
    ensures there { world.new ≡ renewed.world }
    ensures places { attach_count renewed.world.session.journal ≡ length renewed.world.workers }
{
    let RenewedWorld {
        world: new,
        list: _,
        bearers,
        ended: _,
    } = renewed;
    // For its contract: it has a place for each worker that was ever attached.
    let _new = new.session();
    let text = ended_text(alloc, world, &bearers);
    *world = new;
    RenewAnswer {
        renewed: true,
        text,
    }
}

/// Renews a session in its place, and answers: the new numbers of its bearers, and the reports of the old session that
/// aren't forgotten, of which those of its end are the last. Or answers the first reason against it, by the name and
/// number that a refused command has for it, and changes nothing: `Terminated`, `WorkersAttached`, or `CommandsFull`
/// where the new session would take no further command. No worker is attached to the new session, and none of its
/// reports is forgotten. Takes memory for it and for the answer. When out of memory, the session is as before, or it is
/// renewed and the answer alone is lacking.
pub fn answer_renew<C: Detects>(alloc: Global, world: &mut WorldState, catalog: &C) -> RenewAnswer
    requires { C.offers catalog.now ≡ world.old.session.setting.catalog }
    ensures answer { IfOk result.text (λ text.
        AnswersRenew world.old (string_bytes text) world.new) }
    ensures told { OnOk result.text (result.renewed ≡ renews world.old) }
    ensures lacks { OnErr result.text (LacksForRenew world.old world.new) }
    ensures renewed { IsRenewedOrNot world.old result.renewed world.new }
    ensures like { OnTrue result.renewed (GoesOnLike world.old world.new) }
    ensures setting { world.new.session.setting ≡ world.old.session.setting }
{
    // For its contract: the journal is lawful.
    let _journal = world.session().journal();
    match renew_world(alloc, world, catalog) {
        Ok(renewed) => take_over(alloc, world, renewed),
        Err(reason) => RenewAnswer {
            renewed: false,
            text: refused_text(alloc, world, reason),
        },
    }
}
