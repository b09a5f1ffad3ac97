//! What a message of the PCRF leaves beside its orders, and the end of a CCR.

ghost use Rattle.std.specs.Prelude.{◌≡◌, ◌≤◌, ◌+◌, ◌++◌, IfOk, OnErr, OnOk, drop, length, option_map, vec_capacity};
ghost use Rattle.pcef_gx_dialogue.specs.Repeats.{left_by_done};
ghost use Rattle.pcef_model.specs.Setting.{same_qos};
ghost use Rattle.pcef_gx_handle.specs.Dialogues.{settled, stage_after};
ghost use Rattle.pcef_gx_handle.specs.Hearing.{has_loss, kept_told, qos_told, told_if, watches};

use crate::held::{Dialogue, Stage};
use crate::proposing::put_qos;
use pcef_gx::code::EVENT_TRIGGER;
use pcef_gx::put_number;
use pcef_gx_dialogue::RarDone;
use pcef_gx_messages::RequestKind;
use pcef_rule::Qos;
use std::alloc::{AllocError, Global};

/// Writes octets behind others, where there is room for them.
pub(crate) fn append(out: &mut Vec<u8>, octets: &[u8])
    requires { length out.old.items + length octets.now ≤ vec_capacity out.old }
    ensures { out.new.items ≡ out.old.items ++ octets.now }
{
    match out.extend_from_slice(octets) {
        Ok(()) => {}
        Err(_) => unreachable!(),
    }
}

/// Takes octets away from the front.
pub(crate) fn drop_front(octets: &mut Vec<u8>, count: usize)
    ensures { octets.new.items ≡ drop count octets.old.items }
{
    let len = octets.len();
    if len <= count {
        octets.clear();
        return;
    }
    octets.rotate_left(count);
    octets.truncate(len - count);
}

/// The AVPs that tell that the QoS of the default bearer stays.
#[tactic(auto, unfolding(crate::specs::Hearing::kept_told))]
pub(crate) fn kept_told(alloc: Global, qos: Qos) -> Result<Vec<u8>, AllocError>
    ensures { IfOk result (λ told. told.items ≡ kept_told qos) }
{
    let mut told = Vec::new(alloc);
    put_number(&mut told, EVENT_TRIGGER, 34)?;
    put_qos(alloc, &mut told, qos)?;
    Ok(told)
}

/// Whether these are the same QCI and the same ARP.
#[tactic(auto, using(pcef_model::proofs::Sameness::same_qos_is, pcef_model::proofs::Sameness::same_qos_of))]
fn same_qos(a: &Qos, b: &Qos) -> bool
    ensures { result ≡ same_qos a.now b.now }
{
    a == b
}

/// Which of these AVPs are told: all, where another QoS is asked for.
pub(crate) fn told_if<'a>(asked: &Option<Qos>, qos: &Qos, kept: &'a [u8]) -> &'a [u8]
    ensures told { result.now ≡ told_if asked.now qos.now kept.now }
    ensures few { length result.now ≤ length kept.now }
{
    match asked {
        Some(asked) if !same_qos(asked, qos) => kept,
        _ => &[],
    }
}

/// Whether LOSS_OF_BEARER is among event triggers.
fn has_loss(numbers: &[u32]) -> bool
    ensures { result ≡ has_loss numbers.now }
{
    numbers.iter().any(|number| *number == 5)
}

/// Whether LOSS_OF_BEARER is watched for, behind a list of event triggers.
pub(crate) fn watches(others: &Option<Vec<u32>>, before: bool) -> bool
    ensures { result ≡ watches (option_map (λ o. o.items) others.now) before }
{
    match others {
        Some(numbers) => has_loss(numbers),
        None => before,
    }
}

/// The QoS that a request asks for.
pub(crate) fn qos_asked(done: &RarDone) -> Option<Qos>
    ensures { result ≡ (left_by_done done.now).default_qos }
{
    match done {
        RarDone::Done(left) => left.default_qos,
        RarDone::Repeated => None,
    }
}

/// Whether LOSS_OF_BEARER is watched for, behind a request.
pub(crate) fn watches_behind(done: &RarDone, before: bool) -> bool
    ensures { result ≡ watches (left_by_done done.now).others before }
{
    match done {
        RarDone::Done(left) => watches(&left.others, before),
        RarDone::Repeated => before,
    }
}

/// Where a dialogue stands when a CCR was answered.
fn stage_after(success: bool, kind: Option<RequestKind>, stage: Stage) -> Stage
    ensures { result ≡ stage_after success kind stage }
{
    match (stage, kind) {
        (Stage::Opening, _) if success => Stage::Open,
        (Stage::Opening, _) => Stage::Over,
        (Stage::Ending, Some(RequestKind::Initial)) if !success => Stage::Over,
        (Stage::Ending, Some(RequestKind::Termination)) => Stage::Over,
        _ => stage,
    }
}

impl Dialogue {
    /// Takes note that the CCR that is out was answered.
    pub(crate) fn settle(&mut self, success: bool)
        ensures { self.new ≡ settled success self.old }
    {
        self.stage = stage_after(success, self.ccrs.kind(), self.stage);
        self.ccrs.answered(success);
        if success {
            drop_front(&mut self.due, self.due_out);
        }
        self.due_out = 0;
    }

    /// Lets the next CCR tell that the QoS of the default bearer stays, where another is asked for.
    pub(crate) fn tell_kept(&mut self, alloc: Global, asked: Option<Qos>) -> Result<(), AllocError>
        ensures told { OnOk result (self.new
            ≡ record self.old { due = self.old.due ++ qos_told asked self.old }) }
        ensures lacks { OnErr result (self.new ≡ self.old) }
    {
        let qos = self.profile.default_qos;
        let kept = kept_told(alloc, qos)?;
        self.due.extend_from_slice(told_if(&asked, &qos, &kept))?;
        Ok(())
    }
}
