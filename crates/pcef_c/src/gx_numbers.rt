//! The numbers that C gets of a session over Gx.

ghost use Rattle.std.specs.Prelude.{◌≡◌};
ghost use Rattle.pcef_c.specs.GxNumbers.{begin_number, end_number, go_on_number, hear_number, heard_left, left_after, left_numbers, next_number, notice_number, release_left, result_left, stage_number};

use crate::gx_port::{CLeft, NOTHING_LEFT};
use crate::numbers::open_number;
use pcef_gx_dialogue::{Grant, LeftToHost, RarDone};
use pcef_gx_handle::{
    BeginRefusal, EndRefusal, GoOnRefusal, HearRefusal, Heard, NextRefusal, NoticeRefusal, Stage,
};
use pcef_gx_messages::RequestKind;
use pcef_model::Refusal;

/// 0, or why no dialogue begins: of a profile, the number that `pcef_open` has for it.
pub(crate) fn begin_number(begun: Result<(), BeginRefusal>) -> u8
    ensures { result ≡ begin_number begun }
{
    match begun {
        Ok(()) => 0,
        Err(BeginRefusal::Profile(refusal)) => open_number(Err(refusal)),
        Err(BeginRefusal::NoMemory) => 7,
        Err(BeginRefusal::AlreadyBegun) => 9,
        Err(BeginRefusal::NotAvps) => 10,
    }
}

/// What a message said, or why it isn't heard.
pub(crate) fn hear_number(heard: &Result<Heard, HearRefusal>) -> u8
    ensures { result ≡ hear_number heard.now }
{
    match heard {
        Ok(Heard::Answered(RarDone::Done(_))) => 0,
        Ok(Heard::Answered(RarDone::Repeated)) => 1,
        Ok(Heard::Refused) => 2,
        Ok(Heard::Told(Grant::Done, _)) => 3,
        Ok(Heard::Told(Grant::CutShort, _)) => 4,
        Ok(Heard::Ended) => 5,
        Ok(Heard::NotOpened(_)) => 6,
        Ok(Heard::Failed(_)) => 7,
        Err(HearRefusal::NoDialogue) => 32,
        Err(HearRefusal::NoMessage) => 33,
        Err(HearRefusal::NotOurs) => 34,
        Err(HearRefusal::AtFault(_)) => 35,
        Err(HearRefusal::OtherSession) => 36,
        Err(HearRefusal::AlreadyOpen) => 37,
        Err(HearRefusal::NoMemory) => 38,
    }
}

/// The cause of a release.
fn release_left(cause: Option<u32>, left: CLeft) -> CLeft
    ensures { result ≡ release_left cause left }
{
    match cause {
        Some(release) => CLeft {
            release,
            has_release: 1,
            ..left
        },
        None => left,
    }
}

/// What is left to the host.
fn left_numbers(left: &LeftToHost) -> CLeft
    ensures { result ≡ left_numbers left.now }
{
    let has_triggers = match left.others {
        Some(_) => 1,
        None => 0,
    };
    release_left(
        left.release,
        CLeft {
            has_triggers,
            ..NOTHING_LEFT
        },
    )
}

/// The Result-Code of a CCR that failed.
fn result_left(code: Option<u32>) -> CLeft
    ensures { result ≡ result_left code }
{
    match code {
        Some(result_code) => CLeft {
            result_code,
            has_result_code: 1,
            ..NOTHING_LEFT
        },
        None => NOTHING_LEFT,
    }
}

/// What a message that was heard leaves.
fn heard_left(heard: &Heard) -> CLeft
    ensures { result ≡ heard_left heard.now }
{
    match heard {
        Heard::Answered(RarDone::Done(left)) => left_numbers(left),
        Heard::Told(_, left) => left_numbers(left),
        Heard::Failed(code) => result_left(*code),
        _ => NOTHING_LEFT,
    }
}

/// What is left behind a message: one that isn't heard leaves what was left.
pub(crate) fn left_after(heard: &Result<Heard, HearRefusal>, before: CLeft) -> CLeft
    ensures { result ≡ left_after heard.now before }
{
    match heard {
        Ok(heard) => heard_left(heard),
        Err(_) => before,
    }
}

/// What a CCR is for, 0 where none goes out, or why none does.
pub(crate) fn next_number(next: Result<Option<RequestKind>, NextRefusal>) -> u8
    ensures { result ≡ next_number next }
{
    match next {
        Ok(None) => 0,
        Ok(Some(RequestKind::Initial)) => 1,
        Ok(Some(RequestKind::Update)) => 2,
        Ok(Some(RequestKind::Termination)) => 3,
        Err(NextRefusal::NoDialogue) => 32,
        Err(NextRefusal::OtherSession) => 36,
        Err(NextRefusal::NoMemory) => 38,
        Err(NextRefusal::Forgotten) => 39,
        Err(NextRefusal::NoNumber) => 40,
    }
}

/// 0, or why the session isn't ended.
pub(crate) fn end_number(ended: Result<(), EndRefusal>) -> u8
    ensures { result ≡ end_number ended }
{
    match ended {
        Ok(()) => 0,
        Err(EndRefusal::NoDialogue) => 32,
        Err(EndRefusal::OtherSession) => 36,
        Err(EndRefusal::NoMemory) => 38,
        Err(EndRefusal::WorkersAttached) => 41,
    }
}

/// 0, or why the session isn't renewed.
pub(crate) fn go_on_number(renewed: Result<(), GoOnRefusal>) -> u8
    ensures { result ≡ go_on_number renewed }
{
    match renewed {
        Ok(()) => 0,
        Err(GoOnRefusal::NoDialogue) => 32,
        Err(GoOnRefusal::OtherSession) => 36,
        Err(GoOnRefusal::NoMemory) => 38,
        Err(GoOnRefusal::Forgotten) => 39,
        Err(GoOnRefusal::SessionRefuses) => 43,
        Err(GoOnRefusal::ReportsDue) => 45,
    }
}

/// 0, or why an event isn't noticed.
pub(crate) fn notice_number(noticed: Result<(), NoticeRefusal>) -> u8
    ensures { result ≡ notice_number noticed }
{
    match noticed {
        Ok(()) => 0,
        Err(NoticeRefusal::NoSession) => 36,
        Err(NoticeRefusal::Session(Refusal::NoMemory)) => 38,
        Err(NoticeRefusal::NoValue) => 42,
        Err(NoticeRefusal::Session(_)) => 43,
    }
}

/// Where a dialogue stands.
pub(crate) fn stage_number(stage: Stage) -> u8
    ensures { result ≡ stage_number stage }
{
    match stage {
        Stage::Opening => 1,
        Stage::Open => 2,
        Stage::Ending => 3,
        Stage::Over => 4,
    }
}
