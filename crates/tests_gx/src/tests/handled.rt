//! Sessions over one handle, from their first CCR to their last.

use super::expect_equal;
use super::hexadecimal::{is_hexadecimal_of, octets};
use super::one_session::{
    APN, EARLY_RAR, FAILED, FIRST_REQUEST, FIRST_REQUEST_AGAIN, GRANTED, GRANTED_MORE, HEARD,
    LAST_USAGE, LAST_USAGE_LATER, MISSING, NO_SESSION, OTHER_NUMBER, OVER, QOS_HEARD, QOS_STAYS,
    RAT, RAT_HEARD, RELEASE, RELEASED, RULE_FAILED, THRESHOLD, THRESHOLD_AT_LAST, THRESHOLD_LAST,
    THRESHOLD_LATER, UNDELIVERED, UNDELIVERED_OTHER,
};
use super::playing::{SESSION_ID, identity};
use super::used_up::{
    BOTH_USAGES, GRANTED_MEANWHILE, LAST_OF_GRANTED, LAST_OF_GRANTED_HEARD, LAST_OF_RENEWED,
    LAST_OF_STOPPED, LAST_OF_STOPPED_HEARD, MEANWHILE_DONE, REST, REST_HEARD, STOPPED_BY,
};
use pcef_gx_dialogue::{Grant, RarDone};
use pcef_gx_handle::{
    EndRefusal, GoOnRefusal, GxHandle, HearRefusal, Heard, NextRefusal, Stage, notice,
};
use pcef_gx_messages::{RequestKind, RequestMark};
use pcef_handle::Handle;
use pcef_model::AccessKind;
use std::alloc::Global;
use std::test::Fail;

/// What a message says.
#[derive(Clone, Copy, Debug, PartialEq, Eq)]
enum Said {
    Answered,
    Released(u32),
    Refused,
    Told,
    Ended,
    Failed(u32),
    NotOurs,
    Otherwise,
}

/// What is done with a session over Gx, and what is due.
#[derive(Clone, Copy)]
enum Play {
    /// A CCR goes out: its hop-by-hop identifier, what it is for, its octets.
    Next(u32, RequestKind, &'static str),
    /// Nothing is due, or a CCR is out.
    Nothing,
    /// A message comes, and what it says.
    Hear(&'static str, Said),
    /// The reply is this.
    Reply(&'static str),
    /// A line of the session's, and its answer.
    Line(&'static str, &'static str),
    /// The CCR that is out is sent once more.
    Again(&'static str),
    /// The CCR that is out is given up.
    GiveUp,
    /// The RAT-Type is another one.
    Rat(&'static [u8]),
    /// The session doesn't end: a worker is attached.
    EndWithWorker,
    /// The session is renewed, or refuses.
    Renew(Result<(), GoOnRefusal>),
    /// The session ends.
    End,
    /// The dialogue stands there.
    Stands(Stage),
}

/// A packet of 28 octets to 10.0.0.2.
const TAKE: &str =
    "{\"do\":\"take\",\"worker\":0,\"dir\":\"down\",\"packet\":\"4500001c0000000040110000c63364070a0000020035138800080000\"}";

/// A session with all that may come.
static WHOLE: [Play; 48] = [
    Play::Stands(Stage::Opening),
    Play::Next(1, RequestKind::Initial, FIRST_REQUEST),
    Play::Nothing,
    Play::Again(FIRST_REQUEST_AGAIN),
    Play::Hear(EARLY_RAR, Said::Refused),
    Play::Reply(NO_SESSION),
    Play::Hear(OTHER_NUMBER, Said::NotOurs),
    Play::Hear(GRANTED, Said::Told),
    Play::Stands(Stage::Open),
    Play::Next(2, RequestKind::Update, RULE_FAILED),
    Play::Hear(HEARD, Said::Told),
    Play::Hear(HEARD, Said::NotOurs),
    Play::Nothing,
    Play::Line(
        "{\"do\":\"attach\"}",
        "{\"generation\":2,\"ok\":true,\"worker\":0}",
    ),
    Play::Line(TAKE, "{\"ok\":true,\"waiting\":1}"),
    Play::Line(TAKE, "{\"ok\":true,\"waiting\":2}"),
    Play::Line(TAKE, "{\"ok\":true,\"waiting\":3}"),
    Play::Line(TAKE, "{\"ok\":true,\"waiting\":4}"),
    Play::Line("{\"do\":\"flush\",\"worker\":0}", ""),
    Play::Next(3, RequestKind::Update, THRESHOLD),
    Play::Hear(FAILED, Said::Failed(3004)),
    Play::Next(4, RequestKind::Update, THRESHOLD_LATER),
    Play::Hear(UNDELIVERED_OTHER, Said::Otherwise),
    Play::Hear(UNDELIVERED, Said::Failed(3002)),
    Play::Next(5, RequestKind::Update, THRESHOLD_LAST),
    Play::Hear(MISSING, Said::Failed(5005)),
    Play::Next(6, RequestKind::Update, THRESHOLD_AT_LAST),
    Play::Hear(GRANTED_MORE, Said::Told),
    Play::Next(7, RequestKind::Update, QOS_STAYS),
    Play::Hear(QOS_HEARD, Said::Told),
    Play::Rat(&[0, 0, 3, 0xec]),
    Play::Next(8, RequestKind::Update, RAT),
    Play::Hear(RAT_HEARD, Said::Told),
    Play::Line(TAKE, "{\"ok\":true,\"waiting\":1}"),
    Play::Hear(RELEASE, Said::Released(0)),
    Play::Reply(RELEASED),
    Play::Hear(RELEASE, Said::Answered),
    Play::Reply(RELEASED),
    Play::EndWithWorker,
    Play::Line("{\"do\":\"finish\",\"worker\":0}", ""),
    Play::End,
    Play::Stands(Stage::Ending),
    Play::Next(9, RequestKind::Termination, LAST_USAGE),
    Play::GiveUp,
    Play::Next(10, RequestKind::Termination, LAST_USAGE_LATER),
    Play::Hear(OVER, Said::Ended),
    Play::Stands(Stage::Over),
    Play::Nothing,
];

/// A session whose PCRF hears that its grant is used up, and grants nothing more: monitoring stops, and what came behind the
/// threshold is told.
static STOPPED: [Play; 22] = [
    Play::Next(1, RequestKind::Initial, FIRST_REQUEST),
    Play::Hear(GRANTED, Said::Told),
    Play::Next(2, RequestKind::Update, RULE_FAILED),
    Play::Hear(HEARD, Said::Told),
    Play::Line("{\"do\":\"attach\"}", ""),
    Play::Line(TAKE, ""),
    Play::Line(TAKE, ""),
    Play::Line(TAKE, ""),
    Play::Line(TAKE, ""),
    Play::Line("{\"do\":\"flush\",\"worker\":0}", ""),
    Play::Next(3, RequestKind::Update, THRESHOLD),
    Play::Line(TAKE, ""),
    Play::Line("{\"do\":\"flush\",\"worker\":0}", ""),
    Play::Hear(STOPPED_BY, Said::Told),
    Play::Next(4, RequestKind::Update, REST),
    Play::Hear(REST_HEARD, Said::Told),
    Play::Line("{\"do\":\"refresh\",\"worker\":0}", ""),
    Play::Line(TAKE, ""),
    Play::Line("{\"do\":\"finish\",\"worker\":0}", ""),
    Play::End,
    Play::Next(5, RequestKind::Termination, LAST_OF_STOPPED),
    Play::Hear(LAST_OF_STOPPED_HEARD, Said::Ended),
];

/// The same session, where a RAR grants more while the CCR-U is out: monitoring goes on.
static GOES_ON: [Play; 21] = [
    Play::Next(1, RequestKind::Initial, FIRST_REQUEST),
    Play::Hear(GRANTED, Said::Told),
    Play::Next(2, RequestKind::Update, RULE_FAILED),
    Play::Hear(HEARD, Said::Told),
    Play::Line("{\"do\":\"attach\"}", ""),
    Play::Line(TAKE, ""),
    Play::Line(TAKE, ""),
    Play::Line(TAKE, ""),
    Play::Line(TAKE, ""),
    Play::Line("{\"do\":\"flush\",\"worker\":0}", ""),
    Play::Next(3, RequestKind::Update, THRESHOLD),
    Play::Hear(GRANTED_MEANWHILE, Said::Answered),
    Play::Reply(MEANWHILE_DONE),
    Play::Line(TAKE, ""),
    Play::Hear(STOPPED_BY, Said::Told),
    Play::Nothing,
    Play::Line(TAKE, ""),
    Play::Line("{\"do\":\"finish\",\"worker\":0}", ""),
    Play::End,
    Play::Next(4, RequestKind::Termination, LAST_OF_GRANTED),
    Play::Hear(LAST_OF_GRANTED_HEARD, Said::Ended),
];

/// The same session, which is renewed while the CCR-U is out: the PCRF hears of all usage, once.
static RENEWED: [Play; 25] = [
    Play::Next(1, RequestKind::Initial, FIRST_REQUEST),
    Play::Hear(GRANTED, Said::Told),
    Play::Next(2, RequestKind::Update, RULE_FAILED),
    Play::Hear(HEARD, Said::Told),
    Play::Line("{\"do\":\"attach\"}", ""),
    Play::Line(TAKE, ""),
    Play::Line(TAKE, ""),
    Play::Line(TAKE, ""),
    Play::Line(TAKE, ""),
    Play::Line("{\"do\":\"flush\",\"worker\":0}", ""),
    Play::Next(3, RequestKind::Update, THRESHOLD),
    Play::Line(TAKE, ""),
    Play::Renew(Err(GoOnRefusal::SessionRefuses)),
    Play::Line("{\"do\":\"finish\",\"worker\":0}", ""),
    Play::Renew(Ok(())),
    Play::Nothing,
    Play::Hear(STOPPED_BY, Said::Told),
    Play::Next(4, RequestKind::Update, REST),
    Play::Hear(REST_HEARD, Said::Told),
    Play::Line("{\"do\":\"attach\"}", ""),
    Play::Line(TAKE, ""),
    Play::Line("{\"do\":\"finish\",\"worker\":0}", ""),
    Play::End,
    Play::Next(5, RequestKind::Termination, LAST_OF_RENEWED),
    Play::Hear(LAST_OF_STOPPED_HEARD, Said::Ended),
];

/// The same, where the CCR-U that is out fails.
static RENEWED_AND_FAILED: [Play; 20] = [
    Play::Next(1, RequestKind::Initial, FIRST_REQUEST),
    Play::Hear(GRANTED, Said::Told),
    Play::Next(2, RequestKind::Update, RULE_FAILED),
    Play::Hear(HEARD, Said::Told),
    Play::Line("{\"do\":\"attach\"}", ""),
    Play::Line(TAKE, ""),
    Play::Line(TAKE, ""),
    Play::Line(TAKE, ""),
    Play::Line(TAKE, ""),
    Play::Line("{\"do\":\"flush\",\"worker\":0}", ""),
    Play::Next(3, RequestKind::Update, THRESHOLD),
    Play::Line(TAKE, ""),
    Play::Renew(Err(GoOnRefusal::SessionRefuses)),
    Play::Line("{\"do\":\"finish\",\"worker\":0}", ""),
    Play::Renew(Ok(())),
    Play::Nothing,
    Play::Hear(FAILED, Said::Failed(3004)),
    Play::Next(4, RequestKind::Update, BOTH_USAGES),
    Play::Hear(REST_HEARD, Said::Told),
    Play::Nothing,
];

/// What a message said.
fn made_of(heard: &Result<Heard, HearRefusal>) -> Said {
    match heard {
        Ok(Heard::Answered(RarDone::Done(left))) => match left.release {
            Some(cause) => Said::Released(cause),
            None => Said::Answered,
        },
        Ok(Heard::Answered(RarDone::Repeated)) => Said::Answered,
        Ok(Heard::Refused) => Said::Refused,
        Ok(Heard::Told(Grant::Done, _)) => Said::Told,
        Ok(Heard::Ended) => Said::Ended,
        Ok(Heard::Failed(Some(code))) => Said::Failed(*code),
        Err(HearRefusal::NotOurs) => Said::NotOurs,
        _ => Said::Otherwise,
    }
}

/// Whether octets are there, and these.
fn are(octets: Option<&[u8]>, text: &str) -> bool {
    match octets {
        Some(octets) => is_hexadecimal_of(octets, text),
        None => false,
    }
}

/// Whether the reply of a dialogue is this.
fn replies(gx: &GxHandle, text: &str) -> bool {
    match &gx.dialogue {
        Some(dialogue) => are(dialogue.reply(), text),
        None => false,
    }
}

/// Whether the CCR that is out is this.
fn requests(gx: &GxHandle, text: &str) -> bool {
    match &gx.dialogue {
        Some(dialogue) => dialogue.is_out() && are(dialogue.request(), text),
        None => false,
    }
}

fn stands(gx: &GxHandle, stage: Stage) -> bool {
    match &gx.dialogue {
        Some(dialogue) => dialogue.stage() == stage,
        None => false,
    }
}

fn next(
    gx: &mut GxHandle,
    handle: &Handle,
    number: u32,
) -> Result<Option<RequestKind>, NextRefusal> {
    let mark = RequestMark {
        hop_by_hop: number,
        end_to_end: 100 + number % 100,
        retransmitted: false,
    };
    gx.next(handle, mark)
}

/// Whether a message says this.
fn hears(alloc: Global, gx: &mut GxHandle, handle: &mut Handle, message: &str, due: Said) -> bool {
    let heard = gx.hear(handle, &octets(alloc, message));
    made_of(&heard) == due
}

/// Whether a line has this answer, or any, where none is given.
fn answers(handle: &mut Handle, line: &str, due: &str) -> bool {
    let mut buffer = [0; 512];
    match handle.line(line.as_bytes(), &mut buffer) {
        Ok(length) => due.is_empty() || buffer.get(..length) == Some(due.as_bytes()),
        Err(_) => false,
    }
}

/// Whether what is done comes out as is due.
fn is_due(alloc: Global, gx: &mut GxHandle, handle: &mut Handle, play: &Play) -> bool {
    match play {
        Play::Next(number, kind, octets) => {
            next(gx, handle, *number) == Ok(Some(*kind)) && requests(gx, octets)
        }
        Play::Nothing => next(gx, handle, 0) == Ok(None),
        Play::Hear(message, due) => hears(alloc, gx, handle, message, *due),
        Play::Reply(octets) => replies(gx, octets),
        Play::Line(line, due) => answers(handle, line, due),
        Play::Again(octets) => gx.again() && requests(gx, octets),
        Play::GiveUp => gx.give_up(),
        Play::Rat(octets) => notice(handle, AccessKind::RatChange, octets) == Ok(()),
        Play::EndWithWorker => gx.end(handle) == Err(EndRefusal::WorkersAttached),
        Play::Renew(due) => gx.renew(handle) == *due,
        Play::End => gx.end(handle) == Ok(()),
        Play::Stands(stage) => stands(gx, *stage),
    }
}

/// The profile of the session that is proposed.
const PROFILE: &str =
    "ue = \"10.0.0.2\"\nrows = 1000\ncommands = 1000\n[default]\nqci = 9\nlevel = 8\ncapability = false\nvulnerability = true\n[capacity]\nup = 1000000\ndown = 2000000\n";

/// Whether a dialogue begins.
fn begins(alloc: Global, gx: &mut GxHandle) -> bool {
    let Some(identity) = identity(SESSION_ID) else {
        return false;
    };
    gx.open(PROFILE.as_bytes(), &identity, &octets(alloc, APN))
        .is_ok()
}

/// The place of the first of these plays that doesn't come out as is due; 255 where the dialogue doesn't begin.
fn first_wrong(alloc: Global, plays: &[Play]) -> Option<u8> {
    let mut gx = GxHandle::new(alloc);
    let mut handle = Handle::new(alloc);
    if !begins(alloc, &mut gx) {
        return Some(255);
    }
    let mut place = 0;
    for play in plays {
        if !is_due(alloc, &mut gx, &mut handle, play) {
            return Some(place);
        }
        place = u8::saturating_add(place, 1);
    }
    None
}

/// Sessions are proposed, granted, told of, and ended; each CCR and each answer is octet for octet as another program
/// worked it.
#[test]
fn sessions_go_from_their_first_request_to_their_last(rt: HostRuntime) -> Result<(), Fail> {
    let wrong = [
        first_wrong(rt.alloc(), &WHOLE),
        first_wrong(rt.alloc(), &STOPPED),
        first_wrong(rt.alloc(), &GOES_ON),
        first_wrong(rt.alloc(), &RENEWED),
        first_wrong(rt.alloc(), &RENEWED_AND_FAILED),
    ];
    expect_equal(&rt, &wrong, &[None; 5]);
    Ok(())
}
