//! CCRs one after the other, of which one is out at a time.

use super::ccr_octets::{
    FIRST_UPDATE, INITIAL, INITIAL_AGAIN, ONE_USAGE, SECOND_UPDATE, TERMINATION, THIRD_UPDATE,
    TWO_USAGES,
};
use super::expect_equal;
use super::hexadecimal::{is_hexadecimal_of, octets};
use super::playing::send;
use pcef_gx_dialogue::{Ccrs, SendRefusal};
use pcef_gx_messages::RequestKind;
use pcef_gx_updates::Update;
use std::alloc::Global;

/// What is called.
enum Call {
    /// `send` of AVPs that tell so many reports, first or again.
    Send(RequestKind, &'static str, usize),
    SendMarked(RequestKind, &'static str, usize),
    SendAgain,
    Answered(bool),
    GiveUp,
}

/// What is called, why it is refused, the CCR that is out then, its kind and number, and how many reports are told.
struct Called(
    Call,
    Option<SendRefusal>,
    Option<&'static str>,
    Option<(u32, u32)>,
    u64,
);

static CALLED: [Called; 18] = [
    Called(Call::Answered(true), None, None, None, 0),
    Called(Call::SendAgain, None, None, None, 0),
    Called(
        Call::Send(RequestKind::Initial, "", 0),
        None,
        Some(INITIAL),
        Some((1, 0)),
        0,
    ),
    Called(
        Call::Send(RequestKind::Update, TWO_USAGES, 2),
        Some(SendRefusal::IsOut),
        Some(INITIAL),
        Some((1, 0)),
        0,
    ),
    Called(Call::SendAgain, None, Some(INITIAL_AGAIN), Some((1, 0)), 0),
    Called(Call::SendAgain, None, Some(INITIAL_AGAIN), Some((1, 0)), 0),
    Called(Call::Answered(true), None, None, None, 0),
    Called(
        Call::Send(RequestKind::Update, TWO_USAGES, 2),
        None,
        Some(FIRST_UPDATE),
        Some((2, 1)),
        0,
    ),
    Called(Call::Answered(false), None, None, None, 0),
    Called(
        Call::Send(RequestKind::Update, TWO_USAGES, 2),
        None,
        Some(SECOND_UPDATE),
        Some((2, 2)),
        0,
    ),
    Called(Call::Answered(true), None, None, None, 2),
    Called(Call::Answered(true), None, None, None, 2),
    Called(
        Call::SendMarked(RequestKind::Update, ONE_USAGE, 1),
        None,
        Some(THIRD_UPDATE),
        Some((2, 3)),
        2,
    ),
    Called(Call::GiveUp, None, None, None, 2),
    Called(
        Call::Send(RequestKind::Update, ONE_USAGE, usize::MAX),
        Some(SendRefusal::NoNumber),
        None,
        None,
        2,
    ),
    Called(
        Call::Send(RequestKind::Termination, ONE_USAGE, 1),
        None,
        Some(TERMINATION),
        Some((3, 4)),
        2,
    ),
    Called(Call::Answered(true), None, None, None, 3),
    Called(Call::GiveUp, None, None, None, 3),
];

/// An update of AVPs in hexadecimal.
fn update(alloc: Global, avps: &str, count: usize) -> Update {
    Update {
        avps: octets(alloc, avps),
        count,
    }
}

/// Makes a call, and answers why it is refused.
fn made(alloc: Global, ccrs: &mut Ccrs, call: &Call) -> Option<SendRefusal> {
    match call {
        Call::Send(kind, avps, count) => {
            return send(alloc, ccrs, *kind, &update(alloc, avps, *count), false);
        }
        Call::SendMarked(kind, avps, count) => {
            return send(alloc, ccrs, *kind, &update(alloc, avps, *count), true);
        }
        Call::SendAgain => ccrs.send_again(),
        Call::Answered(success) => ccrs.answered(*success),
        Call::GiveUp => ccrs.give_up(),
    }
    None
}

/// Whether the CCR that is out is this one, in hexadecimal.
fn is_out(ccrs: &Ccrs, due: &Option<&str>) -> bool {
    match (ccrs.out(), due) {
        (Some(out), Some(due)) => is_hexadecimal_of(out, due),
        (None, None) => true,
        _ => false,
    }
}

/// Whether the CCR that is out is of this kind and number, and only an answer with both is its answer.
fn has_answer(ccrs: &Ccrs, due: Option<(u32, u32)>) -> bool {
    for kind in 0..5 {
        for number in 0..6 {
            if ccrs.is_answer(kind, number) != (due == Some((kind, number))) {
                return false;
            }
        }
    }
    match (ccrs.kind(), due) {
        (Some(kind), Some((number, _))) => kind.number() == number,
        (None, None) => true,
        _ => false,
    }
}

impl Called {
    /// Makes the call. Whether all is as due then.
    fn is_due(&self, alloc: Global, ccrs: &mut Ccrs) -> bool {
        let refused = made(alloc, ccrs, &self.0);
        refused == self.1
            && is_out(ccrs, &self.2)
            && has_answer(ccrs, self.3)
            && ccrs.told() == self.4
    }
}

/// The first call behind which not all is as due.
fn first_wrong(alloc: Global) -> Option<usize> {
    let mut ccrs = Ccrs::new();
    for (place, call) in CALLED.iter().enumerate() {
        if !call.is_due(alloc, &mut ccrs) {
            return Some(place);
        }
    }
    None
}

#[test]
fn one_ccr_is_out_at_a_time(rt: HostRuntime) {
    expect_equal(&rt, &first_wrong(rt.alloc()), &None);
}
