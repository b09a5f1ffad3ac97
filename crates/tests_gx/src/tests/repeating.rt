//! RARs that come again, and RARs where there is no session.

ghost use Rattle.std.specs.Prelude.{◌≡◌};

use super::expect_equal;
use super::hexadecimal::{octets, set};
use super::playing::{
    SESSION_ID, Step, first_wrong_on_one, left, request_header, responder, totals,
};
use super::repeated_rars::{
    ABORT, ABORT_REFUSED, ACTIVATE, ACTIVATE_BY_ANOTHER, ACTIVATE_DONE, ACTIVATE_UNKNOWN,
    FAULT_BETWEEN, FAULT_TOLD, RELEASE, RELEASE_DONE, RELEASE_UNKNOWN,
};
use pcef_built_in::ShapedCatalog;
use pcef_gx_dialogue::{RarDone, Responder};
use pcef_world::WorldState;
use std::alloc::Global;

/// A RAR, and what is due behind it.
struct Taken {
    /// Whether there is a session.
    has_session: bool,
    message: &'static str,
    /// Its Hop-by-Hop and End-to-End Identifiers, and its flags.
    marks: (u8, u8, u8),
    done: Seen,
    answer: &'static str,
    totals: [u64; 6],
}

/// What was done.
#[derive(Clone, Copy, PartialEq, Eq)]
enum Seen {
    /// It was answered before, and nothing was done.
    Again,
    /// It was answered, and leaves this to the host, as [`left`] has it.
    Done([u32; 5]),
    /// There is no session.
    Unknown,
}

/// Nothing is left to the host.
const ALONE: Seen = Seen::Done([0; 5]);

/// It watches for the event trigger 26.
const WATCHES: Seen = Seen::Done([2, 26, 0, 0, 0]);

/// A default bearer of QCI 5 and ARP 3, and the Session-Release-Cause 0.
const RELEASED: Seen = Seen::Done([0, 0, 5, 3, 1]);

static TAKEN: [Taken; 16] = [
    Taken {
        has_session: true,
        message: ACTIVATE,
        marks: (0x11, 1, 0xc0),
        done: WATCHES,
        answer: ACTIVATE_DONE,
        totals: [2, 1, 0, 0, 1, 1],
    },
    Taken {
        has_session: true,
        message: ACTIVATE,
        marks: (0x12, 1, 0xd0),
        done: Seen::Again,
        answer: ACTIVATE_DONE,
        totals: [2, 1, 0, 0, 1, 1],
    },
    // Of another host, and of the first one again: the last RAR alone is remembered.
    Taken {
        has_session: true,
        message: ACTIVATE_BY_ANOTHER,
        marks: (0x13, 1, 0xc0),
        done: WATCHES,
        answer: ACTIVATE_DONE,
        totals: [3, 1, 0, 0, 1, 2],
    },
    Taken {
        has_session: true,
        message: ACTIVATE,
        marks: (0x14, 1, 0xd0),
        done: WATCHES,
        answer: ACTIVATE_DONE,
        totals: [4, 1, 0, 0, 1, 3],
    },
    // With another End-to-End Identifier.
    Taken {
        has_session: true,
        message: ACTIVATE,
        marks: (0x14, 2, 0xc0),
        done: WATCHES,
        answer: ACTIVATE_DONE,
        totals: [5, 1, 0, 0, 1, 4],
    },
    // One that is refused as a whole is remembered too, and has the E bit again.
    Taken {
        has_session: true,
        message: ABORT,
        marks: (0x16, 3, 0xc0),
        done: ALONE,
        answer: ABORT_REFUSED,
        totals: [5, 1, 0, 0, 1, 4],
    },
    Taken {
        has_session: true,
        message: ABORT,
        marks: (0x17, 3, 0xd0),
        done: Seen::Again,
        answer: ABORT_REFUSED,
        totals: [5, 1, 0, 0, 1, 4],
    },
    // Where an AVP is at fault, no Origin-Host is known.
    Taken {
        has_session: true,
        message: FAULT_BETWEEN,
        marks: (0x18, 4, 0xc0),
        done: ALONE,
        answer: FAULT_TOLD,
        totals: [5, 1, 0, 0, 1, 4],
    },
    Taken {
        has_session: true,
        message: FAULT_BETWEEN,
        marks: (0x19, 4, 0xc0),
        done: ALONE,
        answer: FAULT_TOLD,
        totals: [5, 1, 0, 0, 1, 4],
    },
    Taken {
        has_session: true,
        message: RELEASE,
        marks: (0x1a, 5, 0xc0),
        done: RELEASED,
        answer: RELEASE_DONE,
        totals: [5, 1, 0, 0, 1, 4],
    },
    // What was answered is answered again, with a session or without.
    Taken {
        has_session: false,
        message: RELEASE,
        marks: (0x1b, 5, 0xd0),
        done: Seen::Unknown,
        answer: RELEASE_DONE,
        totals: [5, 1, 0, 0, 1, 4],
    },
    Taken {
        has_session: false,
        message: RELEASE,
        marks: (0x1c, 6, 0xc0),
        done: Seen::Unknown,
        answer: RELEASE_UNKNOWN,
        totals: [5, 1, 0, 0, 1, 4],
    },
    Taken {
        has_session: false,
        message: ABORT,
        marks: (0x1d, 7, 0xc0),
        done: Seen::Unknown,
        answer: ABORT_REFUSED,
        totals: [5, 1, 0, 0, 1, 4],
    },
    Taken {
        has_session: false,
        message: FAULT_BETWEEN,
        marks: (0x1e, 8, 0xc0),
        done: Seen::Unknown,
        answer: FAULT_TOLD,
        totals: [5, 1, 0, 0, 1, 4],
    },
    Taken {
        has_session: false,
        message: ACTIVATE,
        marks: (0x1f, 9, 0xc0),
        done: Seen::Unknown,
        answer: ACTIVATE_UNKNOWN,
        totals: [5, 1, 0, 0, 1, 4],
    },
    Taken {
        has_session: true,
        message: ACTIVATE,
        marks: (0x20, 9, 0xd0),
        done: Seen::Again,
        answer: ACTIVATE_UNKNOWN,
        totals: [5, 1, 0, 0, 1, 4],
    },
];

/// A message in hexadecimal with these identifiers.
fn marked(alloc: Global, text: &str, hop_by_hop: u8, end_to_end: u8) -> Vec<u8> {
    let mut message = octets(alloc, text);
    set(&mut message, 15, hop_by_hop);
    set(&mut message, 19, end_to_end);
    message
}

/// What was done for a RAR; none for want of memory.
fn done(
    alloc: Global,
    catalog: &ShapedCatalog,
    world: &mut WorldState,
    responder: &mut Responder,
    has_session: bool,
    message: &[u8],
) -> Option<Seen>
    requires { catalog.now ≡ world.old.session.setting.catalog }
    ensures { world.new.session.setting ≡ world.old.session.setting }
{
    let header = request_header(message)?;
    if !has_session {
        responder.unknown(alloc, &header, message).ok()?;
        return Some(Seen::Unknown);
    }
    match responder.rar(alloc, catalog, world, &header, message) {
        Ok(RarDone::Done(host)) => Some(Seen::Done(left(&host))),
        Ok(RarDone::Repeated) => Some(Seen::Again),
        Err(_) => None,
    }
}

impl Step for Taken {
    fn is_due(
        &self,
        alloc: Global,
        catalog: &ShapedCatalog,
        world: &mut WorldState,
        responder: &mut Responder,
    ) -> bool {
        let (hop_by_hop, end_to_end, flags) = self.marks;
        let mut message = marked(alloc, self.message, hop_by_hop, end_to_end);
        set(&mut message, 4, flags);
        let answer = marked(alloc, self.answer, hop_by_hop, end_to_end);
        let found = done(alloc, catalog, world, responder, self.has_session, &message);
        found == Some(self.done)
            && responder.reply().unwrap_or(&[]) == answer.as_slice()
            && totals(world.session()) == self.totals
    }
}

/// Whether a responder is of this session, and has no reply.
fn is_silent(responder: &Responder) -> bool {
    responder.party().identity().session_id() == SESSION_ID && responder.reply().is_none()
}

/// Whether one that answered nothing yet is.
fn is_new(alloc: Global) -> bool {
    match responder(alloc) {
        Some(responder) => is_silent(&responder),
        None => false,
    }
}

#[test]
fn a_rar_that_comes_again_is_answered_again(rt: HostRuntime) {
    let found = (is_new(rt.alloc()), first_wrong_on_one(rt.alloc(), &TAKEN));
    expect_equal(&rt, &found, &(true, Some(None)));
}
