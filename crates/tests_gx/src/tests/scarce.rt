//! Messages whose memory is refused.

ghost use Rattle.std.specs.Prelude.{◌≡◌};

use super::ccr_octets::{INITIAL, ONE_USAGE};
use super::granting::granted;
use super::hexadecimal::is_hexadecimal_of;
use super::playing::{nothing, request_header, responder, send, session, totals};
use super::rars::{INSTALL_TWO, NO_MEMORY_FOR_VOICE, NO_MEMORY_FOR_WEB, TWO_INSTALLED};
use super::{cca_octets, expect_equal};
use pcef_built_in::ShapedCatalog;
use pcef_gx_dialogue::{Ccrs, Grant, Responder, SendRefusal};
use pcef_gx_messages::RequestKind;
use pcef_world::WorldState;
use std::alloc::Global;
use std::process::Abort;
use std::test::Fail;

/// What came of a message.
#[derive(Clone, Copy)]
enum Outcome {
    /// What is due: both rules are had.
    Done,
    /// A rule couldn't be had for want of memory, and is told so.
    NoRule,
    /// None, and nothing changed; a second try has what is due.
    Nothing,
    /// Anything else.
    Wrong,
}

/// What is told, with what the session has then.
type Due = (&'static str, [u64; 6], Outcome);

/// Answers to the RAR.
static ANSWERS: [Due; 3] = [
    (TWO_INSTALLED, [2, 2, 64_000, 48_000, 0, 0], Outcome::Done),
    (NO_MEMORY_FOR_VOICE, [1, 1, 0, 0, 0, 0], Outcome::NoRule),
    (
        NO_MEMORY_FOR_WEB,
        [1, 1, 64_000, 48_000, 0, 0],
        Outcome::NoRule,
    ),
];

/// What is due behind the CCA.
static DUE_BEHIND: [Due; 3] = [
    (
        cca_octets::LOST,
        [2, 2, 64_000, 48_000, 0, 0],
        Outcome::Done,
    ),
    (
        cca_octets::LOST_AND_VOICE,
        [1, 1, 0, 0, 0, 0],
        Outcome::NoRule,
    ),
    (
        cca_octets::LOST_AND_WEB,
        [1, 1, 64_000, 48_000, 0, 0],
        Outcome::NoRule,
    ),
];

/// What these octets tell, where the session has what they say.
fn told(dues: &[Due], octets: &[u8], world: &WorldState) -> Outcome {
    let found = totals(world.session());
    for (text, totals, seen) in dues {
        if *totals == found && is_hexadecimal_of(octets, text) {
            return *seen;
        }
    }
    Outcome::Wrong
}

/// What comes of a first try and of a second one, which is made where the first is none.
fn at_last(first: Option<Outcome>, second: Option<Outcome>) -> Outcome {
    match (first, second) {
        (Some(seen), _) => seen,
        (None, Some(Outcome::Done)) => Outcome::Nothing,
        _ => Outcome::Wrong,
    }
}

/// What comes of a message that was done, or not; none where nothing changed, octets neither.
fn seen(
    is_done: bool,
    octets: &[u8],
    before: &str,
    dues: &[Due],
    world: &WorldState,
) -> Option<Outcome> {
    if is_done {
        return Some(told(dues, octets, world));
    }
    if is_hexadecimal_of(octets, before) && totals(world.session()) == [0; 6] {
        return None;
    }
    Some(Outcome::Wrong)
}

/// What comes of the RAR; none where there is no answer and nothing changed.
fn answered(
    alloc: Global,
    catalog: &ShapedCatalog,
    world: &mut WorldState,
    responder: &mut Responder,
    message: &[u8],
) -> Option<Outcome>
    requires { catalog.now ≡ world.old.session.setting.catalog }
    ensures { world.new.session.setting ≡ world.old.session.setting }
{
    let header = request_header(message)?;
    let is_done = responder
        .rar(alloc, catalog, world, &header, message)
        .is_ok();
    let reply = responder.reply().unwrap_or(&[]);
    seen(is_done, reply, "", &ANSWERS, world)
}

/// What comes of the orders of the CCA; none where nothing changed.
fn obeyed(
    alloc: Global,
    catalog: &ShapedCatalog,
    world: &mut WorldState,
    due: &mut Vec<u8>,
    message: &[u8],
) -> Option<Outcome>
    requires { catalog.now ≡ world.old.session.setting.catalog }
    ensures { world.new.session.setting ≡ world.old.session.setting }
{
    let out = (RequestKind::Initial, 0);
    let is_done = match granted(alloc, catalog, world, out, message, due) {
        Some((grant, _)) => grant == Grant::Done,
        None => false,
    };
    seen(is_done, due, ONE_USAGE, &DUE_BEHIND, world)
}

/// What comes of a CCR-I; none where none is out.
fn sent(alloc: Global, ccrs: &mut Ccrs) -> Option<Outcome> {
    let refused = send(alloc, ccrs, RequestKind::Initial, &nothing(alloc), false);
    match (refused, ccrs.out()) {
        (None, Some(out)) if is_hexadecimal_of(out, INITIAL) => Some(Outcome::Done),
        (Some(SendRefusal::NoMemory), None) => None,
        _ => Some(Outcome::Wrong),
    }
}

/// What comes of the RAR on a new session, tried again where there is no answer; none where there is no session.
fn answered_at_last(
    alloc: Global,
    catalog: &ShapedCatalog,
    responder: &mut Responder,
    message: &[u8],
) -> Option<Outcome> {
    let mut world = session(alloc, catalog)?;
    let first = answered(alloc, catalog, &mut world, responder, message);
    let second = match first {
        Some(_) => None,
        None => answered(alloc, catalog, &mut world, responder, message),
    };
    Some(at_last(first, second))
}

/// What comes of the CCA on a new session, tried again where nothing changed; none where there is no session.
fn obeyed_at_last(
    alloc: Global,
    catalog: &ShapedCatalog,
    due: &mut Vec<u8>,
    message: &[u8],
) -> Option<Outcome> {
    let mut world = session(alloc, catalog)?;
    let first = obeyed(alloc, catalog, &mut world, due, message);
    let second = match first {
        Some(_) => None,
        None => obeyed(alloc, catalog, &mut world, due, message),
    };
    Some(at_last(first, second))
}

/// What comes of a CCR-I, tried again where none is out.
fn sent_at_last(alloc: Global) -> Outcome {
    let mut ccrs = Ccrs::new();
    let first = sent(alloc, &mut ccrs);
    let second = match first {
        Some(_) => None,
        None => sent(alloc, &mut ccrs),
    };
    at_last(first, second)
}

/// The same with a new responder; none where there is none.
fn answered_by(alloc: Global, catalog: &ShapedCatalog, message: &[u8]) -> Option<Outcome> {
    let mut responder = responder(alloc)?;
    answered_at_last(alloc, catalog, &mut responder, message)
}

fn answered_by_one(alloc: Global) -> Option<Outcome> {
    match (
        ShapedCatalog::built_in(alloc),
        hex::decode(alloc, INSTALL_TWO.message),
    ) {
        (Ok(catalog), Ok(message)) => answered_by(alloc, &catalog, &message),
        _ => None,
    }
}

fn obeyed_by_one(alloc: Global) -> Option<Outcome> {
    match (
        ShapedCatalog::built_in(alloc),
        hex::decode(alloc, ONE_USAGE),
        hex::decode(alloc, cca_octets::INSTALL_TWO),
    ) {
        (Ok(catalog), Ok(mut due), Ok(message)) => {
            obeyed_at_last(alloc, &catalog, &mut due, &message)
        }
        _ => None,
    }
}

/// Whether it isn't wrong, and its name.
fn named(seen: Outcome) -> (bool, &'static str) {
    match seen {
        Outcome::Done => (true, "Done"),
        Outcome::NoRule => (true, "NoRule"),
        Outcome::Nothing => (true, "Nothing"),
        Outcome::Wrong => (false, "Wrong"),
    }
}

/// Writes what came of a message, and expects that it isn't wrong. Ends in error where there was no session.
fn end(rt: &(impl Print + Abort), seen: Option<Outcome>) -> Result<(), Fail> {
    match seen {
        Some(seen) => {
            let (is_right, name) = named(seen);
            println!(rt; "{name}")?;
            expect_equal(rt, &is_right, &true);
            Ok(())
        }
        None => Err("there is no session")?,
    }
}

// `.ci/refused-memory` refuses each allocation of these tests in turn.
#[test]
fn a_message_whose_memory_is_refused(rt: HostRuntime) -> Result<(), Fail> {
    end(&rt, answered_by_one(rt.alloc()))
}

#[test]
fn a_grant_whose_memory_is_refused(rt: HostRuntime) -> Result<(), Fail> {
    end(&rt, obeyed_by_one(rt.alloc()))
}

#[test]
fn a_ccr_whose_memory_is_refused(rt: HostRuntime) -> Result<(), Fail> {
    end(&rt, Some(sent_at_last(rt.alloc())))
}
