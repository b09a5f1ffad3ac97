//! Messages with each of their octets changed, and one with each length of an AVP.

ghost use Rattle.std.specs.Prelude.{◌≡◌};

use super::everything::{AVPS, EVERYTHING};
use super::expect_equal;
use super::hexadecimal::{octets, set};
use super::playing::{SESSION_ID, answer, session, totals};
use super::repeated_rars::{ACTIVATE, RELEASE};
use pcef_built_in::ShapedCatalog;
use pcef_diameter::{read_message_header, read_unsigned32};
use pcef_world::WorldState;
use std::alloc::Global;

/// What each octet is set to.
static VALUES: [u8; 5] = [0x00, 0x01, 0x7f, 0x80, 0xff];

/// What is added to each length of an AVP: 1 to 4, and -4 to -1.
static STEPS: [u16; 8] = [1, 2, 3, 4, 0xfffc, 0xfffd, 0xfffe, 0xffff];

/// The codes of answers behind which a session may have changed: that of all done, that of rules that couldn't be had,
/// that of an order that couldn't be complied with.
static OF_DOING: [u32; 3] = [2001, 5142, 5012];

/// The codes of answers that refuse a message as a whole (RFC 6733, clause 7.1).
static OF_REFUSING: [u32; 12] = [
    3001, 3008, 5011, 5015, 3007, 3009, 5001, 5002, 5004, 5005, 5009, 5014,
];

/// What was seen.
#[derive(Drop)]
struct Tally {
    /// How many messages were played.
    played: u32,
    /// How many have an answer with the identifiers of its request and with its own length, and changed the session
    /// only where its orders were done.
    sound: u32,
    /// How many answers tell of another command, of the E bit, of another version and of another length: the first four
    /// of [`OF_REFUSING`].
    told: [u32; 4],
}

/// The length of the AVP that begins here, off by a step. Its first octet is 0 and stays so.
fn length_off(message: &[u8], begin: usize, step: u16) -> [u8; 2] {
    match message.get(begin.saturating_add(6)..begin.saturating_add(8)) {
        Some([high, low]) => {
            let length = u16::from_be_bytes([*high, *low]);
            length.wrapping_add(step).to_be_bytes()
        }
        _ => [0, 0],
    }
}

/// The number in these four octets; 0 where there are none.
fn number_at(answer: &[u8], at: usize) -> u32 {
    let octets = answer.get(at..at.saturating_add(4)).unwrap_or(&[]);
    read_unsigned32(octets).unwrap_or(0)
}

/// The Result-Code of an answer, or its Experimental-Result-Code: they stand behind the Session-Id, the second one behind a
/// Vendor-Id, whose code is 266.
fn code_in(answer: &[u8]) -> u32 {
    let session_id = (number_at(answer, 24) & 0xff_ffff) as usize;
    let result = 20usize.saturating_add(session_id.saturating_add(3) / 4 * 4);
    match number_at(answer, result.saturating_add(8)) {
        266 => number_at(answer, result.saturating_add(28)),
        code => code,
    }
}

/// Whether an answer has the identifiers of its request, and as many octets as it says.
fn is_for(answer: &[u8], request: &[u8]) -> bool {
    match (read_message_header(answer), read_message_header(request)) {
        (Some(own), Some(of)) => {
            !own.request
                && own.len as usize == answer.len()
                && (own.hop_by_hop, own.end_to_end) == (of.hop_by_hop, of.end_to_end)
        }
        _ => false,
    }
}

/// Whether the code of an answer is known, and lets the session change where it did.
fn is_known(code: u32, is_changed: bool) -> bool {
    OF_DOING.contains(&code) || (OF_REFUSING.contains(&code) && !is_changed)
}

/// Plays a message on a session: the code of its answer, where that is one to it. None where there is no such answer,
/// or where a message that was refused as a whole changed the session.
fn played(
    alloc: Global,
    catalog: &ShapedCatalog,
    world: &mut WorldState,
    message: &[u8],
) -> Option<u32>
    requires { catalog.now ≡ world.old.session.setting.catalog }
{
    let before = totals(world.session());
    let answered = answer(alloc, catalog, world, SESSION_ID, message)?;
    let octets = answered.answer.octets();
    let code = code_in(octets);
    if is_for(octets, message) && is_known(code, totals(world.session()) != before) {
        Some(code)
    } else {
        None
    }
}

/// The same on a new session.
fn played_alone(alloc: Global, catalog: &ShapedCatalog, message: &[u8]) -> Option<u32> {
    let mut world = session(alloc, catalog)?;
    played(alloc, catalog, &mut world, message)
}

impl Tally {
    /// Counts the answer to a message, by its code.
    fn count(&mut self, code: Option<u32>) {
        self.played = self.played.saturating_add(1);
        if let Some(code) = code {
            self.sound = self.sound.saturating_add(1);
            for (told, known) in self.told.iter_mut().zip(&OF_REFUSING) {
                if code == *known {
                    *told = told.saturating_add(1);
                }
            }
        }
    }
}

/// Plays a message with each of its octets changed. It stays as it was.
fn change_octets(alloc: Global, catalog: &ShapedCatalog, message: &mut Vec<u8>, tally: &mut Tally) {
    for at in 0..message.len() {
        let stood = message.get(at).copied().unwrap_or(0);
        for &value in &VALUES {
            set(message, at, value);
            tally.count(played_alone(alloc, catalog, message));
        }
        set(message, at, stood);
    }
}

/// Sets the length of the AVP that begins here.
fn set_length(message: &mut Vec<u8>, begin: usize, length: [u8; 2]) {
    let [high, low] = length;
    set(message, begin.saturating_add(6), high);
    set(message, begin.saturating_add(7), low);
}

/// Plays a message with each length of an AVP changed. It stays as it was.
fn change_lengths(
    alloc: Global,
    catalog: &ShapedCatalog,
    message: &mut Vec<u8>,
    tally: &mut Tally,
) {
    for &begin in &AVPS {
        let stood = length_off(message, begin, 0);
        for &step in &STEPS {
            set_length(message, begin, stood);
            let length = length_off(message, begin, step);
            set_length(message, begin, length);
            tally.count(played_alone(alloc, catalog, message));
        }
        set_length(message, begin, stood);
    }
}

/// Messages whose octets are changed: of 548, 460 and 264.
static MESSAGES: [&str; 3] = [EVERYTHING, ACTIVATE, RELEASE];

/// Plays each of them with each of its octets changed.
fn change_each(alloc: Global, catalog: &ShapedCatalog, tally: &mut Tally) {
    for message in &MESSAGES {
        change_octets(alloc, catalog, &mut octets(alloc, message), tally);
    }
}

/// What is seen of messages: how many are played, how many of them sound, and what the answers tell; zeros where
/// there is no catalog.
fn seen(alloc: Global) -> [u32; 6] {
    let mut tally = Tally {
        played: 0,
        sound: 0,
        told: [0; 4],
    };
    if let Ok(catalog) = ShapedCatalog::built_in(alloc) {
        change_each(alloc, &catalog, &mut tally);
        change_lengths(alloc, &catalog, &mut octets(alloc, EVERYTHING), &mut tally);
    }
    let [command, bits, version, length] = tally.told;
    [tally.played, tally.sound, command, bits, version, length]
}

// 1,272 octets with five values each, and 31 lengths with eight each. Three of each message's flags aren't those of a
// request. In the header the command is 0x000102, the flags are 0xc0, the version is 1, and the length 0x000224,
// 0x0001cc or 0x000108: 15, 5, 5 and 15 values are set there. Two of the command's stand there already, one of the
// version's, and one of the first length's and two of the others'; one of the flags' has both R and E.
#[test]
fn a_changed_request_is_always_answered(rt: HostRuntime) {
    expect_equal(&rt, &seen(rt.alloc()), &[6608, 6599, 39, 3, 12, 40]);
}
