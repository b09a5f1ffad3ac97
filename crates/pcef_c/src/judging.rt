//! Packets as C passes them, and their verdicts as C gets them.

ghost use Rattle.std.specs.Prelude.{◌≡◌, ◌≤◌, length};
ghost use Rattle.pcef_c.specs.Judging.{AreAsked, AreJudged, IsVerdictOn, bearer_of, direction_by_flag, place_number, status_of, c_verdict_of};

use crate::numbers::packet_number;
use pcef_handle::{Handle, JudgeRefusal};
use pcef_packet::Dir;
use pcef_world::{Brief, Outcome};

/// The first octets of a packet, its length, and its direction.
#[repr(C)]
pub struct CPacket<'a> {
    /// The octets of the packet that are at hand, from the first octet of its IP header on.
    pub octets: &'a [u8],
    /// How many octets the packet has.
    pub whole: usize,
    /// 0 for a packet to the user equipment, any other number for one from it.
    pub up: u8,
}

/// A verdict on a packet, as numbers.
#[derive(Clone, Copy)]
#[repr(C)]
pub struct CVerdict {
    /// The number of the generation that judged.
    pub generation: u32,
    /// What was decided, or why the packet wasn't judged.
    pub status: u8,
    /// The bearer on which the packet passes, else 0.
    pub bearer: u8,
    /// The place of the rule that decided, else 255.
    pub place: u8,
    /// Bit n is set where the packet counts for slot n.
    pub slots: u8,
}

pub(crate) fn dir_of(up: u8) -> Dir
    ensures { result ≡ direction_by_flag up }
{
    if up == 0 { Dir::Down } else { Dir::Up }
}

pub(crate) fn status_of(outcome: Outcome) -> u8
    ensures { result ≡ status_of outcome }
{
    match outcome {
        Outcome::Passed(_) => 0,
        Outcome::Gated => 1,
        Outcome::Unmatched => 2,
        Outcome::Stray => 3,
    }
}

pub(crate) fn bearer_of(outcome: Outcome) -> u8
    ensures { result ≡ bearer_of outcome }
{
    match outcome {
        Outcome::Passed(bearer) => bearer.0,
        _ => 0,
    }
}

pub(crate) fn place_of(place: Option<u8>) -> u8
    ensures { result ≡ place_number place }
{
    match place {
        Some(place) => place,
        None => 255,
    }
}

/// The verdict on a packet that wasn't judged.
pub(crate) fn unjudged(status: u8) -> CVerdict
    ensures { result ≡ record { generation = 0; status = status; bearer = 0; place = 255; slots = 0 } }
{
    CVerdict {
        generation: 0,
        status,
        bearer: 0,
        place: 255,
        slots: 0,
    }
}

fn c_verdict_of(judged: &Result<Brief, JudgeRefusal>) -> CVerdict
    ensures { result ≡ c_verdict_of judged.now }
{
    match judged {
        Ok(brief) => CVerdict {
            generation: brief.generation,
            status: status_of(brief.outcome),
            bearer: bearer_of(brief.outcome),
            place: place_of(brief.place),
            slots: brief.slots,
        },
        Err(JudgeRefusal::NoSession) => unjudged(4),
        Err(JudgeRefusal::NoPacket(fault)) => unjudged(packet_number(*fault)),
        Err(JudgeRefusal::TooFew) => unjudged(10),
    }
}

fn verdict_on(handle: &mut Handle, packet: &CPacket<'_>) -> CVerdict
    ensures handle { handle.new ≡ handle.old }
    ensures verdict { IsVerdictOn handle.old packet.now result }
{
    c_verdict_of(&handle.judge(dir_of(packet.up), packet.octets, packet.whole))
}

/// How many packets are asked for at once.
const AT_ONCE: usize = 32;

/// The first octet of a packet, or 0 where none is at hand.
fn first_octet(packet: &CPacket<'_>) -> u8 {
    match packet.octets.first() {
        Some(octet) => *octet,
        None => 0,
    }
}

/// Asks for the packets from one place to another, so that they are on their way from memory before the first of them
/// is judged: an octet of each is read. It is written where the packet's verdict will stand, for what nobody reads would
/// be left out.
fn ask_for(packets: &[CPacket<'_>], verdicts: &mut [CVerdict], from: usize, end: usize)
    requires packets { end ≤ length packets.now }
    requires verdicts { end ≤ length verdicts.old }
    ensures { AreAsked verdicts.old verdicts.new from end }
{
    for place in from..end {
        verdicts[place] = unjudged(first_octet(&packets[place]));
    }
}

/// Asks for the packets from a place on, below `count`, where so many were judged that the next are due.
fn ask_ahead(packets: &[CPacket<'_>], verdicts: &mut [CVerdict], place: usize, count: usize)
    requires packets { count ≤ length packets.now }
    requires verdicts { count ≤ length verdicts.old }
    ensures { AreAsked verdicts.old verdicts.new place count }
{
    if place % AT_ONCE == 0 {
        ask_for(
            packets,
            verdicts,
            place,
            count.min(place.saturating_add(AT_ONCE)),
        );
    }
}

/// Judges as many packets as there are verdicts, and returns their number.
pub(crate) fn judge_all(
    handle: &mut Handle,
    packets: &[CPacket<'_>],
    verdicts: &mut [CVerdict],
) -> usize
    ensures handle { handle.new ≡ handle.old }
    ensures judged { AreJudged handle.old packets.now verdicts.old verdicts.new result }
{
    let count = packets.len().min(verdicts.len());
    for place in 0..count {
        ask_ahead(packets, verdicts, place, count);
        verdicts[place] = verdict_on(handle, &packets[place]);
    }
    count
}
