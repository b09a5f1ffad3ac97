//! The calls of C on a session over Gx behind their pointers: each is a call on a handle, with its answer as a number.

ghost use Rattle.std.specs.Prelude.{◌≡◌, option_map};
ghost use Rattle.pcef_c.specs.GxCalls.{AgainReturns, BeginsAs, ClosesGx, EndReturns, GiveUpReturns, IsPutOctets, LeftReturns, MessageReturns, NextReturns, NoticeReturns, OpenGxReturns, RenewGxReturns, ReplyReturns, RequestReturns, SetReturns, StageReturns, access_kind, replied, request_in};
ghost use Rattle.pcef_c.specs.GxPorts.{IsEmptyPort};
ghost use Rattle.pcef_c.specs.Named.{named_part};

use crate::gx_numbers::{
    begin_number, end_number, go_on_number, hear_number, left_after, next_number, notice_number,
    stage_number,
};
use crate::gx_port::{CLeft, GxPort, HostNames, NOTHING_LEFT, Part};
use crate::numbers::flag_number;
use pcef_gx_handle::{BeginRefusal, Dialogue, GxHandle, notice};
use pcef_gx_messages::{Identity, RequestMark};
use pcef_handle::{Handle, copy_front};
use pcef_model::AccessKind;
use std::alloc::Global;

/// A port without a dialogue.
pub(crate) fn empty_port(alloc: Global) -> GxPort
    ensures { IsEmptyPort result }
{
    GxPort::new(alloc)
}

/// The part of a number.
fn part_of(part: u8) -> Option<Part>
    ensures { result ≡ named_part part }
{
    match part {
        0 => Some(Part::SessionId),
        1 => Some(Part::OriginHost),
        2 => Some(Part::OriginRealm),
        3 => Some(Part::DestinationRealm),
        4 => Some(Part::Avps),
        _ => None,
    }
}

/// Says a part of what the host says of the session. Returns 0, or why not.
pub(crate) fn set(port: &mut GxPort, part: u8, octets: &[u8]) -> u8
    ensures { SetReturns port.old part octets.now port.new result }
{
    let Some(part) = part_of(part) else {
        return 11;
    };
    match port.names.set(port.gx.alloc, part, octets) {
        Ok(()) => 0,
        Err(_) => 7,
    }
}

/// Begins a dialogue of what the host says.
fn begin(gx: &mut GxHandle, profile: &[u8], names: &HostNames) -> Option<Result<(), BeginRefusal>>
    ensures { BeginsAs profile.now names.now gx.old.dialogue result gx.new.dialogue }
{
    let identity = Identity::new(
        &names.session_id,
        &names.origin_host,
        &names.origin_realm,
        &names.destination_realm,
    )?;
    Some(gx.open(profile, &identity, &names.avps))
}

/// Begins the dialogue of a session with this profile. Returns 0, or why none begins.
pub(crate) fn open_gx(port: &mut GxPort, profile: &[u8]) -> u8
    ensures { OpenGxReturns port.old profile.now port.new result }
{
    match begin(&mut port.gx, profile, &port.names) {
        Some(begun) => {
            port.left = NOTHING_LEFT;
            begin_number(begun)
        }
        None => 12,
    }
}

/// Hears a message of the PCRF. Returns what it said, or why it isn't heard.
pub(crate) fn message(handle: &mut Handle, port: &mut GxPort, message: &[u8]) -> u8
    ensures { MessageReturns handle.old port.old message.now handle.new port.new result }
{
    let heard = port.gx.hear(handle, message);
    port.left = left_after(&heard, port.left);
    hear_number(&heard)
}

/// Sends the CCR that is due, with these identifiers. Returns what it is for, 0 where none is due, or why none goes out.
pub(crate) fn next(handle: &mut Handle, port: &mut GxPort, hop_by_hop: u32, end_to_end: u32) -> u8
    ensures { NextReturns handle.old port.old hop_by_hop end_to_end handle.new port.new result }
{
    let mark = RequestMark {
        hop_by_hop,
        end_to_end,
        retransmitted: false,
    };
    let next = port.gx.next(handle, mark);
    next_number(next)
}

/// Ends the session. Returns 0, or why it doesn't end.
pub(crate) fn end(handle: &mut Handle, port: &mut GxPort) -> u8
    ensures { EndReturns handle.old port.old handle.new port.new result }
{
    let ended = port.gx.end(handle);
    end_number(ended)
}

/// Renews the session, and goes on with the dialogue. Returns 0, or why not.
pub(crate) fn renew_gx(handle: &mut Handle, port: &mut GxPort) -> u8
    ensures { RenewGxReturns handle.old port.old handle.new port.new result }
{
    let renewed = port.gx.renew(handle);
    go_on_number(renewed)
}

/// The kind of access event of a number, that of its event trigger.
fn kind_of(number: u8) -> Option<AccessKind>
    ensures { result ≡ access_kind number }
{
    match number {
        2 => Some(AccessKind::RatChange),
        4 => Some(AccessKind::PlmnChange),
        13 => Some(AccessKind::UserLocationChange),
        25 => Some(AccessKind::UeTimeZoneChange),
        _ => None,
    }
}

/// Notices an event of the access. Returns 0, or why not.
pub(crate) fn notice_event(handle: &mut Handle, kind: u8, octets: &[u8]) -> u8
    ensures { NoticeReturns handle.old kind octets.now handle.new result }
{
    match kind_of(kind) {
        Some(kind) => notice_number(notice(handle, kind, octets)),
        None => 44,
    }
}

/// Writes as much of octets as fits, and returns their length: 0 where there are none.
fn put(octets: Option<&[u8]>, buffer: &mut [u8]) -> usize
    ensures { IsPutOctets (option_map (λ o. o.now) octets.entry) buffer.old buffer.new result }
{
    match octets {
        Some(octets) => copy_front(octets, buffer),
        None => 0,
    }
}

/// The answer to the last request.
fn reply_of(dialogue: &Option<Dialogue>) -> Option<&[u8]>
    ensures { option_map (λ o. o.now) result ≡ replied dialogue.now }
{
    match dialogue {
        Some(dialogue) => dialogue.reply(),
        None => None,
    }
}

/// The CCR that is out.
fn request_of(dialogue: &Option<Dialogue>) -> Option<&[u8]>
    ensures { option_map (λ o. o.now) result ≡ request_in dialogue.now }
{
    match dialogue {
        Some(dialogue) => dialogue.request(),
        None => None,
    }
}

/// Writes the answer to the last request. Returns its length, 0 where there is none.
pub(crate) fn reply(port: &mut GxPort, buffer: &mut [u8]) -> usize
    ensures { ReplyReturns port.old buffer.old port.new buffer.new result }
{
    put(reply_of(&port.gx.dialogue), buffer)
}

/// Writes the CCR that is out. Returns its length, 0 where none is.
pub(crate) fn request(port: &mut GxPort, buffer: &mut [u8]) -> usize
    ensures { RequestReturns port.old buffer.old port.new buffer.new result }
{
    put(request_of(&port.gx.dialogue), buffer)
}

/// Marks the CCR that is out as one that may have been sent before. Returns 1, or 0 where none is out.
pub(crate) fn again(port: &mut GxPort) -> u8
    ensures { AgainReturns port.old port.new result }
{
    flag_number(port.gx.again())
}

/// Gives the CCR that is out up. Returns 1, or 0 where none was out.
pub(crate) fn give_up(port: &mut GxPort) -> u8
    ensures { GiveUpReturns port.old port.new result }
{
    flag_number(port.gx.give_up())
}

/// Where the dialogue stands, 0 where there is none.
pub(crate) fn stage(port: &mut GxPort) -> u8
    ensures { StageReturns port.old port.new result }
{
    match &port.gx.dialogue {
        Some(dialogue) => stage_number(dialogue.stage()),
        None => 0,
    }
}

/// Writes what the last message left to the host. Returns 1, or 0 where there is no dialogue, and nothing is written.
pub(crate) fn left(port: &mut GxPort, into: &mut CLeft) -> u8
    ensures { LeftReturns port.old into.old port.new into.new result }
{
    match &port.gx.dialogue {
        Some(_) => {
            *into = port.left;
            1
        }
        None => 0,
    }
}

/// Drops the dialogue, and what the host said. Returns 1, or 0 where there was no dialogue.
pub(crate) fn close_gx(port: &mut GxPort) -> u8
    ensures { ClosesGx port.old port.new result }
{
    let was = port.gx.dialogue.is_some();
    port.gx.close();
    port.names = HostNames::new(port.gx.alloc);
    flag_number(was)
}
