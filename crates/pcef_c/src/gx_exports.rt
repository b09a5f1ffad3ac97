//! The functions that C calls for a session over Gx (TS 29.212): each makes one call of a safe function, by pointers to one
//! handle or two. `include/pcef.h` says what the caller owes.

ghost use Rattle.std.specs.Prelude.{◌≡◌};
ghost use Rattle.std.specs.Borrow.{sem};
ghost use Rattle.pcef_handle.specs.declared.held.Handle.{Handle};
ghost use Rattle.pcef_c.specs.GxCalls.{AgainReturns, ClosesGx, EndReturns, GiveUpReturns, LeftReturns, MessageReturns, NextReturns, NoticeReturns, OpenGxReturns, RenewGxReturns, ReplyReturns, RequestReturns, SetReturns, StageReturns};
ghost use Rattle.pcef_c.specs.GxPorts.{IsEmptyPort};
ghost use Rattle.pcef_c.specs.Handles.{gx_lies, gx_room, gx_size, lies};
ghost use Rattle.pcef_c.specs.declared.gx_port.GxPort.{GxPort};

use crate::gx_calls::{
    again, close_gx, empty_port, end, give_up, left, message, next, notice_event, open_gx,
    renew_gx, reply, request, set, stage,
};
use crate::gx_port::{CLeft, GxPort};
use pcef_handle::Handle;
use std::alloc::Global;
use std::mem::size_of;

/// The size of a handle over Gx, in octets. Its room must be aligned to 16.
#[unsafe(no_mangle)]
pub extern "C" fn pcef_gx_size() -> usize
    ensures { result ≡ gx_size }
{
    size_of::<GxPort>()
}

/// Makes a handle without a dialogue in the room at an address. Takes no memory.
#[unsafe(no_mangle)]
pub unsafe extern "C" fn pcef_gx_room(alloc: Global, gx: *mut u8)
    requires* { sem 𝓛 (gx_room gx) }
    ensures* { ∃ₛ (λ (new : GxPort). sem 𝓛 (gx_lies gx new) ∗ ⌜ IsEmptyPort new ⌝) }
{
    std::ptr::write(gx as *mut GxPort, empty_port(alloc));
}

/// Says a part of what the host says of the session. Returns 0, or why not. Takes memory.
#[unsafe(no_mangle)]
pub unsafe extern "C" fn pcef_gx_set(gx: *mut u8, part: u8, octets: &[u8]) -> u8
    ghost old: { GxPort }
    requires* { sem 𝓛 (gx_lies gx old) }
    ensures* { ∃ₛ (λ (new : GxPort). sem 𝓛 (gx_lies gx new)
        ∗ ⌜ SetReturns old part octets.now new result ⌝) }
{
    set(&mut *(gx as *mut GxPort), part, octets)
}

/// Begins the dialogue of a session that is to have the profile of a text. Returns 0, or why none begins. Takes memory.
#[unsafe(no_mangle)]
pub unsafe extern "C" fn pcef_gx_open(gx: *mut u8, profile: &[u8]) -> u8
    ghost old: { GxPort }
    requires* { sem 𝓛 (gx_lies gx old) }
    ensures* { ∃ₛ (λ (new : GxPort). sem 𝓛 (gx_lies gx new)
        ∗ ⌜ OpenGxReturns old profile.now new result ⌝) }
{
    open_gx(&mut *(gx as *mut GxPort), profile)
}

/// Hears a message of the PCRF, in the session of the first handle. Returns what it said, or why it isn't heard. Takes
/// memory.
#[unsafe(no_mangle)]
pub unsafe extern "C" fn pcef_gx_message(at: *mut u8, gx: *mut u8, octets: &[u8]) -> u8
    ghost old: { Handle × GxPort }
    requires* { sem 𝓛 (lies at old.0) ∗ sem 𝓛 (gx_lies gx old.1) }
    ensures* { ∃ₛ (λ (new : Handle). ∃ₛ (λ (after : GxPort).
        (sem 𝓛 (lies at new) ∗ sem 𝓛 (gx_lies gx after))
        ∗ ⌜ MessageReturns old.0 old.1 octets.now new after result ⌝)) }
{
    message(&mut *(at as *mut Handle), &mut *(gx as *mut GxPort), octets)
}

/// Writes the answer to the last request, as much of it as fits. Returns its length, 0 where there is none. Takes no
/// memory.
#[unsafe(no_mangle)]
pub unsafe extern "C" fn pcef_gx_reply(gx: *mut u8, octets: &mut [u8]) -> usize
    ghost old: { GxPort }
    requires* { sem 𝓛 (gx_lies gx old) }
    ensures* { ∃ₛ (λ (new : GxPort). sem 𝓛 (gx_lies gx new)
        ∗ ⌜ ReplyReturns old octets.old new octets.new result ⌝) }
{
    reply(&mut *(gx as *mut GxPort), octets)
}

/// Sends the CCR that is due, with these identifiers. Returns what it is for, 0 where none is due, or why none goes out.
/// Takes memory.
#[unsafe(no_mangle)]
pub unsafe extern "C" fn pcef_gx_next(
    at: *mut u8,
    gx: *mut u8,
    hop_by_hop: u32,
    end_to_end: u32,
) -> u8
    ghost old: { Handle × GxPort }
    requires* { sem 𝓛 (lies at old.0) ∗ sem 𝓛 (gx_lies gx old.1) }
    ensures* { ∃ₛ (λ (new : Handle). ∃ₛ (λ (after : GxPort).
        (sem 𝓛 (lies at new) ∗ sem 𝓛 (gx_lies gx after))
        ∗ ⌜ NextReturns old.0 old.1 hop_by_hop end_to_end new after result ⌝)) }
{
    next(
        &mut *(at as *mut Handle),
        &mut *(gx as *mut GxPort),
        hop_by_hop,
        end_to_end,
    )
}

/// Writes the CCR that is out, as much of it as fits. Returns its length, 0 where none is out. Takes no memory.
#[unsafe(no_mangle)]
pub unsafe extern "C" fn pcef_gx_request(gx: *mut u8, octets: &mut [u8]) -> usize
    ghost old: { GxPort }
    requires* { sem 𝓛 (gx_lies gx old) }
    ensures* { ∃ₛ (λ (new : GxPort). sem 𝓛 (gx_lies gx new)
        ∗ ⌜ RequestReturns old octets.old new octets.new result ⌝) }
{
    request(&mut *(gx as *mut GxPort), octets)
}

/// Marks the CCR that is out as one that may have been sent before. Returns 1, or 0 where none is out. Takes no memory.
#[unsafe(no_mangle)]
pub unsafe extern "C" fn pcef_gx_again(gx: *mut u8) -> u8
    ghost old: { GxPort }
    requires* { sem 𝓛 (gx_lies gx old) }
    ensures* { ∃ₛ (λ (new : GxPort). sem 𝓛 (gx_lies gx new) ∗ ⌜ AgainReturns old new result ⌝) }
{
    again(&mut *(gx as *mut GxPort))
}

/// Gives the CCR that is out up: what it tells stays due. Returns 1, or 0 where none was out. Takes no memory.
#[unsafe(no_mangle)]
pub unsafe extern "C" fn pcef_gx_give_up(gx: *mut u8) -> u8
    ghost old: { GxPort }
    requires* { sem 𝓛 (gx_lies gx old) }
    ensures* { ∃ₛ (λ (new : GxPort). sem 𝓛 (gx_lies gx new) ∗ ⌜ GiveUpReturns old new result ⌝) }
{
    give_up(&mut *(gx as *mut GxPort))
}

/// Notices an event of the access of the session. Returns 0, or why not. Takes memory.
#[unsafe(no_mangle)]
pub unsafe extern "C" fn pcef_gx_notice(at: *mut u8, kind: u8, octets: &[u8]) -> u8
    ghost old: { Handle }
    requires* { sem 𝓛 (lies at old) }
    ensures* { ∃ₛ (λ (new : Handle). sem 𝓛 (lies at new)
        ∗ ⌜ NoticeReturns old kind octets.now new result ⌝) }
{
    notice_event(&mut *(at as *mut Handle), kind, octets)
}

/// Ends the session. Returns 0, or why it doesn't end. Takes memory.
#[unsafe(no_mangle)]
pub unsafe extern "C" fn pcef_gx_end(at: *mut u8, gx: *mut u8) -> u8
    ghost old: { Handle × GxPort }
    requires* { sem 𝓛 (lies at old.0) ∗ sem 𝓛 (gx_lies gx old.1) }
    ensures* { ∃ₛ (λ (new : Handle). ∃ₛ (λ (after : GxPort).
        (sem 𝓛 (lies at new) ∗ sem 𝓛 (gx_lies gx after))
        ∗ ⌜ EndReturns old.0 old.1 new after result ⌝)) }
{
    end(&mut *(at as *mut Handle), &mut *(gx as *mut GxPort))
}

/// Renews the session, and goes on with the dialogue. Returns 0, or why not. Takes memory.
#[unsafe(no_mangle)]
pub unsafe extern "C" fn pcef_gx_renew(at: *mut u8, gx: *mut u8) -> u8
    ghost old: { Handle × GxPort }
    requires* { sem 𝓛 (lies at old.0) ∗ sem 𝓛 (gx_lies gx old.1) }
    ensures* { ∃ₛ (λ (new : Handle). ∃ₛ (λ (after : GxPort).
        (sem 𝓛 (lies at new) ∗ sem 𝓛 (gx_lies gx after))
        ∗ ⌜ RenewGxReturns old.0 old.1 new after result ⌝)) }
{
    renew_gx(&mut *(at as *mut Handle), &mut *(gx as *mut GxPort))
}

/// Where the dialogue stands, 0 where there is none. Takes no memory.
#[unsafe(no_mangle)]
pub unsafe extern "C" fn pcef_gx_stage(gx: *mut u8) -> u8
    ghost old: { GxPort }
    requires* { sem 𝓛 (gx_lies gx old) }
    ensures* { ∃ₛ (λ (new : GxPort). sem 𝓛 (gx_lies gx new) ∗ ⌜ StageReturns old new result ⌝) }
{
    stage(&mut *(gx as *mut GxPort))
}

/// Writes what the last message left to the host. Returns 1, or 0 where there is no dialogue. Takes no memory.
#[unsafe(no_mangle)]
pub unsafe extern "C" fn pcef_gx_left(gx: *mut u8, into: &mut CLeft) -> u8
    ghost old: { GxPort }
    requires* { sem 𝓛 (gx_lies gx old) }
    ensures* { ∃ₛ (λ (new : GxPort). sem 𝓛 (gx_lies gx new)
        ∗ ⌜ LeftReturns old into.old new into.new result ⌝) }
{
    left(&mut *(gx as *mut GxPort), into)
}

/// Drops the dialogue, if there is one, and what the host said, and frees all memory but the handle's own. The session
/// stays. Returns 1, or 0 where there was none.
#[unsafe(no_mangle)]
pub unsafe extern "C" fn pcef_gx_close(gx: *mut u8) -> u8
    ghost old: { GxPort }
    requires* { sem 𝓛 (gx_lies gx old) }
    ensures* { ∃ₛ (λ (new : GxPort). sem 𝓛 (gx_lies gx new) ∗ ⌜ ClosesGx old new result ⌝) }
{
    close_gx(&mut *(gx as *mut GxPort))
}
