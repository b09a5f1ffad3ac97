//! What a request of the PCRF asks for.

ghost use Rattle.std.specs.Prelude.{◌≡◌, ◌≤◌, IfOk, length, map, option_map, Result, true};
ghost use Rattle.pcef_diameter.specs.Avps.{shown};
ghost use Rattle.pcef_gx.specs.Messages.{Asked, RarOf, asked};
ghost use Rattle.pcef_gx.specs.Readings.{Fault, required_of};
ghost use Rattle.pcef_base.specs.Readings.{under};
ghost use Rattle.pcef_gx_messages.specs.Sent.{Told, told_of};
ghost use Rattle.pcef_gx_dialogue.specs.Requests.{RequestDue, Tells, addressed_avps, addressed_to, avps_in, command_told, data_in, header_told, of_gx, refused_first, told_fault};

use crate::halt::{Halt, halted_by};
use pcef_diameter::{Avp, HEADER_LEN, MessageFault, MessageHeader, read_unsigned32};
use pcef_gx::code::{AUTH_APPLICATION_ID, Code, SESSION_ID};
use pcef_gx::{Orders, Stop, group, only, read_rar, required};
use pcef_gx_messages::{GX, Identity, Outcome};
use std::alloc::{AllocError, Global};

/// The Command Code of a Re-Auth-Request (RFC 6733, clause 8.3.1).
pub const RE_AUTH: u32 = 258;

/// The most octets of a message.
pub const MAX_MESSAGE: usize = 65_536;

/// What is wrong with the header of a message of `count` octets.
fn header_told(header: &MessageHeader, count: usize) -> Option<Outcome<'static>>
    ensures { option_map told_of result ≡ header_told header.now count }
{
    match header.fault(count) {
        Some(MessageFault::Version) => Some(Outcome::Version),
        Some(MessageFault::Length) => Some(Outcome::Length),
        Some(MessageFault::Bits) => Some(Outcome::HeaderBits),
        None if count > MAX_MESSAGE => Some(Outcome::Length),
        None => None,
    }
}

/// Whether a request is one of another application or command.
fn command_told(header: &MessageHeader) -> Option<Outcome<'static>>
    ensures { option_map told_of result ≡ command_told header.now }
{
    if header.application != GX {
        return Some(Outcome::ApplicationUnsupported);
    }
    if header.command != RE_AUTH {
        return Some(Outcome::CommandUnsupported);
    }
    None
}

/// Why a request is refused by its header.
fn refused_first(header: &MessageHeader, count: usize) -> Option<Outcome<'static>>
    ensures { option_map told_of result ≡ refused_first header.now count }
{
    match header_told(header, count) {
        Some(outcome) => Some(outcome),
        None => command_told(header),
    }
}

/// The AVPs behind the header of a message.
#[tactic(auto, unfolding(crate::specs::Requests::avps_in))]
fn avps_in<'m>(alloc: Global, message: &'m [u8]) -> Result<Vec<Avp<'m>>, Halt<'m>>
    requires { 20 ≤ length message.now }
    ensures { Tells (λ avps. map shown avps.items) result (avps_in message.now) }
{
    match group(alloc, message.split_at(HEADER_LEN).1) {
        Ok(avps) => Ok(avps),
        Err(stop) => Err(halted_by(stop)),
    }
}

/// The AVP of this code, which has to be there once.
fn required_in<'m>(avps: &[Avp<'m>], code: Code) -> Result<Avp<'m>, Halt<'m>>
    ensures { Tells (λ avp. shown avp) result (under told_fault (required_of code (map shown avps.now))) }
{
    match required(avps, code) {
        Ok(avp) => Ok(avp),
        Err(stop) => Err(halted_by(stop)),
    }
}

/// The data of the one AVP of this code, where the AVPs of a message can be read. Takes memory; an `Err` is want of it.
#[tactic(auto, unfolding(crate::specs::Requests::data_in, crate::specs::Requests::avps_in))]
pub(crate) fn data_in<'m>(
    alloc: Global,
    code: Code,
    message: &'m [u8],
) -> Result<Option<&'m [u8]>, AllocError>
    requires { 20 ≤ length message.now }
    ensures { IfOk result (λ found. option_map (λ octets. octets.now) found ≡ data_in code message.now) }
{
    let avps = match group(alloc, message.split_at(HEADER_LEN).1) {
        Ok(avps) => avps,
        Err(Stop::Fault(_)) => return Ok(None),
        Err(Stop::NoMemory) => return Err(AllocError),
    };
    match only(&avps, code) {
        Ok(Some(avp)) => Ok(Some(avp.octets)),
        Ok(None) | Err(Stop::Fault(_)) => Ok(None),
        Err(Stop::NoMemory) => Err(AllocError),
    }
}

/// Whether the application is Gx.
fn of_gx(avp: Avp) -> bool
    ensures { result ≡ of_gx (shown avp.entry) }
{
    match read_unsigned32(avp.octets) {
        Some(number) => number == GX,
        None => false,
    }
}

/// Whether a request is for this session and for Gx.
#[tactic(auto, unfolding(crate::specs::Requests::addressed_to))]
fn addressed_to<'m>(avps: &[Avp<'m>], identity: &Identity) -> Result<(), Halt<'m>>
    ensures { Tells (λ _. true) result (addressed_to identity.now (map shown avps.now)) }
{
    let session = required_in(avps, SESSION_ID)?;
    if session.octets != identity.session_id() {
        return Err(Halt::Refused(Outcome::UnknownSession));
    }
    let application = required_in(avps, AUTH_APPLICATION_ID)?;
    if !of_gx(application) {
        return Err(Halt::Refused(Outcome::ApplicationUnsupported));
    }
    Ok(())
}

/// The AVPs of a request that is for this session and for Gx.
#[tactic(auto, unfolding(crate::specs::Requests::addressed_avps))]
fn addressed_avps<'m>(
    alloc: Global,
    identity: &Identity,
    header: &MessageHeader,
    message: &'m [u8],
) -> Result<Vec<Avp<'m>>, Halt<'m>>
    requires { 20 ≤ length message.now }
    ensures { Tells (λ avps. map shown avps.items) result
        (addressed_avps identity.now header.now message.now) }
{
    if let Some(outcome) = refused_first(header, message.len()) {
        return Err(Halt::Refused(outcome));
    }
    let avps = avps_in(alloc, message)?;
    addressed_to(&avps, identity)?;
    Ok(avps)
}

/// What a RAR with these AVPs asks of a session.
fn rar_in<'m>(alloc: Global, avps: &[Avp<'m>]) -> Result<Orders<'m>, Halt<'m>>
    ensures { (due : Result Asked Fault) × RarOf (map shown avps.now) due
        × Tells asked result (under told_fault due) }
{
    match read_rar(alloc, avps) {
        Ok(orders) => Ok(orders),
        Err(stop) => Err(halted_by(stop)),
    }
}

/// What a request of the PCRF with this header asks of the session, or why it is refused as a whole: the first of these
/// is told. The header; another application, or another command than RAR; the AVPs, each that is at fault; another
/// session; another Auth-Application-Id; what a RAR is at fault for, as [`pcef_gx::read_rar`] has it. A message has at
/// most 65,536 octets. Takes memory; its want may be answered in place of anything.
pub fn read_request<'m>(
    alloc: Global,
    identity: &Identity,
    header: &MessageHeader,
    message: &'m [u8],
) -> Result<Orders<'m>, Halt<'m>>
    requires request { header.now.request ≡ true }
    requires whole { 20 ≤ length message.now }
    ensures { (due : Result Asked Told) × RequestDue identity.now header.now message.now due
        × Tells asked result due }
{
    match addressed_avps(alloc, identity, header, message) {
        Ok(avps) => rar_in(alloc, &avps),
        Err(refused) => Err(refused),
    }
}
