//! What an answer of the PCRF says.

ghost use Rattle.std.specs.Prelude.{◌≡◌, ◌≤◌, IfOk, Ok, Result, drop, length, map, true};
ghost use Rattle.pcef_diameter.specs.Avps.{shown};
ghost use Rattle.pcef_gx.specs.Messages.{Asked, CcaOf, asked};
ghost use Rattle.pcef_gx.specs.Readings.{Fault, group_of, required_of};
ghost use Rattle.pcef_base.specs.Readings.{under};
ghost use Rattle.pcef_gx_dialogue.specs.Ccas.{AvpsDue, CcaDue, Dropped, DropsStop, Hears, Saying, answers_out, at_fault, SaysSo, code_due, code_told, failure_by, failure_of, heard_avps, heard_due, is_cca, is_success, number_in, saying_of};
ghost use Rattle.pcef_gx_dialogue.specs.declared.cca.CcaDrop.TheVariants.{NoMemory};

use crate::asking::MAX_MESSAGE;
use crate::ccr::Ccrs;
use pcef_diameter::{Avp, HEADER_LEN, MessageHeader, read_unsigned32};
use pcef_gx::code::{CC_REQUEST_NUMBER, CC_REQUEST_TYPE, Code, RESULT_CODE, SESSION_ID};
use pcef_gx::{GxFault, Orders, Stop, group, only, read_cca, required};
use pcef_gx_messages::{CREDIT_CONTROL, GX, Identity};
use std::alloc::{AllocError, Global};

/// What an answer to the CCR that is out says.
#[derive(Drop)]
pub enum Says<'m> {
    /// DIAMETER_SUCCESS, and what the PCRF asks of the session.
    Granted(Orders<'m>),
    /// The CCR failed, with this Result-Code where there is one.
    Failed(Option<u32>),
}

/// Why an answer is dropped.
#[derive(Clone, Copy, Debug)]
pub enum CcaDrop<'m> {
    /// It is no answer to the CCR that is out.
    NotOurs,
    /// An AVP is at fault.
    Fault(GxFault<'m>),
    /// There is no memory left.
    NoMemory,
}

impl From<AllocError> for CcaDrop<'_> {
    ghost from_gives = { λ _ e. e ≡ NoMemory };

    fn from(_e: AllocError) -> Self {
        CcaDrop::NoMemory
    }
}

/// What a fault of an AVP is for an answer.
fn dropped_by(stop: Stop<'_>) -> CcaDrop<'_>
    ensures { DropsStop stop.entry result }
{
    match stop {
        Stop::Fault(fault) => CcaDrop::Fault(fault),
        Stop::NoMemory => CcaDrop::NoMemory,
    }
}

/// Whether a header is that of an answer to a CCR of Gx, of a message of `count` octets.
fn is_cca(header: &MessageHeader, count: usize) -> bool
    ensures { result ≡ is_cca header.now count }
{
    header.fault(count).is_none()
        && count <= MAX_MESSAGE
        && !header.request
        && header.command == CREDIT_CONTROL
        && header.application == GX
}

/// The AVP of this code, which has to be there once.
fn required_in<'m>(avps: &[Avp<'m>], code: Code) -> Result<Avp<'m>, CcaDrop<'m>>
    ensures { Hears (λ avp. shown avp) result (under at_fault (required_of code (map shown avps.now))) }
{
    match required(avps, code) {
        Ok(avp) => Ok(avp),
        Err(stop) => Err(dropped_by(stop)),
    }
}

/// The number of the AVP of this code.
fn number_in<'m>(avps: &[Avp<'m>], code: Code) -> Result<u32, CcaDrop<'m>>
    ensures { Hears (λ number. number) result (number_in code (map shown avps.now)) }
{
    let avp = required_in(avps, code)?;
    match read_unsigned32(avp.octets) {
        Some(number) => Ok(number),
        None => Err(CcaDrop::NotOurs),
    }
}

/// Whether these are the AVPs of an answer to the CCR that is out, of this session.
#[tactic(auto, unfolding(crate::specs::Ccas::answers_out))]
fn answers_out<'m>(avps: &[Avp<'m>], identity: &Identity, ccrs: &Ccrs) -> Result<(), CcaDrop<'m>>
    ensures { Hears (λ _. true) result (answers_out identity.now ccrs.now.out (map shown avps.now)) }
{
    let session = required_in(avps, SESSION_ID)?;
    if session.octets != identity.session_id() {
        return Err(CcaDrop::NotOurs);
    }
    let kind = number_in(avps, CC_REQUEST_TYPE)?;
    let number = number_in(avps, CC_REQUEST_NUMBER)?;
    if !ccrs.is_answer(kind, number) {
        return Err(CcaDrop::NotOurs);
    }
    Ok(())
}

/// The AVPs behind the header of a message.
fn avps_in<'m>(alloc: Global, message: &'m [u8]) -> Result<Vec<Avp<'m>>, CcaDrop<'m>>
    requires { 20 ≤ length message.now }
    ensures { Hears (λ avps. map shown avps.items) result
        (under at_fault (group_of (drop 20 message.now))) }
{
    match group(alloc, message.split_at(HEADER_LEN).1) {
        Ok(avps) => Ok(avps),
        Err(stop) => Err(dropped_by(stop)),
    }
}

/// The AVPs of an answer to the CCR that is out.
#[tactic(auto, unfolding(crate::specs::Ccas::heard_avps))]
fn heard_avps<'m>(
    alloc: Global,
    identity: &Identity,
    ccrs: &Ccrs,
    header: &MessageHeader,
    message: &'m [u8],
) -> Result<Vec<Avp<'m>>, CcaDrop<'m>>
    requires { 20 ≤ length message.now }
    ensures { Hears (λ avps. map shown avps.items) result
        (heard_avps identity.now ccrs.now.out header.now message.now) }
{
    if !is_cca(header, message.len()) {
        return Err(CcaDrop::NotOurs);
    }
    let avps = avps_in(alloc, message)?;
    answers_out(&avps, identity, ccrs)?;
    Ok(avps)
}

/// The Result-Code, where there is one.
fn code_in<'m>(avps: &[Avp<'m>]) -> Result<Option<u32>, CcaDrop<'m>>
    ensures { Hears (λ code. code) result (code_due (map shown avps.now)) }
{
    match only(avps, RESULT_CODE) {
        Ok(Some(avp)) => Ok(read_unsigned32(avp.octets)),
        Ok(None) => Ok(None),
        Err(stop) => Err(dropped_by(stop)),
    }
}

/// Whether a Result-Code is DIAMETER_SUCCESS.
fn is_success(code: Option<u32>) -> bool
    ensures { result ≡ is_success code }
{
    match code {
        Some(number) => number == 2001,
        None => false,
    }
}

/// What a CCA with these AVPs asks of a session.
fn granted_in<'m>(alloc: Global, avps: &[Avp<'m>]) -> Result<Orders<'m>, CcaDrop<'m>>
    ensures { (due : Result Asked Fault) × CcaOf (map shown avps.now) due
        × Hears asked result (under at_fault due) }
{
    match read_cca(alloc, avps) {
        Ok(orders) => Ok(orders),
        Err(stop) => Err(dropped_by(stop)),
    }
}

/// What the AVPs of a CCA with this Result-Code say.
fn said<'m>(alloc: Global, code: Option<u32>, avps: &[Avp<'m>]) -> Result<Says<'m>, CcaDrop<'m>>
    ensures { (due : Result Saying Dropped) × SaysSo code (map shown avps.now) due
        × Hears saying_of result due }
{
    if !is_success(code) {
        return Ok(Says::Failed(code));
    }
    match granted_in(alloc, avps) {
        Ok(orders) => Ok(Says::Granted(orders)),
        Err(dropped) => Err(dropped),
    }
}

/// The AVPs of an answer to the CCR that is out, and its Result-Code.
#[tactic(auto, unfolding(crate::specs::Ccas::heard_due))]
fn heard<'m>(
    alloc: Global,
    identity: &Identity,
    ccrs: &Ccrs,
    header: &MessageHeader,
    message: &'m [u8],
) -> Result<(Vec<Avp<'m>>, Option<u32>), CcaDrop<'m>>
    requires { 20 ≤ length message.now }
    ensures { Hears (λ heard. (map shown heard.0.items, heard.1)) result
        (heard_due identity.now ccrs.now.out header.now message.now) }
{
    let avps = heard_avps(alloc, identity, ccrs, header, message)?;
    let code = code_in(&avps)?;
    Ok((avps, code))
}

/// What the AVPs of an answer with this header say.
fn read_avps<'m>(
    alloc: Global,
    identity: &Identity,
    ccrs: &Ccrs,
    header: &MessageHeader,
    message: &'m [u8],
) -> Result<Says<'m>, CcaDrop<'m>>
    requires { 20 ≤ length message.now }
    ensures { (due : Result Saying Dropped) × AvpsDue identity.now ccrs.now.out header.now message.now due × Hears saying_of result due }
{
    match heard(alloc, identity, ccrs, header, message) {
        Ok((avps, code)) => said(alloc, code, &avps),
        Err(dropped) => Err(dropped),
    }
}

/// The Result-Code of a message, where there is one.
#[tactic(auto, unfolding(crate::specs::Ccas::code_told))]
fn code_told<'m>(alloc: Global, message: &'m [u8]) -> Result<Option<u32>, CcaDrop<'m>>
    requires { 20 ≤ length message.now }
    ensures { Hears (λ code. code) result (code_told message.now) }
{
    let avps = avps_in(alloc, message)?;
    code_in(&avps)
}

/// Whether an answer to the CCR that is out tells its failure, with its Result-Code where it can be read.
fn failure_by(
    alloc: Global,
    header: &MessageHeader,
    message: &[u8],
) -> Result<Option<Option<u32>>, AllocError>
    requires { 20 ≤ length message.now }
    ensures { IfOk result (λ failure. failure ≡ failure_by header.now.error (code_told message.now)) }
{
    match code_told(alloc, message) {
        Ok(code) if is_success(code) => Ok(None),
        Ok(code) => Ok(Some(code)),
        Err(CcaDrop::NoMemory) => Err(AllocError),
        Err(_) if header.error => Ok(Some(None)),
        Err(_) => Ok(None),
    }
}

/// Whether a message tells the failure of the CCR that is out, by its identifiers.
fn failure_of(
    alloc: Global,
    ccrs: &Ccrs,
    header: &MessageHeader,
    message: &[u8],
) -> Result<Option<Option<u32>>, AllocError>
    requires { 20 ≤ length message.now }
    ensures { IfOk result (λ failure. failure ≡ failure_of ccrs.now.out header.now message.now) }
{
    if is_cca(header, message.len()) && ccrs.has_identifiers(header) {
        return failure_by(alloc, header, message);
    }
    Ok(None)
}

/// What an answer with this header says to the CCR that is out (TS 29.212, clause 5.6.3). One with the identifiers of
/// that CCR, and without DIAMETER_SUCCESS, is its failure, whatever else it has: a node on the way may have made it. Else
/// its AVPs say what the PCRF asks of the session, or that the CCR failed. It is dropped where it is no answer to that
/// CCR (by its header, its Session-Id, its CC-Request-Type and its CC-Request-Number), or at fault: nothing answers an
/// answer. Takes memory; its want may be answered in place of anything.
pub fn read_answer<'m>(
    alloc: Global,
    identity: &Identity,
    ccrs: &Ccrs,
    header: &MessageHeader,
    message: &'m [u8],
) -> Result<Says<'m>, CcaDrop<'m>>
    requires { 20 ≤ length message.now }
    ensures { (due : Result Saying Dropped) × CcaDue identity.now ccrs.now.out header.now message.now due × Hears saying_of result due }
{
    match failure_of(alloc, ccrs, header, message) {
        Ok(Some(code)) => Ok(Says::Failed(code)),
        Ok(None) => read_avps(alloc, identity, ccrs, header, message),
        Err(_) => Err(CcaDrop::NoMemory),
    }
}
