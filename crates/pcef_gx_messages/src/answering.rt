//! Answers.

ghost use Rattle.std.specs.Prelude.{◌≡◌, ◌<◌, ◌≤◌, ◌+◌, ◌++◌, ◌∷◌, [], ◌^◌, All, IfOk, IfSome, length, map, sum_by, vec_capacity};
ghost use Rattle.pcef_diameter.specs.Avps.{shown};
ghost use Rattle.pcef_diameter.specs.Spellings.{avp_len, avp_octets, avps_octets};
ghost use Rattle.pcef_gx.specs.Writing.{report_avp, report_room};
ghost use Rattle.pcef_gx_messages.specs.Sent.{IsShortFault, IsShortReport, answer_avps, answer_header, answered, answered_again, failed_avps, failed_room, is_protocol_error, most_room, result_avp, rules_failed, told_of};

use crate::identity::Identity;
use crate::sending::put_message;
use pcef_diameter::{Avp, HEADER_LEN, MessageHeader, put_avp};
use pcef_gx::code::{
    EXPERIMENTAL_RESULT, EXPERIMENTAL_RESULT_CODE, FAILED_AVP, ORIGIN_HOST, ORIGIN_REALM,
    RESULT_CODE, SESSION_ID, VENDOR_ID,
};
use pcef_gx::{
    GxFault, Problem, RuleReport, THREE_GPP, put_number_reserved, put_octets_reserved,
    put_rule_report,
};
use std::alloc::{AllocError, Global};
use std::marker::Model;

/// What came of a request.
#[derive(Clone, Copy, Debug, PartialEq, Eq)]
pub enum Outcome<'a> {
    /// All was done: DIAMETER_SUCCESS.
    Success,
    /// Some rules couldn't be had, each with a report: DIAMETER_PCC_RULE_EVENT (TS 29.212, clause 5.5.3).
    RulesFailed,
    /// The E bit is set in the request: DIAMETER_INVALID_HDR_BITS.
    HeaderBits,
    /// The message isn't of version 1: DIAMETER_UNSUPPORTED_VERSION.
    Version,
    /// The message has another length than its header says: DIAMETER_INVALID_MESSAGE_LENGTH.
    Length,
    /// The command isn't known: DIAMETER_COMMAND_UNSUPPORTED.
    CommandUnsupported,
    /// The application isn't Gx: DIAMETER_APPLICATION_UNSUPPORTED.
    ApplicationUnsupported,
    /// There is no such session, or none any more: DIAMETER_UNKNOWN_SESSION_ID.
    UnknownSession,
    /// An AVP is at fault.
    Fault(GxFault<'a>),
}

impl Outcome<'_> {
    /// Whether an answer with this has the E bit. Takes no memory.
    fn is_protocol_error(&self) -> bool
        ensures { result ≡ is_protocol_error (told_of self.now) }
    {
        match self {
            Outcome::HeaderBits | Outcome::CommandUnsupported | Outcome::ApplicationUnsupported => {
                true
            }
            Outcome::Fault(fault) => fault.problem == Problem::InvalidAvpBits,
            _ => false,
        }
    }
}

/// Writes the Experimental-Result of rules that couldn't be had.
fn put_rules_failed(parts: &mut Vec<u8>, out: &mut Vec<u8>)
    requires parts { 53 ≤ vec_capacity parts.old }
    requires out { length out.old.items + 53 ≤ vec_capacity out.old }
    ensures written { out.new.items ≡ out.old.items ++ avp_octets (result_avp rules_failed) }
    ensures room { length out.new.items ≤ length out.old.items + 53 }
    ensures parts { vec_capacity parts.old ≤ vec_capacity parts.new }
    ensures capacity { vec_capacity out.old ≤ vec_capacity out.new }
{
    parts.clear();
    put_number_reserved(parts, VENDOR_ID, THREE_GPP);
    put_number_reserved(parts, EXPERIMENTAL_RESULT_CODE, 5142);
    put_octets_reserved(out, EXPERIMENTAL_RESULT, parts);
}

/// Writes the result of an answer.
fn put_result(parts: &mut Vec<u8>, out: &mut Vec<u8>, outcome: &Outcome)
    requires parts { 53 ≤ vec_capacity parts.old }
    requires out { length out.old.items + 53 ≤ vec_capacity out.old }
    ensures written { out.new.items ≡ out.old.items ++ avp_octets (result_avp (told_of outcome.now)) }
    ensures room { length out.new.items ≤ length out.old.items + 53 }
    ensures parts { vec_capacity parts.old ≤ vec_capacity parts.new }
    ensures capacity { vec_capacity out.old ≤ vec_capacity out.new }
{
    let code = match outcome {
        Outcome::RulesFailed => return put_rules_failed(parts, out),
        Outcome::Success => 2001,
        Outcome::CommandUnsupported => 3001,
        Outcome::ApplicationUnsupported => 3007,
        Outcome::HeaderBits => 3008,
        Outcome::UnknownSession => 5002,
        Outcome::Version => 5011,
        Outcome::Length => 5015,
        Outcome::Fault(fault) => fault.problem.result_code(),
    };
    put_number_reserved(out, RESULT_CODE, code);
}

/// Writes an AVP that is at fault in place of what was there.
fn put_failed_part(parts: &mut Vec<u8>, avp: &Avp)
    requires len { avp_len (shown avp.now) ≤ 65548 }
    requires room { avp_len (shown avp.now) + 15 ≤ vec_capacity parts.old }
    ensures written { parts.new.items ≡ avps_octets (shown avp.now ∷ []) }
    ensures room { length parts.new.items ≤ avp_len (shown avp.now) + 3 }
    ensures capacity { vec_capacity parts.old ≤ vec_capacity parts.new }
{
    parts.clear();
    match put_avp(parts, avp) {
        Ok(()) => {}
        Err(_) => unreachable!(),
    }
}

/// Writes the Failed-AVP of an answer, where there is one.
fn put_failed(parts: &mut Vec<u8>, out: &mut Vec<u8>, outcome: &Outcome)
    requires fault { IsShortFault (told_of outcome.now) }
    requires parts { failed_room (told_of outcome.now) ≤ vec_capacity parts.old }
    requires out { length out.old.items + failed_room (told_of outcome.now) ≤ vec_capacity out.old }
    ensures written { out.new.items ≡ out.old.items ++ avps_octets (failed_avps (told_of outcome.now)) }
    ensures room { length out.new.items ≤ length out.old.items + failed_room (told_of outcome.now) }
    ensures parts { vec_capacity parts.old ≤ vec_capacity parts.new }
    ensures capacity { vec_capacity out.old ≤ vec_capacity out.new }
{
    let Outcome::Fault(fault) = outcome else {
        return;
    };
    put_failed_part(parts, &fault.failed);
    put_octets_reserved(out, FAILED_AVP, parts);
}

/// Writes the AVPs that each answer has.
fn put_avps(parts: &mut Vec<u8>, out: &mut Vec<u8>, identity: &Identity, outcome: &Outcome)
    requires fault { IsShortFault (told_of outcome.now) }
    requires parts { failed_room (told_of outcome.now) + 53 ≤ vec_capacity parts.old }
    requires out { length out.old.items + failed_room (told_of outcome.now) + 3200
        ≤ vec_capacity out.old }
    ensures written { out.new.items ≡ out.old.items ++ avps_octets (answer_avps identity.now (told_of outcome.now)) }
    ensures room { length out.new.items ≤ length out.old.items + failed_room (told_of outcome.now) + 3200 }
    ensures parts { vec_capacity parts.old ≤ vec_capacity parts.new }
    ensures capacity { vec_capacity out.old ≤ vec_capacity out.new }
{
    put_octets_reserved(out, SESSION_ID, identity.session_id());
    put_result(parts, out, outcome);
    put_octets_reserved(out, ORIGIN_HOST, identity.origin_host());
    put_octets_reserved(out, ORIGIN_REALM, identity.origin_realm());
    put_failed(parts, out, outcome);
}

/// Writes the Charging-Rule-Reports of rules behind others; what each has is put together in `parts`, in place of what
/// was there. Both lists have room for 68 octets beside each name, of at most 65,536. Takes no memory.
pub fn put_reports(parts: &mut Vec<u8>, out: &mut Vec<u8>, reports: &[RuleReport])
    requires names { All IsShortReport reports.now }
    requires parts { sum_by report_room reports.now ≤ vec_capacity parts.old }
    requires out { length out.old.items + sum_by report_room reports.now ≤ vec_capacity out.old }
    ensures written { out.new.items ≡ out.old.items ++ avps_octets (map report_avp reports.now) }
    ensures room { length out.new.items ≤ length out.old.items + sum_by report_room reports.now }
    ensures capacity { vec_capacity out.old ≤ vec_capacity out.new }
{
    for report in reports {
        put_rule_report(parts, out, report);
    }
}

/// Writes what goes back of a request behind AVPs, where there is room for it.
fn put_back(out: &mut Vec<u8>, back: &[u8])
    requires { length out.old.items + length back.now ≤ vec_capacity out.old }
    ensures written { out.new.items ≡ out.old.items ++ back.now }
    ensures capacity { vec_capacity out.old ≤ vec_capacity out.new }
{
    match out.extend_from_slice(back) {
        Ok(()) => {}
        Err(_) => unreachable!(),
    }
}

/// Memory for an answer, which is taken before that is done of which the answer tells. Contracts see for how many octets
/// beside its own it is enough.
#[derive(Drop)]
pub struct AnswerRoom {
    octets: usize,
    parts: Vec<u8>,
    avps: Vec<u8>,
    message: Vec<u8>,
}

impl Model for AnswerRoom {
    ghost use Rattle.std.specs.Prelude.{ℕ, ◌≤◌, ◌+◌, vec_capacity};
    ghost use Rattle.pcef_gx_messages.specs.Sent.{most_room};

    ghost Value = { ℕ };

    ghost view = { λ r. r.octets };

    ghost invariant = { λ r.
        (r.octets ≤ most_room) × (r.octets + 3300 ≤ vec_capacity r.parts) × (r.octets + 3300 ≤ vec_capacity r.avps)
        × (r.octets + 3300 ≤ vec_capacity r.message) };
}

impl AnswerRoom {
    /// Memory for an answer with so many octets beside its own, at most 8,388,608: those of its reports (68 for each,
    /// beside its name), of an AVP at fault (18 beside it), and of what goes back. An `Err` is want of it.
    pub fn new(alloc: Global, octets: usize) -> Result<AnswerRoom, AllocError>
        requires { octets ≤ most_room }
        ensures { IfOk result (λ room. room ≡ octets) }
    {
        let capacity = octets + 3300;
        Ok(AnswerRoom {
            octets,
            parts: Vec::with_capacity(alloc, capacity)?,
            avps: Vec::with_capacity(alloc, capacity)?,
            message: Vec::with_capacity(alloc, capacity)?,
        })
    }

    /// The answer to a request: its own AVPs, a Charging-Rule-Report for each of these, and what goes back, as
    /// [`crate::proxies_in`] has it (RFC 6733, clause 6.2; TS 29.212, clause 5.6.5). The AVP of a fault has at most
    /// 65,548 octets, the name of a rule at most 65,536. Takes no memory.
    pub fn answer(
        self,
        identity: &Identity,
        request: &MessageHeader,
        outcome: &Outcome,
        reports: &[RuleReport],
        back: &[u8],
    ) -> Answer
        requires command { request.now.command < 2 ^ 24 }
        requires fault { IsShortFault (told_of outcome.now) }
        requires names { All IsShortReport reports.now }
        requires room { failed_room (told_of outcome.now) + (sum_by report_room reports.now + length back.now) ≤ self }
        ensures { result ≡ answered identity.now request.now (told_of outcome.now) reports.now back.now }
    {
        let AnswerRoom {
            octets: _,
            mut parts,
            mut avps,
            mut message,
        } = self;
        avps.clear();
        put_avps(&mut parts, &mut avps, identity, outcome);
        put_reports(&mut parts, &mut avps, reports);
        put_back(&mut avps, back);
        let is_error = outcome.is_protocol_error();
        message.clear();
        put_message(
            &mut message,
            &answer_header(request, is_error, avps.len()),
            &avps,
        );
        Answer {
            is_error,
            avps,
            message,
        }
    }
}

/// An answer, which is kept for a request that comes again. Contracts see whether it has the E bit, its AVPs, and the
/// whole message, in octets.
#[derive(Drop)]
pub struct Answer {
    is_error: bool,
    avps: Vec<u8>,
    message: Vec<u8>,
}

impl Model for Answer {
    ghost use Rattle.std.specs.Prelude.{◌≤◌, ◌+◌, length, vec_capacity};
    ghost use Rattle.pcef_gx_messages.specs.Sent.{Answered, most_answer};

    ghost Value = { Answered };

    ghost view = { λ a. record { is_error = a.is_error; avps = a.avps.items; message = a.message.items } };

    ghost invariant = { λ a.
        (length a.avps.items ≤ most_answer) × (length a.avps.items + 20 ≤ vec_capacity a.message) };
}

impl Answer {
    /// The message. Takes no memory.
    pub fn octets(&self) -> &[u8]
        ensures { result.now ≡ self.now.message }
    {
        &self.message
    }

    /// The same answer for a request that came again, with the identifiers that this one has (RFC 6733, clause 5.5.4).
    /// Takes no memory.
    pub fn repeat(&mut self, request: &MessageHeader)
        requires { request.now.command < 2 ^ 24 }
        ensures { self.new ≡ answered_again request.now self.old }
    {
        self.message.clear();
        let header = answer_header(request, self.is_error, self.avps.len());
        put_message(&mut self.message, &header, &self.avps);
    }
}

/// The header of an answer whose AVPs have so many octets.
fn answer_header(request: &MessageHeader, is_error: bool, len: usize) -> MessageHeader
    requires { len + 20 < 2 ^ 24 }
    ensures { result ≡ answer_header request.now is_error (20 + len) }
{
    MessageHeader {
        version: 1,
        len: (HEADER_LEN + len) as u32,
        request: false,
        error: is_error,
        retransmitted: false,
        ..*request
    }
}

/// The octets that a fault takes in an answer; none where its AVP has more than 65,548.
fn failed_room(outcome: &Outcome) -> Option<usize>
    ensures short { IfSome result (λ room. IsShortFault (told_of outcome.now)) }
    ensures room { IfSome result (λ room. room ≡ failed_room (told_of outcome.now)) }
    ensures most { IfSome result (λ room. room ≤ 65566) }
{
    let Outcome::Fault(fault) = outcome else {
        return Some(0);
    };
    let len = fault.failed.len();
    if len > 65_548 {
        return None;
    }
    Some(len + 18)
}

/// The answer that refuses a request as a whole, as [`AnswerRoom::answer`] without reports; at most 65,536 octets go
/// back. Takes memory; an `Err` is want of it, or a fault of an AVP of more than 65,548 octets, which no message of at
/// most 65,536 has.
pub fn refuse(
    alloc: Global,
    identity: &Identity,
    request: &MessageHeader,
    outcome: &Outcome,
    back: &[u8],
) -> Result<Answer, AllocError>
    requires command { request.now.command < 2 ^ 24 }
    requires back { length back.now ≤ 65536 }
    ensures { IfOk result (λ a. a ≡ answered identity.now request.now (told_of outcome.now) [] back.now) }
{
    let Some(octets) = failed_room(outcome) else {
        return Err(AllocError);
    };
    let room = AnswerRoom::new(alloc, octets + back.len())?;
    Ok(room.answer(identity, request, outcome, &[], back))
}
