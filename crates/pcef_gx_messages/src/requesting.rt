//! Requests.

ghost use Rattle.std.specs.Prelude.{◌≡◌, ◌<◌, ◌≤◌, ◌+◌, ◌++◌, ◌^◌, IfOk, length, vec_capacity};
ghost use Rattle.pcef_diameter.specs.Spellings.{avps_octets};
ghost use Rattle.pcef_gx_messages.specs.Sent.{kind_avps, kind_number, request_avps, request_octets, speaker_avps};

use crate::identity::Identity;
use crate::sending::put_message;
use pcef_diameter::{HEADER_LEN, MessageHeader};
use pcef_gx::code::{
    AUTH_APPLICATION_ID, CC_REQUEST_NUMBER, CC_REQUEST_TYPE, DESTINATION_REALM, ORIGIN_HOST,
    ORIGIN_REALM, SESSION_ID,
};
use pcef_gx::{put_number_reserved, put_octets_reserved};
use std::alloc::{AllocError, Global};

/// The Application-ID of Gx (TS 29.212, clause 5.1).
pub const GX: u32 = 16_777_238;

/// The Command Code of a Credit-Control-Request (RFC 8506, clause 3.1).
pub const CREDIT_CONTROL: u32 = 272;

/// What a request is for (RFC 8506, clause 8.3, CC-Request-Type).
#[derive(Clone, Copy, Debug, PartialEq, Eq)]
pub enum RequestKind {
    /// INITIAL_REQUEST: it opens the session.
    Initial,
    /// UPDATE_REQUEST: it reports.
    Update,
    /// TERMINATION_REQUEST: it ends the session.
    Termination,
}

impl RequestKind {
    /// The CC-Request-Type. Takes no memory.
    pub fn number(self) -> u32
        ensures { result ≡ kind_number self }
    {
        match self {
            RequestKind::Initial => 1,
            RequestKind::Update => 2,
            RequestKind::Termination => 3,
        }
    }
}

/// What tells a request from others on its way (RFC 6733, clause 3).
#[derive(Clone, Copy, Debug, PartialEq, Eq)]
pub struct RequestMark {
    /// The Hop-by-Hop Identifier.
    pub hop_by_hop: u32,
    /// The End-to-End Identifier.
    pub end_to_end: u32,
    /// The T bit: the request may have been sent before.
    pub retransmitted: bool,
}

/// Writes what a request is for.
fn put_kind(out: &mut Vec<u8>, kind: RequestKind, number: u32)
    requires { length out.old.items + 38 ≤ vec_capacity out.old }
    ensures written { out.new.items ≡ out.old.items ++ avps_octets (kind_avps kind number) }
    ensures room { length out.new.items ≤ length out.old.items + 38 }
    ensures capacity { vec_capacity out.old ≤ vec_capacity out.new }
{
    put_number_reserved(out, CC_REQUEST_TYPE, kind.number());
    put_number_reserved(out, CC_REQUEST_NUMBER, number);
}

/// Writes who speaks to whom.
fn put_speaker(out: &mut Vec<u8>, identity: &Identity)
    requires { length out.old.items + 4180 ≤ vec_capacity out.old }
    ensures written { out.new.items ≡ out.old.items ++ avps_octets (speaker_avps identity.now) }
    ensures room { length out.new.items ≤ length out.old.items + 4180 }
    ensures capacity { vec_capacity out.old ≤ vec_capacity out.new }
{
    put_octets_reserved(out, SESSION_ID, identity.session_id());
    put_number_reserved(out, AUTH_APPLICATION_ID, GX);
    put_octets_reserved(out, ORIGIN_HOST, identity.origin_host());
    put_octets_reserved(out, ORIGIN_REALM, identity.origin_realm());
    put_octets_reserved(out, DESTINATION_REALM, identity.destination_realm());
}

/// Writes the AVPs that each request has.
fn put_avps(out: &mut Vec<u8>, identity: &Identity, kind: RequestKind, number: u32)
    requires { length out.old.items + 4218 ≤ vec_capacity out.old }
    ensures written { out.new.items ≡ out.old.items ++ avps_octets (request_avps identity.now kind number) }
    ensures room { length out.new.items ≤ length out.old.items + 4218 }
    ensures capacity { vec_capacity out.old ≤ vec_capacity out.new }
{
    put_speaker(out, identity);
    put_kind(out, kind, number);
}

/// A Credit-Control-Request with this CC-Request-Number, as octets: its own AVPs, and the octets of others behind them,
/// fewer than 8,388,608 (TS 29.212, clause 5.6.2). Takes memory; an `Err` is want of it.
pub fn request(
    alloc: Global,
    identity: &Identity,
    mark: RequestMark,
    kind: RequestKind,
    number: u32,
    others: &[u8],
) -> Result<Vec<u8>, AllocError>
    requires { length others.now < 2 ^ 23 }
    ensures { IfOk result (λ m. m.items ≡ request_octets identity.now mark kind number others.now) }
{
    let mut avps = Vec::with_capacity(alloc, 4218)?;
    put_avps(&mut avps, identity, kind, number);
    avps.extend_from_slice(others)?;
    let header = MessageHeader {
        version: 1,
        len: (HEADER_LEN + avps.len()) as u32,
        request: true,
        proxiable: true,
        error: false,
        retransmitted: mark.retransmitted,
        command: CREDIT_CONTROL,
        application: GX,
        hop_by_hop: mark.hop_by_hop,
        end_to_end: mark.end_to_end,
    };
    let mut message = Vec::with_capacity(alloc, HEADER_LEN + avps.len())?;
    put_message(&mut message, &header, &avps);
    Ok(message)
}
