//! The answers of a node itself.

ghost use Rattle.std.specs.Prelude.{◌≡◌, ◌<◌, ◌≤◌, ◌+◌, ◌++◌, ◌^◌, IfOk, OnOk, length, map};
ghost use Rattle.std.specs.List.{find};
ghost use Rattle.pcef_diameter.specs.Avps.{shown};
ghost use Rattle.pcef_diameter.specs.Spellings.{avps_octets};
ghost use Rattle.pcef_gx.specs.Codes.{has_code};
ghost use Rattle.pcef_gx_peer.specs.Nodes.{Refuses, error_avps, success_octets, told_avps, where_found};

use crate::kind::ProtocolError;
use crate::node::{Node, put_origin};
use crate::sending::message;
use pcef_diameter::{Avp, HEADER_LEN, MessageHeader, put_avp, read_avps};
use pcef_gx::code::{RESULT_CODE, SESSION_ID};
use pcef_gx::{Code, is, put_number};
use pcef_gx_messages::put_proxies;
use std::alloc::{AllocError, Global};

/// Writes a result, and who tells it.
fn put_told(out: &mut Vec<u8>, node: &Node, result_code: u32) -> Result<(), AllocError>
    ensures written { OnOk result (out.new.items ≡ out.old.items
        ++ avps_octets (told_avps node.now result_code)) }
    ensures room { OnOk result (length out.new.items ≤ length out.old.items + 2097) }
{
    put_number(out, RESULT_CODE, result_code)?;
    put_origin(out, node)
}

/// The answer with DIAMETER_SUCCESS to a DWR or to a DPR, as octets (RFC 6733, clauses 5.4.2 and 5.5.2). It has the
/// command, the application, the identifiers and the P bit of its request. Takes memory; an `Err` is want of it.
pub fn success_answer(
    alloc: Global,
    node: &Node,
    request: &MessageHeader,
) -> Result<Vec<u8>, AllocError>
    requires { request.now.command < 2 ^ 24 }
    ensures { IfOk result (λ m. m.items ≡ success_octets node.now request.now) }
{
    let mut avps = Vec::new(alloc);
    put_told(&mut avps, node, 2001)?;
    let header = MessageHeader {
        version: 1,
        len: (HEADER_LEN + avps.len()) as u32,
        request: false,
        error: false,
        retransmitted: false,
        ..*request
    };
    message(alloc, &header, &avps)
}

/// Writes the first AVP of this code among some, where there is one.
fn put_first(out: &mut Vec<u8>, avps: &[Avp], code: Code) -> Result<(), AllocError>
    requires { length (avps_octets (map shown avps.now)) ≤ 65536 }
    ensures written { OnOk result (out.new.items ≡ out.old.items
        ++ avps_octets (where_found (find (has_code code) (map shown avps.now)))) }
    ensures room { OnOk result (length out.new.items ≤ length out.old.items + 65536) }
{
    for avp in avps {
        if is(avp, code) {
            return put_avp(out, avp);
        }
    }
    Ok(())
}

/// The AVPs of an error, as octets: the error, and what goes back of those of the request.
fn error_avps(
    alloc: Global,
    node: &Node,
    error: ProtocolError,
    asked: &[Avp],
) -> Result<Vec<u8>, AllocError>
    requires { length (avps_octets (map shown asked.now)) ≤ 65536 }
    ensures written { IfOk result (λ o. o.items
        ≡ avps_octets (error_avps node.now error (map shown asked.now))) }
    ensures room { IfOk result (λ o. length o.items ≤ 140000) }
{
    let mut avps = Vec::new(alloc);
    put_first(&mut avps, asked, SESSION_ID)?;
    put_told(&mut avps, node, error.result_code())?;
    put_proxies(&mut avps, asked)?;
    Ok(avps)
}

/// The answer to a request that is refused before its AVPs are looked at, as octets, by those behind its header, at
/// most 65,536 (RFC 6733, clause 7.2). It has the E bit, and what `success_answer` has of the request's header; the
/// request's first Session-Id, where it has one; and its Proxy-Infos (clause 6.2). Behind an AVP at fault no more are
/// looked for. Takes memory; an `Err` is want of it.
pub fn error_answer(
    alloc: Global,
    node: &Node,
    request: &MessageHeader,
    error: ProtocolError,
    octets: &[u8],
) -> Result<Vec<u8>, AllocError>
    requires command { request.now.command < 2 ^ 24 }
    requires octets { length octets.now ≤ 65536 }
    ensures { IfOk result (λ m. Refuses node.now request.now error octets.now m.items) }
{
    let read = read_avps(alloc, octets)?;
    let avps = error_avps(alloc, node, error, &read.avps)?;
    let header = MessageHeader {
        version: 1,
        len: (HEADER_LEN + avps.len()) as u32,
        request: false,
        error: true,
        retransmitted: false,
        ..*request
    };
    message(alloc, &header, &avps)
}
