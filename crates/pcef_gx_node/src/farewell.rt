//! How a node takes leave.

ghost use Rattle.std.specs.Prelude.{◌≡◌, ◌≤◌, IfOk, length};
ghost use Rattle.pcef_diameter.specs.Spellings.{avps_octets};
ghost use Rattle.pcef_gx_node.specs.Farewells.{disconnect_octets, farewell_avps, is_disconnect_answer};

use pcef_diameter::{HEADER_LEN, MessageHeader, put_header};
use pcef_gx::code::{ORIGIN_HOST, ORIGIN_REALM};
use pcef_gx::{Code, put_number, put_octets};
use pcef_gx_peer::{BASE, DISCONNECT_PEER, Identifiers, Node};
use std::alloc::{AllocError, Global};

/// Disconnect-Cause.
const DISCONNECT_CAUSE: Code = Code {
    vendor: 0,
    number: 273,
};

/// The Disconnect-Cause DO_NOT_WANT_TO_TALK_TO_YOU.
const DO_NOT_WANT_TO_TALK_TO_YOU: u32 = 2;

/// The AVPs of a DPR, as octets.
fn farewell(alloc: Global, node: &Node) -> Result<Vec<u8>, AllocError>
    ensures written { IfOk result (λ o. o.items ≡ avps_octets (farewell_avps node.now)) }
    ensures room { IfOk result (λ o. length o.items ≤ 2200) }
{
    let mut avps = Vec::new(alloc);
    put_octets(&mut avps, ORIGIN_HOST, node.origin_host())?;
    put_octets(&mut avps, ORIGIN_REALM, node.origin_realm())?;
    put_number(&mut avps, DISCONNECT_CAUSE, DO_NOT_WANT_TO_TALK_TO_YOU)?;
    Ok(avps)
}

/// A Disconnect-Peer-Request, as octets (RFC 6733, clause 5.4.1): the node has nothing more to say. Takes memory; an
/// `Err` is want of it.
pub fn disconnect_request(
    alloc: Global,
    node: &Node,
    identifiers: Identifiers,
) -> Result<Vec<u8>, AllocError>
    ensures { IfOk result (λ m. m.items ≡ disconnect_octets node.now identifiers) }
{
    let avps = farewell(alloc, node)?;
    let header = MessageHeader {
        version: 1,
        len: (HEADER_LEN + avps.len()) as u32,
        request: true,
        proxiable: false,
        error: false,
        retransmitted: false,
        command: DISCONNECT_PEER,
        application: BASE,
        hop_by_hop: identifiers.hop_by_hop,
        end_to_end: identifiers.end_to_end,
    };
    let mut message = Vec::new(alloc);
    put_header(&mut message, &header)?;
    message.extend_from_slice(&avps)?;
    Ok(message)
}

/// Whether this is the header of a DPA (RFC 6733, clause 5.4.2). Takes no memory.
pub fn is_disconnect_answer(header: &MessageHeader) -> bool
    ensures { result ≡ is_disconnect_answer header.now }
{
    !header.request && header.application == BASE && header.command == DISCONNECT_PEER
}
