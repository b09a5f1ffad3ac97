//! The capabilities exchange, in which two nodes agree to speak of Gx.

ghost use Rattle.std.specs.Prelude.{◌≡◌, ◌≤◌, ◌+◌, ◌++◌, ◌∷◌, IfOk, OnOk, length};
ghost use Rattle.pcef_diameter.specs.Spellings.{avp_octets, avps_octets};
ghost use Rattle.pcef_gx.specs.Readings.{Gives};
ghost use Rattle.pcef_gx.specs.Writing.{avp_of};
ghost use Rattle.pcef_gx_peer.specs.Exchanges.{address_octets, capabilities_octets, capability_avps, exchange_by, gx_avp, host_ip_address, product_name_avp, result_code_in};
ghost use Rattle.pcef_gx_peer.specs.Nodes.{origin_avps};

use crate::kind::{BASE, CAPABILITIES_EXCHANGE};
use crate::node::{Node, put_origin};
use crate::sending::message;
use pcef_diameter::{Avp, HEADER_LEN, MessageHeader, put_avp, read_unsigned32};
use pcef_gx::code::{AUTH_APPLICATION_ID, RESULT_CODE, VENDOR_ID};
use pcef_gx::{Code, Stop, THREE_GPP, group, only, put_number, put_octets};
use pcef_gx_messages::GX;
use pcef_packet::Addr;
use std::alloc::{AllocError, Global};

/// Host-IP-Address.
const HOST_IP_ADDRESS: Code = Code {
    vendor: 0,
    number: 257,
};

/// Vendor-Specific-Application-Id.
const VENDOR_SPECIFIC_APPLICATION_ID: Code = Code {
    vendor: 0,
    number: 260,
};

/// Supported-Vendor-Id.
const SUPPORTED_VENDOR_ID: Code = Code {
    vendor: 0,
    number: 265,
};

/// Product-Name, which a sender doesn't mark as mandatory.
const PRODUCT_NAME: Avp<'static> = Avp {
    code: 269,
    vendor: None,
    mandatory: false,
    protected: false,
    octets: b"Cipallta",
};

/// What tells a request from others on its way (RFC 6733, clause 3).
#[derive(Clone, Copy, Debug, PartialEq, Eq)]
pub struct Identifiers {
    /// The Hop-by-Hop Identifier.
    pub hop_by_hop: u32,
    /// The End-to-End Identifier.
    pub end_to_end: u32,
}

/// Writes a Host-IP-Address, of this family and these octets.
fn put_family(alloc: Global, out: &mut Vec<u8>, family: u8, octets: &[u8]) -> Result<(), AllocError>
    requires { length octets.now ≤ 16 }
    ensures written { OnOk result (out.new.items ≡ out.old.items
        ++ avp_octets (avp_of host_ip_address (0 ∷ family ∷ octets.now))) }
    ensures room { OnOk result (length out.new.items ≤ length out.old.items + 33) }
{
    let mut address = Vec::new(alloc);
    address.extend_from_slice(&[0, family])?;
    address.extend_from_slice(octets)?;
    put_octets(out, HOST_IP_ADDRESS, &address)
}

/// Writes the Host-IP-Address.
fn put_address(alloc: Global, out: &mut Vec<u8>, address: Addr) -> Result<(), AllocError>
    ensures written { OnOk result (out.new.items ≡ out.old.items
        ++ avp_octets (avp_of host_ip_address (address_octets address))) }
    ensures room { OnOk result (length out.new.items ≤ length out.old.items + 33) }
{
    match address {
        Addr::V4(bits) => put_family(alloc, out, 1, &bits.to_be_bytes()),
        Addr::V6(bits) => put_family(alloc, out, 2, &bits.to_be_bytes()),
    }
}

/// Writes the Product-Name.
fn put_product_name(out: &mut Vec<u8>) -> Result<(), AllocError>
    ensures written { OnOk result (out.new.items ≡ out.old.items ++ avp_octets product_name_avp) }
    ensures room { OnOk result (length out.new.items ≤ length out.old.items + 16) }
{
    put_avp(out, &PRODUCT_NAME)
}

/// Writes the Vendor-Specific-Application-Id of Gx.
fn put_gx(alloc: Global, out: &mut Vec<u8>) -> Result<(), AllocError>
    ensures written { OnOk result (out.new.items ≡ out.old.items ++ avp_octets gx_avp) }
    ensures room { OnOk result (length out.new.items ≤ length out.old.items + 53) }
{
    let mut parts = Vec::new(alloc);
    put_number(&mut parts, VENDOR_ID, THREE_GPP)?;
    put_number(&mut parts, AUTH_APPLICATION_ID, GX)?;
    put_octets(out, VENDOR_SPECIFIC_APPLICATION_ID, &parts)
}

/// Writes what the node can.
fn put_capabilities(alloc: Global, out: &mut Vec<u8>, address: Addr) -> Result<(), AllocError>
    ensures written { OnOk result (out.new.items ≡ out.old.items
        ++ avps_octets (capability_avps address)) }
    ensures room { OnOk result (length out.new.items ≤ length out.old.items + 140) }
{
    put_address(alloc, out, address)?;
    put_number(out, VENDOR_ID, 0)?;
    put_product_name(out)?;
    put_number(out, SUPPORTED_VENDOR_ID, THREE_GPP)?;
    put_gx(alloc, out)
}

/// The AVPs of a CER, as octets.
fn capabilities(alloc: Global, node: &Node, address: Addr) -> Result<Vec<u8>, AllocError>
    ensures written { IfOk result (λ o. o.items
        ≡ avps_octets (origin_avps node.now ++ capability_avps address)) }
    ensures room { IfOk result (λ o. length o.items ≤ 2300) }
{
    let mut avps = Vec::new(alloc);
    put_origin(&mut avps, node)?;
    put_capabilities(alloc, &mut avps, address)?;
    Ok(avps)
}

/// A Capabilities-Exchange-Request, as octets: the first message of a node that opens a connection (RFC 6733, clause
/// 5.3.1). It offers Gx, from this address. Takes memory; an `Err` is want of it.
pub fn capabilities_request(
    alloc: Global,
    node: &Node,
    address: Addr,
    identifiers: Identifiers,
) -> Result<Vec<u8>, AllocError>
    ensures { IfOk result (λ m. m.items ≡ capabilities_octets node.now address identifiers) }
{
    let avps = capabilities(alloc, node, address)?;
    let header = MessageHeader {
        version: 1,
        len: (HEADER_LEN + avps.len()) as u32,
        request: true,
        proxiable: false,
        error: false,
        retransmitted: false,
        command: CAPABILITIES_EXCHANGE,
        application: BASE,
        hop_by_hop: identifiers.hop_by_hop,
        end_to_end: identifiers.end_to_end,
    };
    message(alloc, &header, &avps)
}

/// What came of a capabilities exchange.
#[derive(Clone, Copy, Debug, PartialEq, Eq)]
pub enum Exchange {
    /// The peers may speak.
    Agreed,
    /// The peer refuses, by this Result-Code, where the answer has just one.
    Refused(Option<u32>),
}

/// The number of the one Result-Code of an answer.
#[tactic(auto, unfolding(crate::specs::Exchanges::result_code_in))]
fn result_code(alloc: Global, octets: &[u8]) -> Result<Option<u32>, Stop>
    ensures { Gives (λ n. n) result (result_code_in octets.now) }
{
    let avps = group(alloc, octets)?;
    match only(&avps, RESULT_CODE)? {
        Some(avp) => Ok(read_unsigned32(avp.octets)),
        None => Ok(None),
    }
}

/// What came of a capabilities exchange, by the octets behind the header of the CEA (RFC 6733, clause 5.3.2): the peers
/// agree where its one Result-Code is DIAMETER_SUCCESS. An answer with another or none or two, or whose AVPs are at
/// fault, refuses. Takes memory; an `Err` is want of it.
pub fn read_capabilities_answer(alloc: Global, octets: &[u8]) -> Result<Exchange, AllocError>
    ensures { IfOk result (λ e. e ≡ exchange_by (result_code_in octets.now)) }
{
    match result_code(alloc, octets) {
        Ok(Some(2001)) => Ok(Exchange::Agreed),
        Ok(number) => Ok(Exchange::Refused(number)),
        Err(Stop::Fault(_)) => Ok(Exchange::Refused(None)),
        Err(Stop::NoMemory) => Err(AllocError),
    }
}
