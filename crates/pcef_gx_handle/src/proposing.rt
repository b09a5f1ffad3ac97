//! What the first CCR tells of a session.

ghost use Rattle.std.specs.Prelude.{◌≡◌, ◌≤◌, ◌+◌, ◌++◌, IfOk, OnOk, length};
ghost use Rattle.pcef_diameter.specs.Spellings.{avp_octets, avps_octets};
ghost use Rattle.pcef_gx_handle.specs.Proposals.{address_avp, arp_avp, prefix_avp, proposal, qos_avp, word_of};

use pcef_gx::code::{
    ALLOCATION_RETENTION_PRIORITY, DEFAULT_EPS_BEARER_QOS, FRAMED_IP_ADDRESS, FRAMED_IPV6_PREFIX,
    IP_CAN_TYPE, PRE_EMPTION_CAPABILITY, PRE_EMPTION_VULNERABILITY, PRIORITY_LEVEL,
    QOS_CLASS_IDENTIFIER,
};
use pcef_gx::{put_number, put_octets};
use pcef_model::Profile;
use pcef_packet::Addr;
use pcef_rule::{Arp, Qos};
use std::alloc::{AllocError, Global};

/// The IP-CAN-Type 3GPP-EPS.
const EPS: u32 = 5;

/// Writes the address of the user equipment, of version 6 as its prefix of 64 bits.
fn put_address(alloc: Global, out: &mut Vec<u8>, ue: Addr) -> Result<(), AllocError>
    ensures { OnOk result (out.new.items ≡ out.old.items ++ avp_octets (address_avp ue)) }
{
    match ue {
        Addr::V4(bits) => put_octets(out, FRAMED_IP_ADDRESS, &bits.to_be_bytes()),
        Addr::V6(bits) => put_prefix(alloc, out, &bits.to_be_bytes()),
    }
}

/// The word of a pre-emption that is enabled or not.
fn word_of(enabled: bool) -> u32
    ensures { result ≡ word_of enabled }
{
    if enabled { 0 } else { 1 }
}

/// Writes a Framed-IPv6-Prefix of 64 bits.
fn put_prefix(alloc: Global, out: &mut Vec<u8>, address: &[u8; 16]) -> Result<(), AllocError>
    ensures { OnOk result (out.new.items ≡ out.old.items ++ avp_octets (prefix_avp address.now)) }
{
    let mut prefix = Vec::new(alloc);
    prefix.extend_from_slice(&[0, 64])?;
    prefix.extend_from_slice(address.split_at(8).0)?;
    put_octets(out, FRAMED_IPV6_PREFIX, &prefix)
}

/// Writes an Allocation-Retention-Priority.
fn put_arp(alloc: Global, out: &mut Vec<u8>, arp: Arp) -> Result<(), AllocError>
    ensures written { OnOk result (out.new.items ≡ out.old.items ++ avp_octets (arp_avp arp)) }
    ensures room { OnOk result (length out.new.items ≤ length out.old.items + 72) }
{
    let mut parts = Vec::new(alloc);
    put_number(&mut parts, PRIORITY_LEVEL, u32::from(arp.level()))?;
    put_number(
        &mut parts,
        PRE_EMPTION_CAPABILITY,
        word_of(arp.capability()),
    )?;
    put_number(
        &mut parts,
        PRE_EMPTION_VULNERABILITY,
        word_of(arp.vulnerability()),
    )?;
    put_octets(out, ALLOCATION_RETENTION_PRIORITY, &parts)
}

/// Writes a Default-EPS-Bearer-QoS.
pub(crate) fn put_qos(alloc: Global, out: &mut Vec<u8>, qos: Qos) -> Result<(), AllocError>
    ensures { OnOk result (out.new.items ≡ out.old.items ++ avp_octets (qos_avp qos)) }
{
    let mut parts = Vec::new(alloc);
    put_number(&mut parts, QOS_CLASS_IDENTIFIER, u32::from(qos.qci.0))?;
    put_arp(alloc, &mut parts, qos.arp)?;
    put_octets(out, DEFAULT_EPS_BEARER_QOS, &parts)
}

/// The AVPs that the first CCR tells of a session, as octets, and the host's behind them.
pub(crate) fn proposal(
    alloc: Global,
    profile: &Profile,
    others: &[u8],
) -> Result<Vec<u8>, AllocError>
    ensures { IfOk result (λ avps. avps.items ≡ proposal profile.now others.now) }
{
    let mut avps = Vec::new(alloc);
    put_address(alloc, &mut avps, profile.ue)?;
    put_number(&mut avps, IP_CAN_TYPE, EPS)?;
    put_qos(alloc, &mut avps, profile.default_qos)?;
    avps.extend_from_slice(others)?;
    Ok(avps)
}
