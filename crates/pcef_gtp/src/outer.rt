//! The UDP datagram to the port of GTP-U in an IP packet.

ghost use Rattle.std.specs.Prelude.{◌≡◌, ◌≤◌, IfErr, IfOk, Ok as DueOk, Err as DueErr, length};
ghost use Rattle.pcef_gtp.specs.Outer.{datagram_in, datagram_v4, datagram_v6, header_len_v4, is_fragment_v4, is_fragment_v6, message_in, total_len_v4, total_len_v6};

use crate::refusal::NotTunneled;
use byteorder::{BigEndian, ByteOrder};

/// The number of UDP among the protocols.
const UDP: u8 = 17;

/// The number of IPv6's fragment header.
const FRAGMENT: u8 = 44;

/// The UDP port of GTP-U.
const GTP_U_PORT: u16 = 2152;

/// The length of IPv4's header without options.
const LEAST_HEADER_LEN: usize = 20;

/// The length of IPv6's fixed header.
const FIXED_LEN: usize = 40;

/// The length of UDP's header.
const UDP_HEADER_LEN: usize = 8;

/// The header length of version 4 in octets.
#[tactic(auto, unfolding(crate::specs::Outer::header_len_v4))]
fn header_len_v4(octets: &[u8]) -> usize
    requires { 20 ≤ length octets.now }
    ensures { result ≡ header_len_v4 octets.now }
{
    usize::from(octets[0] & 0x0f) * 4
}

/// The total length of version 4 in octets.
#[tactic(auto, unfolding(crate::specs::Outer::total_len_v4))]
fn total_len_v4(octets: &[u8]) -> usize
    requires { 20 ≤ length octets.now }
    ensures { result ≡ total_len_v4 octets.now }
{
    usize::from(BigEndian::read_u16(&octets[2..]))
}

/// Whether a packet of version 4 is a fragment.
#[tactic(auto, unfolding(crate::specs::Outer::is_fragment_v4))]
fn is_fragment_v4(octets: &[u8]) -> bool
    requires { 20 ≤ length octets.now }
    ensures { result ≡ is_fragment_v4 octets.now }
{
    BigEndian::read_u16(&octets[6..]) & 0x3fff != 0
}

/// The datagram in a packet of version 4.
#[tactic(auto, unfolding(crate::specs::Outer::datagram_v4))]
fn datagram_v4(octets: &[u8]) -> Result<&[u8], NotTunneled>
    ensures datagram { IfOk result (λ d. datagram_v4 octets.now ≡ DueOk d.now) }
    ensures refusal { IfErr result (λ e. datagram_v4 octets.now ≡ DueErr e) }
{
    if octets.len() < LEAST_HEADER_LEN {
        return Err(NotTunneled::NotWhole);
    }
    let header_len = header_len_v4(octets);
    let total_len = total_len_v4(octets);
    if header_len < LEAST_HEADER_LEN || total_len < header_len || octets.len() < total_len {
        return Err(NotTunneled::NotWhole);
    }
    if octets[9] != UDP {
        return Err(NotTunneled::NotGtp);
    }
    if is_fragment_v4(octets) {
        return Err(NotTunneled::Fragment);
    }
    Ok(&octets[header_len..total_len])
}

/// The length of a packet of version 6 in octets.
#[tactic(auto, unfolding(crate::specs::Outer::total_len_v6))]
fn total_len_v6(octets: &[u8]) -> usize
    requires { 40 ≤ length octets.now }
    ensures len { result ≡ total_len_v6 octets.now }
    ensures least { 40 ≤ result }
{
    FIXED_LEN + usize::from(BigEndian::read_u16(&octets[4..]))
}

/// Whether a packet of version 6 is a fragment of a UDP datagram.
#[tactic(auto, unfolding(crate::specs::Outer::is_fragment_v6))]
fn is_fragment_v6(octets: &[u8]) -> bool
    requires { 40 ≤ length octets.now }
    ensures { result ≡ is_fragment_v6 octets.now }
{
    octets[6] == FRAGMENT && octets.get(FIXED_LEN) == Some(&UDP)
}

/// The datagram in a packet of version 6.
#[tactic(auto, unfolding(crate::specs::Outer::datagram_v6))]
fn datagram_v6(octets: &[u8]) -> Result<&[u8], NotTunneled>
    ensures datagram { IfOk result (λ d. datagram_v6 octets.now ≡ DueOk d.now) }
    ensures refusal { IfErr result (λ e. datagram_v6 octets.now ≡ DueErr e) }
{
    if octets.len() < FIXED_LEN {
        return Err(NotTunneled::NotWhole);
    }
    let total_len = total_len_v6(octets);
    if octets.len() < total_len {
        return Err(NotTunneled::NotWhole);
    }
    if is_fragment_v6(octets) {
        return Err(NotTunneled::Fragment);
    }
    if octets[6] != UDP {
        return Err(NotTunneled::NotGtp);
    }
    Ok(&octets[FIXED_LEN..total_len])
}

/// The UDP datagram in an IP packet.
#[tactic(auto, unfolding(crate::specs::Outer::datagram_in))]
pub(crate) fn datagram_in(octets: &[u8]) -> Result<&[u8], NotTunneled>
    ensures datagram { IfOk result (λ d. datagram_in octets.now ≡ DueOk d.now) }
    ensures refusal { IfErr result (λ e. datagram_in octets.now ≡ DueErr e) }
{
    match octets.first() {
        Some(&first) if first / 16 == 4 => datagram_v4(octets),
        Some(&first) if first / 16 == 6 => datagram_v6(octets),
        _ => Err(NotTunneled::NotWhole),
    }
}

/// The message in a datagram to the port of GTP-U.
#[tactic(auto, unfolding(crate::specs::Outer::message_in))]
pub(crate) fn message_in(datagram: &[u8]) -> Result<&[u8], NotTunneled>
    ensures message { IfOk result (λ m. message_in datagram.now ≡ DueOk m.now) }
    ensures refusal { IfErr result (λ e. message_in datagram.now ≡ DueErr e) }
{
    if datagram.len() < UDP_HEADER_LEN {
        return Err(NotTunneled::NotGtp);
    }
    if BigEndian::read_u16(&datagram[2..]) != GTP_U_PORT {
        return Err(NotTunneled::NotGtp);
    }
    let len = usize::from(BigEndian::read_u16(&datagram[4..]));
    if len < UDP_HEADER_LEN || datagram.len() < len {
        return Err(NotTunneled::Length);
    }
    Ok(&datagram[UDP_HEADER_LEN..len])
}
