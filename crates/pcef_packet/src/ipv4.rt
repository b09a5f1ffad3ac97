//! Headers of version 4 (RFC 791, clause 3.1).

ghost use Rattle.std.specs.Prelude.{◌≡◌, ◌<◌, ◌≤◌, length};
ghost use Rattle.pcef_packet.specs.HeaderOf.{faults_v4, header_unless, fragment_offset_v4, header_len_v4, header_v4, total_len_v4};

use crate::header::{Addr, Dir, Header, PacketFault};
use crate::ports::ports_of;
use byteorder::{BigEndian, ByteOrder};

/// The length of a header without options.
const LEAST_HEADER_LEN: usize = 20;

/// The header length in octets, from the lower half of the first octet.
#[tactic(auto, unfolding(crate::specs::HeaderOf::header_len_v4))]
fn header_len_of(octets: &[u8]) -> usize
    requires { 0 < length octets.now }
    ensures { result ≡ header_len_v4 octets.now }
{
    usize::from(octets[0] & 0x0f) * 4
}

/// The total length in octets.
#[tactic(auto, unfolding(crate::specs::HeaderOf::total_len_v4))]
fn total_len_of(octets: &[u8]) -> u16
    requires { 20 ≤ length octets.now }
    ensures { result ≡ total_len_v4 octets.now }
{
    BigEndian::read_u16(&octets[2..])
}

/// The fragment offset, without the flags above it.
#[tactic(auto, unfolding(crate::specs::HeaderOf::fragment_offset_v4))]
fn fragment_offset_of(octets: &[u8]) -> u16
    requires { 20 ≤ length octets.now }
    ensures { result ≡ fragment_offset_v4 octets.now }
{
    BigEndian::read_u16(&octets[6..]) & 0x1fff
}

/// The fields of a header whose lengths are right.
#[tactic(auto, unfolding(crate::specs::HeaderOf::header_v4))]
fn fields(dir: Dir, octets: &[u8], header_len: usize) -> Header
    requires least { 20 ≤ header_len }
    requires len { header_len ≡ header_len_v4 octets.now }
    requires total { header_len ≤ total_len_v4 octets.now }
    requires within { total_len_v4 octets.now ≤ length octets.now }
    ensures { result ≡ header_v4 dir octets.now }
{
    let total_len = total_len_of(octets);
    let proto = octets[9];
    let ports = if fragment_offset_of(octets) == 0 {
        ports_of(proto, &octets[header_len..usize::from(total_len)])
    } else {
        None
    };
    Header {
        dir,
        src: Addr::V4(BigEndian::read_u32(&octets[12..])),
        dst: Addr::V4(BigEndian::read_u32(&octets[16..])),
        proto,
        ports,
        octets: u32::from(total_len),
        dscp: octets[1] >> 2,
    }
}

/// The header at the front of the octets, or its first fault after the version.
pub(crate) fn read_v4(dir: Dir, octets: &[u8]) -> Result<Header, PacketFault>
    ensures { result ≡ header_unless (faults_v4 octets.now) (header_v4 dir octets.now) }
{
    if octets.len() < LEAST_HEADER_LEN {
        return Err(PacketFault::ShortHeader);
    }
    let header_len = header_len_of(octets);
    if header_len < LEAST_HEADER_LEN || octets.len() < header_len {
        return Err(PacketFault::BadHeaderLength);
    }
    let total_len = usize::from(total_len_of(octets));
    if total_len < header_len || octets.len() < total_len {
        return Err(PacketFault::BadTotalLength);
    }
    Ok(fields(dir, octets, header_len))
}
