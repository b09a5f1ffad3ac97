//! Headers of version 6 (RFC 8200, clause 3).

ghost use Rattle.std.specs.Prelude.{◌≡◌, ◌≤◌, None, length, if◌then◌else◌};
ghost use Rattle.pcef_packet.specs.HeaderOf.{header_v6, ports_in, reading_v6, volume_v6};

use crate::extensions::{Payload, payload_behind};
use crate::header::{Addr, Dir, Header, PacketFault, Ports};
use crate::ports::ports_of;
use byteorder::{BigEndian, ByteOrder};

/// The length of the fixed header.
const FIXED_LEN: usize = 40;

/// The volume in octets: the fixed header and the payload length.
#[tactic(auto, unfolding(crate::specs::HeaderOf::volume_v6))]
fn volume_of(octets: &[u8]) -> u32
    requires { 40 ≤ length octets.now }
    ensures volume { result ≡ volume_v6 octets.now }
    ensures least { 40 ≤ result }
{
    40 + u32::from(BigEndian::read_u16(&octets[4..]))
}

/// The ports of what a packet carries.
fn ports_carried(payload: &Payload<'_>) -> Option<Ports>
    ensures { result ≡ if payload.now.begins then ports_in payload.now.proto payload.now.payload else None }
{
    if payload.begins {
        ports_of(payload.proto, payload.octets)
    } else {
        None
    }
}

/// The fields of a header whose lengths are right.
#[tactic(auto, unfolding(crate::specs::HeaderOf::header_v6))]
fn fields(dir: Dir, octets: &[u8], volume: u32, payload: &Payload<'_>) -> Header
    requires least { 40 ≤ length octets.now }
    requires volume { volume ≡ volume_v6 octets.now }
    ensures { result ≡ header_v6 dir octets.now payload.now }
{
    Header {
        dir,
        src: Addr::V6(BigEndian::read_u128(&octets[8..])),
        dst: Addr::V6(BigEndian::read_u128(&octets[24..])),
        proto: payload.proto,
        ports: ports_carried(payload),
        octets: volume,
        dscp: (BigEndian::read_u16(octets) / 64 % 64) as u8,
    }
}

/// The header at the front of the octets, or its first fault after the version. It isn't inlined, so that the reader of
/// both versions stays small enough to be.
#[inline(never)]
#[tactic(auto, unfolding(crate::specs::HeaderOf::reading_v6, crate::specs::HeaderOf::behind_fixed))]
pub(crate) fn read_v6(dir: Dir, octets: &[u8]) -> Result<Header, PacketFault>
    ensures { result ≡ reading_v6 dir octets.now }
{
    if octets.len() < FIXED_LEN {
        return Err(PacketFault::ShortHeader);
    }
    let volume = volume_of(octets);
    if octets.len() < volume as usize {
        return Err(PacketFault::BadTotalLength);
    }
    match payload_behind(octets[6], &octets[FIXED_LEN..volume as usize]) {
        None => Err(PacketFault::BadHeaderLength),
        Some(payload) => Ok(fields(dir, octets, volume, &payload)),
    }
}
