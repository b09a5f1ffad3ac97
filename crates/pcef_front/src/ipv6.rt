//! Headers of version 6 (RFC 8200, clause 3).

ghost use Rattle.std.specs.Prelude.{◌≡◌, ◌<◌, ◌≤◌, Err, length};
ghost use Rattle.pcef_packet.specs.declared.header.Dir.{Dir};
ghost use Rattle.pcef_packet.specs.HeaderOf.{reading_v6, volume_v6};
ghost use Rattle.pcef_front.specs.Fronts.{IsSettledBy};
ghost use Rattle.pcef_front.specs.private.Transports.{header_with_v6};

use crate::cutting::{behind, first};
use crate::extensions::{Transport, transport_of};
use crate::fault::FrontFault;
use byteorder::{BigEndian, ByteOrder};
use pcef_packet::{Addr, Dir, Header, PacketFault};

/// The length of the fixed header.
const FIXED_LEN: usize = 40;

/// The place behind the payload length.
const PAYLOAD_LEN_END: usize = 6;

/// The volume in octets: the fixed header and the payload length.
#[tactic(auto, unfolding(pcef_packet::specs::HeaderOf::volume_v6))]
fn volume_of(front: &[u8]) -> usize
    requires { 6 ≤ length front.now }
    ensures volume { result ≡ volume_v6 front.now }
    ensures least { 40 ≤ result }
{
    FIXED_LEN + usize::from(BigEndian::read_u16(&front[4..]))
}

/// Why the front has no header where it ends before the payload length does. With five octets at hand, the last of them
/// may show that the volume is beyond the packet.
fn without_volume(front: &[u8], whole: usize) -> FrontFault
    requires some { 0 < length front.now }
    requires few { length front.now < 6 }
    requires long { 40 ≤ whole }
    ensures { (dir : Dir) → IsSettledBy (reading_v6 dir) front.now whole (Err result) }
{
    if front.len() == 5 && whole < FIXED_LEN + 256 * usize::from(front[4]) {
        FrontFault::Packet(PacketFault::BadTotalLength)
    } else {
        FrontFault::TooFew
    }
}

/// Why the front has no header where it ends within the fixed one: the first extension header may not fit.
fn without_addresses(front: &[u8], whole: usize, volume: usize) -> FrontFault
    requires some { 6 ≤ length front.now }
    requires few { length front.now < 40 }
    requires is_volume { volume ≡ volume_v6 front.now }
    requires least { 40 ≤ volume }
    requires within { volume ≤ whole }
    ensures { (dir : Dir) → IsSettledBy (reading_v6 dir) front.now whole (Err result) }
{
    if front.len() == 6 {
        return FrontFault::TooFew;
    }
    match transport_of(front[6], &[], volume - FIXED_LEN) {
        Ok(_) => FrontFault::TooFew,
        Err(fault) => fault,
    }
}

/// The header of a packet with this transport.
#[tactic(auto, unfolding(pcef_packet::specs::HeaderOf::volume_v6))]
fn header_with(dir: Dir, front: &[u8], carried: Transport) -> Header
    requires { 40 ≤ length front.now }
    ensures { result ≡ header_with_v6 dir front.now carried }
{
    Header {
        dir,
        src: Addr::V6(BigEndian::read_u128(&front[8..])),
        dst: Addr::V6(BigEndian::read_u128(&front[24..])),
        proto: carried.proto,
        ports: carried.ports,
        octets: 40 + u32::from(BigEndian::read_u16(&front[4..])),
        dscp: (BigEndian::read_u16(front) / 64 % 64) as u8,
    }
}

/// The header of a packet of version 6, of `whole` octets, that begins with those of `front`.
pub(crate) fn read_v6(dir: Dir, front: &[u8], whole: usize) -> Result<Header, FrontFault>
    requires some { 0 < length front.now }
    requires fewer { length front.now < whole }
    ensures { IsSettledBy (reading_v6 dir) front.now whole result }
{
    if whole < FIXED_LEN {
        return Err(FrontFault::Packet(PacketFault::ShortHeader));
    }
    if front.len() < PAYLOAD_LEN_END {
        return Err(without_volume(front, whole));
    }
    let volume = volume_of(front);
    if whole < volume {
        return Err(FrontFault::Packet(PacketFault::BadTotalLength));
    }
    if front.len() < FIXED_LEN {
        return Err(without_addresses(front, whole, volume));
    }
    let at_hand = first(behind(front, FIXED_LEN), volume - FIXED_LEN);
    match transport_of(front[6], at_hand, volume - FIXED_LEN) {
        Ok(carried) => Ok(header_with(dir, front, carried)),
        Err(fault) => Err(fault),
    }
}
