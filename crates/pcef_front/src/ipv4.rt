//! Headers of version 4 (RFC 791, clause 3.1).

ghost use Rattle.std.specs.Prelude.{◌≡◌, ◌<◌, ◌≤◌, Err, ℕ, length};
ghost use Rattle.pcef_packet.specs.declared.header.Dir.{Dir};
ghost use Rattle.pcef_packet.specs.HeaderOf.{fragment_offset_v4, header_len_v4, total_len_v4};
ghost use Rattle.pcef_front.specs.Fronts.{IsSettledBy};
ghost use Rattle.pcef_front.specs.private.Transports.{header_with_v4, ports_v4, reading_v4};

use crate::cutting::{behind, first};
use crate::fault::FrontFault;
use crate::ports::ports_of;
use byteorder::{BigEndian, ByteOrder};
use pcef_packet::{Addr, Dir, Header, PacketFault, Ports};

/// The length of a header without options.
const LEAST_HEADER_LEN: usize = 20;

/// The place behind the total length.
const TOTAL_LEN_END: usize = 4;

/// The header length in octets, from the lower half of the first octet.
#[tactic(auto, unfolding(pcef_packet::specs::HeaderOf::header_len_v4))]
fn header_len_of(front: &[u8]) -> usize
    requires { 0 < length front.now }
    ensures { result ≡ header_len_v4 front.now }
{
    usize::from(front[0] & 0x0f) * 4
}

/// The total length in octets.
#[tactic(auto, unfolding(pcef_packet::specs::HeaderOf::total_len_v4))]
pub(crate) fn total_len_of(front: &[u8]) -> usize
    requires { 4 ≤ length front.now }
    ensures { result ≡ total_len_v4 front.now }
{
    usize::from(BigEndian::read_u16(&front[2..]))
}

/// The fragment offset, without the flags above it.
#[tactic(auto, unfolding(pcef_packet::specs::HeaderOf::fragment_offset_v4))]
pub(crate) fn fragment_offset_of(front: &[u8]) -> u16
    requires { 20 ≤ length front.now }
    ensures { result ≡ fragment_offset_v4 front.now }
{
    BigEndian::read_u16(&front[6..]) & 0x1fff
}

/// Why the front has no header where it ends before the total length does. With three octets at hand, the last of them
/// may show that the total length is beyond the packet.
fn without_total_len(front: &[u8], whole: usize) -> FrontFault
    requires some { 0 < length front.now }
    requires few { length front.now < 4 }
    requires least { 20 ≤ header_len_v4 front.now }
    requires most { header_len_v4 front.now ≤ whole }
    ensures { (dir : Dir) → IsSettledBy (reading_v4 dir) front.now whole (Err result) }
{
    if front.len() == 3 && whole < 256 * usize::from(front[2]) {
        FrontFault::Packet(PacketFault::BadTotalLength)
    } else {
        FrontFault::TooFew
    }
}

/// The ports, behind a header of this length, in a packet of this total length.
fn ports_behind(
    front: &[u8],
    header_len: usize,
    total_len: usize,
) -> Result<Option<Ports>, FrontFault>
    requires least { 20 ≤ length front.now }
    requires len { header_len ≡ header_len_v4 front.now }
    requires total { total_len ≡ total_len_v4 front.now }
    requires within { header_len ≤ total_len }
    ensures { (whole : ℕ) → length front.now ≤ whole → total_len ≤ whole
        → IsSettledBy ports_v4 front.now whole result }
{
    if fragment_offset_of(front) == 0 {
        let payload = first(behind(front, header_len), total_len - header_len);
        ports_of(front[9], payload, total_len - header_len)
    } else {
        Ok(None)
    }
}

/// The header with these ports.
#[tactic(auto, unfolding(pcef_packet::specs::HeaderOf::total_len_v4))]
pub(crate) fn header_with(dir: Dir, front: &[u8], ports: Option<Ports>) -> Header
    requires { 20 ≤ length front.now }
    ensures { result ≡ header_with_v4 dir front.now ports }
{
    Header {
        dir,
        src: Addr::V4(BigEndian::read_u32(&front[12..])),
        dst: Addr::V4(BigEndian::read_u32(&front[16..])),
        proto: front[9],
        ports,
        octets: u32::from(BigEndian::read_u16(&front[2..])),
        dscp: front[1] >> 2,
    }
}

/// The header of a packet of version 4, of `whole` octets, that begins with those of `front`.
pub(crate) fn read_v4(dir: Dir, front: &[u8], whole: usize) -> Result<Header, FrontFault>
    requires some { 0 < length front.now }
    requires fewer { length front.now < whole }
    ensures { IsSettledBy (reading_v4 dir) front.now whole result }
{
    if whole < LEAST_HEADER_LEN {
        return Err(FrontFault::Packet(PacketFault::ShortHeader));
    }
    let header_len = header_len_of(front);
    if header_len < LEAST_HEADER_LEN || whole < header_len {
        return Err(FrontFault::Packet(PacketFault::BadHeaderLength));
    }
    if front.len() < TOTAL_LEN_END {
        return Err(without_total_len(front, whole));
    }
    let total_len = total_len_of(front);
    if total_len < header_len || whole < total_len {
        return Err(FrontFault::Packet(PacketFault::BadTotalLength));
    }
    if front.len() < LEAST_HEADER_LEN {
        return Err(FrontFault::TooFew);
    }
    match ports_behind(front, header_len, total_len) {
        Ok(ports) => Ok(header_with(dir, front, ports)),
        Err(fault) => Err(fault),
    }
}
