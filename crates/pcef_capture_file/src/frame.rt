//! The packet behind the header of a frame.

ghost use Rattle.std.specs.Prelude.{◌≡◌, ◌+◌, ◌<◌, ◌≤◌, option_map};
ghost use Rattle.pcef_capture_file.specs.Frames.{behind, behind_family, behind_type, ip_in, is_ip_at, is_ip_family, is_tag_at, is_type_at, past_tag};

use crate::endianness::Endianness;
use crate::link::Link;
use crate::packet::Packet;

/// The type of IPv4 in Ethernet and in the cooked headers.
const IPV4_TYPE: u16 = 0x0800;

/// The type of IPv6 in Ethernet and in the cooked headers.
const IPV6_TYPE: u16 = 0x86dd;

/// Whether this number of two octets stands at a place.
#[tactic(auto, unfolding(crate::specs::Frames::is_type_at))]
fn is_type_at(octets: &[u8], place: usize, number: u16) -> bool
    ensures { result ≡ is_type_at octets.now place number }
{
    match octets.len().checked_sub(place) {
        Some(len) if 2 <= len => Endianness::Big.number_in_2(octets, place) == number,
        _ => false,
    }
}

/// Whether a VLAN tag begins at a place.
#[tactic(auto, unfolding(crate::specs::Frames::is_tag_at))]
fn is_tag_at(octets: &[u8], place: usize) -> bool
    ensures { result ≡ is_tag_at octets.now place }
{
    is_type_at(octets, place, 0x8100)
        || is_type_at(octets, place, 0x88a8)
        || is_type_at(octets, place, 0x9100)
}

/// The octets from a place on, or none where it is beyond the end.
#[tactic(auto, unfolding(crate::specs::Frames::behind))]
fn behind(octets: &[u8], place: usize) -> Option<&[u8]>
    ensures { option_map (λ o. o.now) result ≡ behind octets.now place }
{
    if place <= octets.len() {
        Some(&octets[place..])
    } else {
        None
    }
}

/// The place behind a VLAN tag, if one begins at this one.
#[tactic(auto, unfolding(crate::specs::Frames::past_tag))]
fn past_tag(octets: &[u8], place: usize) -> usize
    requires { place < 256 }
    ensures tag { result ≡ past_tag octets.now place }
    ensures near { result ≤ place + 4 }
{
    if is_tag_at(octets, place) {
        place + 4
    } else {
        place
    }
}

/// Whether the type of IPv4 or IPv6 stands at a place.
#[tactic(auto, unfolding(crate::specs::Frames::is_ip_at))]
fn is_ip_at(octets: &[u8], place: usize) -> bool
    ensures { result ≡ is_ip_at octets.now place }
{
    is_type_at(octets, place, IPV4_TYPE) || is_type_at(octets, place, IPV6_TYPE)
}

/// Whether a protocol family of the loopback headers is that of IPv4, or the one that a system has for
/// IPv6: NetBSD and OpenBSD 24, FreeBSD 28, Darwin 30.
#[tactic(auto, unfolding(crate::specs::Frames::is_ip_family))]
fn is_ip_family(family: u32) -> bool
    ensures { result ≡ is_ip_family family }
{
    matches!(family, 2 | 24 | 28 | 30)
}

/// The octets behind a type, if it is that of IPv4 or IPv6. At most two tags may stand before it.
#[tactic(auto, unfolding(crate::specs::Frames::behind_type))]
fn behind_type(octets: &[u8], place: usize) -> Option<&[u8]>
    requires { place < 200 }
    ensures { option_map (λ o. o.now) result ≡ behind_type octets.now place }
{
    let place = past_tag(octets, past_tag(octets, place));
    if is_ip_at(octets, place) {
        behind(octets, place + 2)
    } else {
        None
    }
}

/// The octets behind a protocol family, if it is that of IPv4 or IPv6.
#[tactic(auto, unfolding(crate::specs::Frames::behind_family))]
fn behind_family(endianness: Endianness, octets: &[u8]) -> Option<&[u8]>
    ensures { option_map (λ o. o.now) result ≡ behind_family endianness octets.now }
{
    if 4 <= octets.len() && is_ip_family(endianness.number_in_4(octets, 0)) {
        behind(octets, 4)
    } else {
        None
    }
}

/// The octets of a frame behind its link header, if that header says that a packet of IPv4 or IPv6 follows. Whether the
/// packet has that version isn't checked. Raw frames have no header: all their octets are returned. Padding may follow
/// the packet. Takes no memory.
#[tactic(auto, unfolding(crate::specs::Frames::ip_in))]
pub fn ip_of<'a>(packet: &Packet<'a>) -> Option<&'a [u8]>
    ensures { option_map (λ o. o.now) result
        ≡ ip_in packet.now.link packet.now.endianness packet.now.octets.now }
{
    let octets = packet.octets;
    match packet.link {
        Link::Ethernet => behind_type(octets, 12),
        Link::Raw => Some(octets),
        Link::Null => behind_family(packet.endianness, octets),
        Link::Loop => behind_family(Endianness::Big, octets),
        Link::LinuxCooked => behind_type(octets, 14),
        Link::LinuxCooked2 => {
            if is_ip_at(octets, 0) {
                behind(octets, 20)
            } else {
                None
            }
        }
    }
}
