//! The extension headers of version 6 (RFC 8200, clause 4).

ghost use Rattle.std.specs.Prelude.{◌≡◌, ◌<◌, ◌≤◌, ◌∷◌, [], ℕ, false, length, slice_index, true};
ghost use Rattle.pcef_packet.specs.ExtensionHeaders.{is_extension, is_fragment};
ghost use Rattle.pcef_packet.specs.HeaderOf.{number};
ghost use Rattle.pcef_front.specs.Fronts.{IsSettledBy};
ghost use Rattle.pcef_front.specs.private.Transports.{LeadsTo, ShowsLater, transport_in};

use crate::cutting::behind;
use crate::fault::FrontFault;
use crate::ports::{has_ports, ports_of};
use byteorder::{BigEndian, ByteOrder};
use pcef_packet::{PacketFault, Ports};

/// The kind of a fragment header.
const FRAGMENT: u8 = 44;

/// The length of the shortest extension header, and of a fragment header.
const LEAST_LEN: usize = 8;

/// The length of the longest extension header.
const MOST_LEN: usize = 2048;

/// The fault of a packet that ends within an extension header.
const CUT_HEADER: FrontFault = FrontFault::Packet(PacketFault::BadHeaderLength);

/// The protocol and ports behind the extension headers, which rules test.
#[derive(Clone, Copy)]
pub(crate) struct Transport {
    /// The protocol.
    pub proto: u8,
    /// The ports, where the packet carries them.
    pub ports: Option<Ports>,
}

/// What follows an extension header.
#[derive(Clone, Copy)]
enum Beyond {
    /// A header, or a payload, of this kind, and how many octets further on it begins.
    To(u8, usize),
    /// A payload of this protocol, which has no ports.
    Portless(u8),
}

/// Whether a header of this kind is an extension header, which is skipped.
fn is_extension(kind: u8) -> bool
    ensures { result ≡ is_extension kind }
{
    matches!(kind, FRAGMENT | 0 | 43 | 60)
}

/// The fragment offset, in the upper 13 bits, and what stands below it.
fn offset_of(left: &[u8]) -> u16
    requires { 4 ≤ length left.now }
    ensures { result ≡ number left.now 2 2 }
{
    BigEndian::read_u16(&left[2..])
}

/// Whether the fragment header that begins with these octets is that of a fragment other than the first. None where
/// that depends on octets that aren't at hand.
fn is_later(left: &[u8]) -> Option<bool>
    ensures { ShowsLater left.now result }
{
    if 4 <= left.len() {
        Some(offset_of(left) / 8 != 0)
    } else if left.len() == 3 && left[2] != 0 {
        Some(true)
    } else {
        None
    }
}

/// What follows the fragment header in front, which names the kind `next`. `room` is how many octets the packet has
/// from this header on.
fn past_fragment(next: u8, left: &[u8], room: usize) -> Result<Beyond, FrontFault>
    requires some { 0 < length left.now }
    requires within { length left.now ≤ room }
    requires fits { 8 ≤ room }
    requires next_is { next ≡ slice_index left.now 0 }
    ensures { LeadsTo 44 left.now room result }
{
    match is_later(left) {
        Some(true) => Ok(Beyond::Portless(next)),
        Some(false) => Ok(Beyond::To(next, LEAST_LEN)),
        None if is_extension(next) => Err(FrontFault::TooFew),
        None if has_ports(next, room - LEAST_LEN) => Err(FrontFault::TooFew),
        None => Ok(Beyond::Portless(next)),
    }
}

/// What follows a header that names the kind `next`, where only its first octet is at hand: its second octet, which is
/// missing, states its length. `room` is how many octets the packet has from this header on.
fn past_first_octet(next: u8, room: usize) -> Result<Beyond, FrontFault>
    requires fits { 8 ≤ room }
    ensures { (kind : ℕ) → is_extension kind ≡ true → is_fragment kind ≡ false → LeadsTo kind (next ∷ []) room result }
{
    if is_extension(next) {
        if room < LEAST_LEN + LEAST_LEN {
            Err(CUT_HEADER)
        } else {
            Err(FrontFault::TooFew)
        }
    } else if room < MOST_LEN || has_ports(next, room - LEAST_LEN) {
        Err(FrontFault::TooFew)
    } else {
        Ok(Beyond::Portless(next))
    }
}

/// What follows the header in front, which names the kind `next` and isn't a fragment header. `room` is how many octets
/// the packet has from this header on.
fn past_options(next: u8, left: &[u8], room: usize) -> Result<Beyond, FrontFault>
    requires some { 0 < length left.now }
    requires within { length left.now ≤ room }
    requires fits { 8 ≤ room }
    requires next_is { next ≡ slice_index left.now 0 }
    ensures { (kind : ℕ) → is_extension kind ≡ true → is_fragment kind ≡ false → LeadsTo kind left.now room result }
{
    if left.len() == 1 {
        return past_first_octet(next, room);
    }
    let len = LEAST_LEN + 8 * usize::from(left[1]);
    if room < len {
        Err(CUT_HEADER)
    } else {
        Ok(Beyond::To(next, len))
    }
}

/// What follows the header of this kind in front. `room` is how many octets the packet has from this header on.
fn past(kind: u8, left: &[u8], room: usize) -> Result<Beyond, FrontFault>
    requires extends { is_extension kind ≡ true }
    requires within { length left.now ≤ room }
    ensures { LeadsTo kind left.now room result }
{
    if room < LEAST_LEN {
        return Err(CUT_HEADER);
    }
    let Some(next) = left.first() else {
        return Err(FrontFault::TooFew);
    };
    if kind == FRAGMENT {
        past_fragment(*next, left, room)
    } else {
        past_options(*next, left, room)
    }
}

/// The transport in the `room` octets behind the fixed header, where the first header has this kind and only the octets
/// of `front` are at hand.
pub(crate) fn transport_of(first: u8, front: &[u8], room: usize) -> Result<Transport, FrontFault>
    requires within { length front.now ≤ room }
    ensures { IsSettledBy (transport_in first) front.now room result }
{
    let mut kind = first;
    let mut left = front;
    let mut left_room = room;
    'headers: while is_extension(kind) {
        match past(kind, left, left_room)? {
            Beyond::Portless(proto) => return Ok(Transport { proto, ports: None }),
            Beyond::To(next, len) => {
                kind = next;
                left = behind(left, len);
                left_room -= len;
            }
        }
    }
    match ports_of(kind, left, left_room) {
        Ok(ports) => Ok(Transport { proto: kind, ports }),
        Err(fault) => Err(fault),
    }
}
