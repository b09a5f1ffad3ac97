//! The reader of headers.

ghost use Rattle.std.specs.Prelude.{◌≡◌, Err, MatchResult, Ok};
ghost use Rattle.pcef_packet.specs.HeaderOf.{IsFaultV6, IsHeaderV6, header_of, version};
ghost use Rattle.pcef_packet.specs.declared.header.Header.{Header};
ghost use Rattle.pcef_packet.specs.declared.header.PacketFault.{PacketFault};

use crate::header::{Dir, Header, PacketFault};
use crate::ipv4::read_v4;
use crate::ipv6::read_v6;

/// The header at the front of a packet's octets (RFC 791, clause 3.1; RFC 8200, clauses 3 and 4), or the
/// packet's first fault: in the order of [`PacketFault`] for version 4, while for version 6
/// `BadTotalLength` comes before `BadHeaderLength`.
///
/// Octets after the total length, or the volume, are ignored, and the checksum isn't looked at. In a packet
/// of version 6 the extension headers 0, 43, 44 and 60 are passed over; the protocol is what the last
/// one names. Ports are read for protocols 6, 17 and 132, at fragment offset 0, where the payload has four
/// octets or more. Takes no memory.
#[inline]
pub fn read_header(dir: Dir, octets: &[u8]) -> Result<Header, PacketFault>
    ensures reading { result ≡ header_of dir octets.now }
    // Of version 6, what is answered is the header or the fault of the octets.
    ensures six { version octets.now ≡ 6 → MatchResult result (λ h. IsHeaderV6 dir octets.now h)
        (λ e. IsFaultV6 octets.now e) }
    // The header of a packet of version 6 is answered, and so is its fault.
    ensures six_header { (header : Header) → version octets.now ≡ 6 →
        IsHeaderV6 dir octets.now header → result ≡ Ok header }
    ensures six_fault { (e : PacketFault) → version octets.now ≡ 6 →
        IsFaultV6 octets.now e → result ≡ Err e }
{
    let Some(first) = octets.first() else {
        return Err(PacketFault::Empty);
    };
    match *first >> 4 {
        4 => read_v4(dir, octets),
        6 => read_v6(dir, octets),
        _ => Err(PacketFault::Version),
    }
}
