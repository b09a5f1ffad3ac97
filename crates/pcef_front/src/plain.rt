//! The reader of plain packets, which most are: of version 4, without options, no fragment but the first, with ports.

ghost use Rattle.std.specs.Prelude.{◌≡◌, IfSome, Ok};
ghost use Rattle.pcef_packet.specs.HeaderOf.{header_of};

use crate::ipv4::{fragment_offset_of, header_with, total_len_of};
use crate::ports::{carries_ports, ports_at};
use pcef_packet::{Dir, Header};

/// The first octet of a packet of version 4 without options: its version, and the five words of its header.
const PLAIN: u8 = 0x45;

/// The length of a header without options.
const HEADER_LEN: usize = 20;

/// The length of the shortest plain packet: its header, and its ports.
const LEAST_LEN: usize = 24;

/// The header of a plain packet that is whole at hand, as `read_header` of `pcef_packet` reads it. None of any other
/// packet, and where the octets are none. It is small enough to stand where it is called.
#[inline(always)]
pub fn read_plain(dir: Dir, octets: &[u8]) -> Option<Header>
    ensures { IfSome result (λ header. header_of dir octets.now ≡ Ok header) }
{
    if octets.len() < LEAST_LEN || octets[0] != PLAIN {
        return None;
    }
    let total_len = total_len_of(octets);
    if total_len < LEAST_LEN || octets.len() < total_len {
        return None;
    }
    if fragment_offset_of(octets) != 0 || !carries_ports(octets[9]) {
        return None;
    }
    let ports = ports_at(&octets[HEADER_LEN..total_len]);
    Some(header_with(dir, octets, Some(ports)))
}
