//! What a frame is for a session.

ghost use Rattle.std.specs.Prelude.{◌≡◌};
ghost use Rattle.pcef_capture_file.specs.Captured.{captured};
ghost use Rattle.pcef_capture_file.specs.Contents.{IsContent};

use crate::direction::direction_of;
use crate::frame::ip_of;
use crate::packet::Packet;
use pcef_packet::{Addr, Dir, PacketFault};

/// What a frame is for the session of an address.
#[derive(Clone, Copy, Debug, PartialEq, Eq)]
pub enum Content<'a> {
    /// It has a whole packet, which goes from the session (up) or to it (down).
    Packet(Dir, &'a [u8]),
    /// It has a whole packet, with the session on neither side.
    Neither,
    /// It was recorded in part, and so is the packet in it.
    Cut(&'a [u8]),
    /// It has no packet, or one whose header is wrong.
    NotIp,
}

/// What a frame is for the session of an address. The session's side of a packet has the address itself in version 4,
/// and any address of its /64 in version 6. The version is that of the packet's own first octet, even where a type
/// before it states the other one. Takes no memory.
pub fn content_of<'a>(ue: Addr, packet: &Packet<'a>) -> Content<'a>
    ensures { IsContent ue (captured packet.now) result }
{
    let is_cut = packet.octets.len() < packet.original as usize;
    let Some(octets) = ip_of(packet) else {
        return Content::NotIp;
    };
    match direction_of(ue, octets) {
        Ok(Some(dir)) => Content::Packet(dir, octets),
        Ok(None) => Content::Neither,
        Err(PacketFault::Version) => Content::NotIp,
        Err(_) => {
            if is_cut {
                Content::Cut(octets)
            } else {
                Content::NotIp
            }
        }
    }
}
