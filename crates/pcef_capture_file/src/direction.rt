//! Which way a packet of a session goes.

ghost use Rattle.std.specs.Prelude.{◌≡◌};
ghost use Rattle.pcef_capture_file.specs.Directions.{direction_of_packet};

use pcef_packet::{Addr, Dir, PacketFault, read_header};

/// Which way a packet goes for the session of an address: up where its source is an address of the session, else down
/// where its destination is one, else none. A session of version 6 has all addresses of its /64. An `Err` is the first
/// fault of the packet's header: the octets aren't a whole packet. Takes no memory.
#[tactic(auto, unfolding(crate::specs::Directions::direction_of_packet))]
pub fn direction_of(ue: Addr, octets: &[u8]) -> Result<Option<Dir>, PacketFault>
    ensures { result ≡ direction_of_packet ue octets.now }
{
    let header = read_header(Dir::Up, octets)?;
    if header.src.is_assigned(ue) {
        Ok(Some(Dir::Up))
    } else if header.dst.is_assigned(ue) {
        Ok(Some(Dir::Down))
    } else {
        Ok(None)
    }
}
