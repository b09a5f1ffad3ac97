//! The ports of a packet (RFC 9293, RFC 768, RFC 9260).

ghost use Rattle.std.specs.Prelude.{◌≡◌, ◌≤◌, length};
ghost use Rattle.pcef_packet.specs.HeaderOf.{carries_ports};
ghost use Rattle.pcef_front.specs.Fronts.{IsSettledBy};
ghost use Rattle.pcef_front.specs.private.Transports.{has_ports, ports_at, ports_read};

use crate::fault::FrontFault;
use byteorder::{BigEndian, ByteOrder};
use pcef_packet::Ports;

/// How many octets two ports have.
const PORTS_LEN: usize = 4;

/// Whether a protocol begins with its ports.
pub(crate) fn carries_ports(proto: u8) -> bool
    ensures { result ≡ carries_ports proto }
{
    matches!(proto, 6 | 17 | 132)
}

/// Whether a payload of `room` octets has ports.
pub(crate) fn has_ports(proto: u8, room: usize) -> bool
    ensures { result ≡ has_ports proto room }
{
    carries_ports(proto) && PORTS_LEN <= room
}

/// The ports that these octets begin with.
pub(crate) fn ports_at(payload: &[u8]) -> Ports
    requires { 4 ≤ length payload.now }
    ensures { result ≡ ports_at payload.now }
{
    Ports {
        src: BigEndian::read_u16(payload),
        dst: BigEndian::read_u16(&payload[2..]),
    }
}

/// The ports at the front of a payload of `room` octets, of which only the first may be at hand, or none where the
/// protocol has no ports.
pub(crate) fn ports_of(proto: u8, payload: &[u8], room: usize) -> Result<Option<Ports>, FrontFault>
    ensures { IsSettledBy (ports_read proto) payload.now room result }
{
    if !has_ports(proto, room) {
        return Ok(None);
    }
    if payload.len() < PORTS_LEN {
        return Err(FrontFault::TooFew);
    }
    Ok(Some(ports_at(payload)))
}
