//! The ports of a packet (RFC 9293, RFC 768, RFC 9260).

ghost use Rattle.std.specs.Prelude.{◌≡◌};
ghost use Rattle.pcef_packet.specs.HeaderOf.{ports_in};

use crate::header::Ports;
use byteorder::{BigEndian, ByteOrder};

/// The ports at the front of a payload, for a protocol that has them.
#[tactic(auto, unfolding(crate::specs::HeaderOf::ports_in))]
pub(crate) fn ports_of(proto: u8, payload: &[u8]) -> Option<Ports>
    ensures { result ≡ ports_in proto payload.now }
{
    if matches!(proto, 6 | 17 | 132) && 4 <= payload.len() {
        Some(Ports {
            src: BigEndian::read_u16(payload),
            dst: BigEndian::read_u16(&payload[2..]),
        })
    } else {
        None
    }
}
