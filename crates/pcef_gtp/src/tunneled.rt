//! The packet of a tunnel in an IP packet.

ghost use Rattle.std.specs.Prelude.{◌≡◌, IfErr, IfOk, Ok as DueOk, Err as DueErr};
ghost use Rattle.pcef_gtp.specs.Tunneling.{tunneled_in};

use crate::message::packet_in;
use crate::outer::{datagram_in, message_in};
use crate::refusal::NotTunneled;

/// The packet of a tunnel.
#[derive(Clone, Copy, Debug, PartialEq, Eq)]
pub struct Tunneled<'a> {
    /// The tunnel endpoint identifier, which the receiver of the tunnel's packets chose.
    pub teid: u32,
    /// The octets that the tunnel carries: an IP packet, where the session is one of IP.
    pub packet: &'a [u8],
}

/// The packet of a tunnel that an IP packet has in it (3GPP TS 29.281): the octets behind the header and the extension
/// headers of a G-PDU, up to its length, in a UDP datagram to port 2152. The packet in the tunnel isn't looked at.
/// Octets behind the IP packet, its datagram or its message are ignored, and checksums aren't looked at. Extension
/// headers of all types are passed over. An `Err` is the first reason, in the order of [`NotTunneled`], but that of
/// `Length` for the datagram comes before `ShortHeader`. Takes no memory.
#[tactic(auto, unfolding(crate::specs::Tunneling::tunneled_in))]
pub fn tunneled_of(octets: &[u8]) -> Result<Tunneled<'_>, NotTunneled>
    ensures packet { IfOk result (λ t. tunneled_in octets.now ≡ DueOk (t.teid, t.packet.now)) }
    ensures refusal { IfErr result (λ e. tunneled_in octets.now ≡ DueErr e) }
{
    packet_in(message_in(datagram_in(octets)?)?)
}
