//! The packet that a GTP-U message carries.

ghost use Rattle.std.specs.Prelude.{◌≡◌, ◌≤◌, IfErr, IfOk, Ok as DueOk, Err as DueErr, length};
ghost use Rattle.pcef_gtp.specs.Messages.{body_in, packet_behind, packet_in};

use crate::extensions::behind_extensions;
use crate::refusal::NotTunneled;
use crate::tunneled::Tunneled;
use byteorder::{BigEndian, ByteOrder};

/// The length of the header that each message has, in octets.
const HEADER_LEN: usize = 8;

/// The length of what follows it with one of the flags E, S and PN, in octets.
const OPTIONAL_LEN: usize = 4;

/// The version 1 and the protocol type of GTP, as the upper half of an octet.
const GTP_VERSION_1: u8 = 3;

/// The flag for extension headers.
const EXTENSION_FLAG: u8 = 4;

/// The type of a message that carries a packet.
const GPDU: u8 = 255;

/// What stands behind the header that each message has, up to the message's length.
#[tactic(auto, unfolding(crate::specs::Messages::body_in))]
fn body_in(message: &[u8]) -> Result<&[u8], NotTunneled>
    ensures body { IfOk result (λ b. body_in message.now ≡ DueOk b.now) }
    ensures long { IfOk result (λ b. 8 ≤ length message.now) }
    ensures refusal { IfErr result (λ e. body_in message.now ≡ DueErr e) }
{
    if message.len() < HEADER_LEN {
        return Err(NotTunneled::ShortHeader);
    }
    if message[0] / 16 != GTP_VERSION_1 {
        return Err(NotTunneled::Version);
    }
    if message[1] != GPDU {
        return Err(NotTunneled::NotGpdu);
    }
    let end = HEADER_LEN + usize::from(BigEndian::read_u16(&message[2..]));
    if message.len() < end {
        return Err(NotTunneled::Length);
    }
    Ok(&message[HEADER_LEN..end])
}

/// The packet in what stands behind the header, by the flags.
#[tactic(auto, unfolding(crate::specs::Messages::packet_behind))]
fn packet_behind(flags: u8, body: &[u8]) -> Result<&[u8], NotTunneled>
    ensures packet { IfOk result (λ p. packet_behind flags body.now ≡ DueOk p.now) }
    ensures refusal { IfErr result (λ e. packet_behind flags body.now ≡ DueErr e) }
{
    if flags == 0 {
        return Ok(body);
    }
    if body.len() < OPTIONAL_LEN {
        return Err(NotTunneled::ShortHeader);
    }
    let (optional, behind) = body.split_at(OPTIONAL_LEN);
    if flags < EXTENSION_FLAG {
        Ok(behind)
    } else {
        behind_extensions(optional[3], behind)
    }
}

/// The packet in a message, and its tunnel.
#[tactic(auto, unfolding(crate::specs::Messages::packet_in))]
pub(crate) fn packet_in(message: &[u8]) -> Result<Tunneled<'_>, NotTunneled>
    ensures packet { IfOk result (λ t. packet_in message.now ≡ DueOk (t.teid, t.packet.now)) }
    ensures refusal { IfErr result (λ e. packet_in message.now ≡ DueErr e) }
{
    let body = body_in(message)?;
    let packet = packet_behind(message[0] % 8, body)?;
    Ok(Tunneled {
        teid: BigEndian::read_u32(&message[4..]),
        packet,
    })
}
