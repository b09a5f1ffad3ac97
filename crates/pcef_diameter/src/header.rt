//! The header of a message.

ghost use Rattle.std.specs.Prelude.{◌≡◌, ◌<◌, ◌≤◌, ◌^◌, IfSome, length};
ghost use Rattle.pcef_diameter.specs.Headers.{header_fault, header_of};

use crate::fault::MessageFault;
use crate::number::word_at;

/// The length of a message's header, in octets.
pub const HEADER_LEN: usize = 20;

/// The header of a message (RFC 6733, clause 3).
#[derive(Clone, Copy, Debug, PartialEq, Eq)]
pub struct MessageHeader {
    /// The version of Diameter, which is 1.
    pub version: u8,
    /// The Message Length: how many octets the message has, this header included, up to 16,777,215.
    pub len: u32,
    /// The R bit: it is a request.
    pub request: bool,
    /// The P bit: it may be proxied, relayed or redirected.
    pub proxiable: bool,
    /// The E bit: it is an answer that reports a protocol error.
    pub error: bool,
    /// The T bit: the request may have been sent before.
    pub retransmitted: bool,
    /// The Command Code, up to 16,777,215.
    pub command: u32,
    /// The Application-ID.
    pub application: u32,
    /// The Hop-by-Hop Identifier, by which an answer belongs to its request on one connection.
    pub hop_by_hop: u32,
    /// The End-to-End Identifier, by which a request that comes twice is told.
    pub end_to_end: u32,
}

/// The header at the front of a message; `None` where there are fewer than 20 octets. It may be at fault, which `fault`
/// tells. The four reserved bits of the Command Flags are ignored (RFC 6733, clause 3). Takes no memory.
#[tactic(auto, unfolding(crate::specs::Headers::header_of))]
pub fn read_message_header(octets: &[u8]) -> Option<MessageHeader>
    ensures header { result ≡ header_of octets.now }
    ensures len { IfSome result (λ header. 20 ≤ length octets.now) }
    ensures command { IfSome result (λ header. header.command < 2 ^ 24) }
{
    if octets.len() < HEADER_LEN {
        return None;
    }
    let first = word_at(octets, 0);
    let second = word_at(octets, 4);
    let flags = second >> 24;
    Some(MessageHeader {
        version: (first >> 24) as u8,
        len: first & 0xff_ffff,
        request: flags >> 7 == 1,
        proxiable: (flags >> 6) & 1 == 1,
        error: (flags >> 5) & 1 == 1,
        retransmitted: (flags >> 4) & 1 == 1,
        command: second & 0xff_ffff,
        application: word_at(octets, 8),
        hop_by_hop: word_at(octets, 12),
        end_to_end: word_at(octets, 16),
    })
}

impl MessageHeader {
    /// What is wrong with the header of a message of `count` octets, the first in this order: `Version`, `Length`,
    /// `Bits`; `None` where nothing is. Takes no memory.
    #[tactic(auto, unfolding(crate::specs::Headers::header_fault))]
    pub fn fault(&self, count: usize) -> Option<MessageFault>
        ensures { result ≡ header_fault self.now count }
    {
        if self.version != 1 {
            return Some(MessageFault::Version);
        }
        let len = self.len as usize;
        if len < HEADER_LEN || len % 4 != 0 || len != count {
            return Some(MessageFault::Length);
        }
        if self.request && self.error {
            return Some(MessageFault::Bits);
        }
        None
    }
}
