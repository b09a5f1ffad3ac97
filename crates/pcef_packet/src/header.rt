//! What is read of a packet, and why a packet is refused.

ghost use Rattle.std.specs.Prelude.{◌≡◌};
ghost use Rattle.pcef_packet.specs.Addresses.{agrees_in, is_assigned, same_front, ue_side, width_of};

use std::error::Error;
use std::fmt::{self, Display, Formatter, Write};

/// The direction of a packet, as the gateway was given it.
#[derive(Clone, Copy, Debug, PartialEq, Eq)]
pub enum Dir {
    /// From the user equipment to the network.
    Up,
    /// From the network to the user equipment.
    Down,
}

/// An IP address.
#[derive(Clone, Copy, Debug, PartialEq, Eq)]
pub enum Addr {
    /// A version 4 address, its first octet in the highest eight bits.
    V4(u32),
    /// A version 6 address, its first octet in the highest eight bits.
    V6(u128),
}

/// The ports of a TCP, UDP or SCTP packet.
#[derive(Clone, Copy, Debug, PartialEq, Eq)]
pub struct Ports {
    /// The source port.
    pub src: u16,
    /// The destination port.
    pub dst: u16,
}

/// What rules, verdicts and volumes look at of a packet. The widest fields stand first, so that a header
/// takes 80 octets.
#[derive(Clone, Copy, Debug, PartialEq, Eq)]
pub struct Header {
    /// The source address.
    pub src: Addr,
    /// The destination address.
    pub dst: Addr,
    /// The volume of the packet in octets: the total length of version 4, the payload length of version
    /// 6 and the 40 octets in front of it.
    pub octets: u32,
    /// The ports, where the packet carries them.
    pub ports: Option<Ports>,
    /// The direction of the packet.
    pub dir: Dir,
    /// The protocol number: that of version 4, and that which the last header of version 6 names.
    pub proto: u8,
    /// The differentiated services code point, 0 to 63 (RFC 2474, clause 3).
    pub dscp: u8,
}

/// Why octets are no packet. Of several faults the first is answered: in this order for version 4, while for
/// version 6 `BadTotalLength` comes before `BadHeaderLength`.
#[derive(Clone, Copy, Debug, PartialEq, Eq)]
pub enum PacketFault {
    /// There are no octets.
    Empty,
    /// The version is neither 4 nor 6.
    Version,
    /// There are fewer than 20 octets of version 4, or fewer than 40 of version 6.
    ShortHeader,
    /// The header length of version 4 is below 20 octets or beyond the octets given, or an extension
    /// header of version 6 ends beyond the volume.
    BadHeaderLength,
    /// The total length of version 4 is below the header length or beyond the octets given, or the
    /// volume of version 6 is beyond the octets given.
    BadTotalLength,
}

impl PacketFault {
    /// What the fault means, in a few words.
    fn message(self) -> &'static str {
        match self {
            PacketFault::Empty => "the packet has no octets",
            PacketFault::Version => "the version is neither 4 nor 6",
            PacketFault::ShortHeader => "the packet is shorter than a header",
            PacketFault::BadHeaderLength => "the header length is wrong",
            PacketFault::BadTotalLength => "the total length is wrong",
        }
    }
}

impl Display for PacketFault {
    fn fmt<W: Write>(&self, f: &mut Formatter<W>) -> fmt::Result {
        f.write_str(self.message())
    }
}

impl Error for PacketFault {}

/// Whether two numbers of 128 bits agree in their first bits.
fn is_same_wide_front(bits: u8, a: u128, b: u128) -> bool
    ensures { result ≡ same_front 128 bits a b }
{
    let rest = 128u8.saturating_sub(bits);
    rest == 128 || (a ^ b) >> rest == 0
}

/// Whether two numbers of 32 bits agree in their first bits.
fn is_same_front(bits: u8, a: u32, b: u32) -> bool
    ensures { result ≡ same_front 32 bits a b }
{
    u64::from(a ^ b) >> 32u8.saturating_sub(bits) == 0
}

impl Addr {
    /// How many bits an address has: 32 or 128.
    pub fn width(self) -> u8
        ensures { result ≡ width_of self }
    {
        match self {
            Addr::V4(_) => 32,
            Addr::V6(_) => 128,
        }
    }

    /// Whether two addresses are of one version and agree in their first bits. With 0 bits, all
    /// addresses of one version do.
    pub fn agrees_in(self, bits: u8, other: Addr) -> bool
        ensures { result ≡ agrees_in bits self other }
    {
        match (self, other) {
            (Addr::V4(a), Addr::V4(b)) => is_same_front(bits, a, b),
            (Addr::V6(a), Addr::V6(b)) => is_same_wide_front(bits, a, b),
            _ => false,
        }
    }

    /// Whether an address is one of the session's, which has this address: a session of version 4 has
    /// this one alone, and one of version 6 all that agree with it in the first 64 bits.
    pub fn is_assigned(self, ue: Addr) -> bool
        ensures { result ≡ is_assigned self ue }
    {
        match (self, ue) {
            (Addr::V4(a), Addr::V4(b)) => a == b,
            (Addr::V6(a), Addr::V6(b)) => a >> 64u8 == b >> 64u8,
            _ => false,
        }
    }
}

impl Header {
    /// The address on the user equipment's side: the source of an uplink packet, the destination of a
    /// downlink packet.
    pub fn ue_side(&self) -> Addr
        ensures { result ≡ ue_side self.now }
    {
        match self.dir {
            Dir::Up => self.src,
            Dir::Down => self.dst,
        }
    }
}
