//! Why the front of a packet has no header.

use pcef_packet::PacketFault;
use std::error::Error;
use std::fmt::{self, Display, Formatter, Write};

/// Why the front of a packet has no header.
#[derive(Clone, Copy, Debug, PartialEq, Eq)]
pub enum FrontFault {
    /// The octets beyond the front decide what is read.
    TooFew,
    /// Whatever the octets beyond the front are, the packet has this fault.
    Packet(PacketFault),
}

impl Display for FrontFault {
    fn fmt<W: Write>(&self, f: &mut Formatter<W>) -> fmt::Result {
        match self {
            FrontFault::TooFew => f.write_str("too few octets of the packet are at hand"),
            FrontFault::Packet(fault) => Display::fmt(fault, f),
        }
    }
}

impl Error for FrontFault {}
