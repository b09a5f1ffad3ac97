//! Why octets are no Diameter message. The numbers are those of the Result-Code (RFC 6733, clause 7.1).

use std::error::Error;
use std::fmt::{self, Display, Formatter, Write};

/// Why the octets at a place begin with no AVP.
#[derive(Clone, Copy, Debug, PartialEq, Eq)]
pub enum AvpFault {
    /// They end within the AVP's header: DIAMETER_INVALID_AVP_LENGTH, 5014.
    Cut,
    /// A reserved bit is set in the AVP Flags: DIAMETER_INVALID_AVP_BITS, 3009.
    Bits,
    /// The AVP Length is below that of the header, or the octets end before the AVP with its padding does:
    /// DIAMETER_INVALID_AVP_LENGTH, 5014.
    Length,
}

impl Display for AvpFault {
    fn fmt<W: Write>(&self, f: &mut Formatter<W>) -> fmt::Result {
        f.write_str(match self {
            AvpFault::Cut => "the octets end within the header of an AVP",
            AvpFault::Bits => "a reserved bit of an AVP is set",
            AvpFault::Length => "the length of an AVP is wrong",
        })
    }
}

impl Error for AvpFault {}

/// Why a message is refused as a whole. Of several faults the first in this order is answered.
#[derive(Clone, Copy, Debug, PartialEq, Eq)]
pub enum MessageFault {
    /// The version isn't 1: DIAMETER_UNSUPPORTED_VERSION, 5011.
    Version,
    /// The Message Length is below 20, no multiple of four, or not the number of octets at hand:
    /// DIAMETER_INVALID_MESSAGE_LENGTH, 5015.
    Length,
    /// A request has the E bit, which only answers have: DIAMETER_INVALID_HDR_BITS, 3008.
    Bits,
}

impl Display for MessageFault {
    fn fmt<W: Write>(&self, f: &mut Formatter<W>) -> fmt::Result {
        f.write_str(match self {
            MessageFault::Version => "the version of the message isn't 1",
            MessageFault::Length => "the length of the message is wrong",
            MessageFault::Bits => "a request has the bit of an error",
        })
    }
}

impl Error for MessageFault {}
