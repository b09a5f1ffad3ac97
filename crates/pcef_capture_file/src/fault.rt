//! Why a capture file is refused, or read no further.

ghost use Rattle.std.specs.Prelude.{◌≡◌};
ghost use Rattle.pcef_capture_file.specs.Faults.{capture_fault_number};

use std::error::Error;
use std::fmt::{self, Display, Formatter, Write};

/// Why a capture file is refused, or read no further: the first fault in the file.
#[derive(Clone, Copy, Debug, PartialEq, Eq)]
pub enum CaptureFault {
    /// The first four octets are those of no format that is known.
    NotACapture,
    /// The file ends within its header.
    CutHeader,
    /// The version of the format isn't one that is read.
    Version,
    /// The link type is unknown.
    LinkType,
    /// The file ends within the header of a record.
    CutRecord,
    /// The file ends within the packet of a record, or a packet goes on beyond its block.
    CutPacket,
    /// The file ends within a block.
    CutBlock,
    /// The length of a block is no multiple of four, leaves no room for what its type has, or isn't the
    /// same at both ends.
    BlockLength,
    /// The byte-order magic of a section is unknown.
    ByteOrder,
    /// A packet names an interface that its section didn't describe before.
    UnknownInterface,
    /// A record has a packet of more than 262,144 octets, or a block has more than 16,777,216.
    TooLong,
    /// A section describes more than 65,536 interfaces.
    TooManyInterfaces,
    /// There is no memory left. It may be returned in place of any other.
    NoMemory,
}

impl CaptureFault {
    /// What the fault means, in a few words.
    fn message(self) -> &'static str {
        match self {
            CaptureFault::NotACapture => "the file is no capture",
            CaptureFault::CutHeader => "the file ends within its header",
            CaptureFault::Version => "the version of the format is unknown",
            CaptureFault::LinkType => "the link type is unknown",
            CaptureFault::CutRecord => "the file ends within the header of a record",
            CaptureFault::CutPacket => "the file or the block ends within a packet",
            CaptureFault::CutBlock => "the file ends within a block",
            CaptureFault::BlockLength => "the length of a block is wrong",
            CaptureFault::ByteOrder => "the order of the numbers of a section is unknown",
            CaptureFault::UnknownInterface => "the interface of a packet isn't described",
            CaptureFault::TooLong => "a record or a block is longer than is read",
            CaptureFault::TooManyInterfaces => "a section describes more than 65536 interfaces",
            CaptureFault::NoMemory => "there is no memory left",
        }
    }
}

impl Display for CaptureFault {
    fn fmt<W: Write>(&self, f: &mut Formatter<W>) -> fmt::Result {
        f.write_str(self.message())
    }
}

impl Error for CaptureFault {}

impl CaptureFault {
    /// The number by which programs report it, from 1 on.
    pub fn number(self) -> u8
        ensures { result ≡ capture_fault_number self }
    {
        match self {
            CaptureFault::NotACapture => 1,
            CaptureFault::CutHeader => 2,
            CaptureFault::Version => 3,
            CaptureFault::LinkType => 4,
            CaptureFault::CutRecord => 5,
            CaptureFault::CutPacket => 6,
            CaptureFault::CutBlock => 7,
            CaptureFault::BlockLength => 8,
            CaptureFault::ByteOrder => 9,
            CaptureFault::UnknownInterface => 10,
            CaptureFault::TooLong => 11,
            CaptureFault::TooManyInterfaces => 12,
            CaptureFault::NoMemory => 13,
        }
    }
}
