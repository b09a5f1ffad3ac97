//! A filter and its parts.

ghost use Rattle.std.specs.Prelude.{◌≡◌};

use arrayvec::ArrayVec;
use pcef_packet::Addr;
use std::error::Error;
use std::fmt::{self, Display, Formatter, Write};

/// The direction word of a filter text.
#[derive(Clone, Copy, Debug, PartialEq, Eq)]
pub enum Direction {
    /// `in`: the text is written for uplink packets.
    In,
    /// `out`: the text is written for downlink packets.
    Out,
}

/// The flow word beside a filter text: which packets an `out` text applies to (TS 29.212, clause 5.3.65,
/// Flow-Direction).
#[derive(Clone, Copy, Debug, PartialEq, Eq)]
pub enum Flow {
    /// Downlink packets.
    Downlink,
    /// Uplink packets, with source and target changed.
    Uplink,
    /// Both.
    Bidirectional,
}

/// The addresses of one side.
#[derive(Clone, Copy, Debug, PartialEq, Eq)]
pub enum Place {
    /// Every address.
    Any,
    /// The addresses of the session: its own, or in version 6 those of its /64.
    Assigned,
    /// The addresses of a network.
    Net(Net),
}

/// The addresses that agree with one in its first bits.
#[derive(Clone, Copy, Debug, PartialEq, Eq)]
pub struct Net {
    /// An address of the network. Bits below the mask don't count.
    pub addr: Addr,
    /// How many bits count: 0 to 32 in version 4, 0 to 128 in version 6.
    pub bits: u8,
}

/// The ports from the first to the last, both included.
#[derive(Clone, Copy, Debug, Default, PartialEq, Eq)]
pub struct PortRange {
    /// The lowest port.
    pub first: u16,
    /// The highest port.
    pub last: u16,
}

/// One side of a filter.
#[derive(Debug, PartialEq, Eq, Drop)]
pub struct Endpoint {
    /// The addresses.
    pub place: Place,
    /// The ports. With none, every port fits, and so does a header without ports.
    pub ports: ArrayVec<PortRange, 8>,
}

/// A filter, by its text and its flow word.
#[derive(Debug, PartialEq, Eq, Drop)]
pub struct Filter {
    /// The direction word.
    pub direction: Direction,
    /// The flow word, where there is one.
    pub flow: Option<Flow>,
    /// The protocol, or none for every protocol.
    pub proto: Option<u8>,
    /// The side before `to`.
    pub source: Endpoint,
    /// The side after `to`.
    pub target: Endpoint,
}

/// Where a filter text is wrong: the place of the first token that doesn't fit, or of a missing one.
#[derive(Clone, Copy, Debug, PartialEq, Eq)]
pub enum FilterFault {
    /// The first token isn't `permit`.
    Action,
    /// The direction is wrong.
    Direction,
    /// The protocol is wrong.
    Proto,
    /// There is no `from` where it must stand.
    From,
    /// The source is wrong.
    Source,
    /// What follows the source begins with a digit, and is no port list.
    SourcePorts,
    /// There is no `to` where it must stand.
    To,
    /// The target is wrong.
    Target,
    /// What follows the target begins with a digit, and is no port list.
    TargetPorts,
    /// Something else follows the target.
    Rest,
    /// The text is right, but may have no flow word.
    Flow,
}

impl FilterFault {
    /// What the fault means, in a few words.
    fn message(self) -> &'static str {
        match self {
            FilterFault::Action => "the action isn't `permit`",
            FilterFault::Direction => "the direction is wrong",
            FilterFault::Proto => "the protocol is wrong",
            FilterFault::From => "`from` is missing",
            FilterFault::Source => "the source is wrong",
            FilterFault::SourcePorts => "the source's ports are wrong",
            FilterFault::To => "`to` is missing",
            FilterFault::Target => "the target is wrong",
            FilterFault::TargetPorts => "the target's ports are wrong",
            FilterFault::Rest => "there is more after the target",
            FilterFault::Flow => "the text may have no flow word",
        }
    }
}

impl Display for FilterFault {
    fn fmt<W: Write>(&self, f: &mut Formatter<W>) -> fmt::Result {
        f.write_str(self.message())
    }
}

impl Error for FilterFault {}

/// The same port ranges, in memory of their own.
fn copy_ports(ports: &ArrayVec<PortRange, 8>) -> ArrayVec<PortRange, 8>
    ensures { result ≡ ports.now }
{
    let mut copy = ArrayVec::new();
    let Ok(()) = copy.try_extend_from_slice(ports.as_slice()) else {
        unreachable!()
    };
    copy
}

impl Endpoint {
    /// A copy. Takes no memory.
    pub fn copy(&self) -> Endpoint
        ensures { result ≡ self.now }
    {
        Endpoint {
            place: self.place,
            ports: copy_ports(&self.ports),
        }
    }
}

impl Filter {
    /// A copy. Takes no memory.
    pub fn copy(&self) -> Filter
        ensures { result ≡ self.now }
    {
        Filter {
            direction: self.direction,
            flow: self.flow,
            proto: self.proto,
            source: self.source.copy(),
            target: self.target.copy(),
        }
    }
}
