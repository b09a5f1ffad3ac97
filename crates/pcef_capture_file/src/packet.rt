//! The packets that are read of a capture file.

ghost use Rattle.std.specs.Prelude.{◌≡◌, ◌≤◌, IfErr, IfOk, Ok as DueOk, Err as DueErr, length};
ghost use Rattle.pcef_capture_file.specs.Captured.{captured, packet_front};

use crate::endianness::Endianness;
use crate::fault::CaptureFault;
use crate::link::Link;
use crate::time::Time;

/// A frame as it was recorded.
#[derive(Clone, Copy, Debug, PartialEq, Eq)]
pub struct Packet<'a> {
    /// The header that the frame begins with.
    pub link: Link,
    /// The order of the machine that recorded.
    pub endianness: Endianness,
    /// How many octets the frame had on the line.
    pub original: u32,
    /// When it was recorded. None in a simple packet block, which doesn't say so; where the time is before 1970 or beyond
    /// 2 ^ 64 seconds after it; and where its unit is so small that a second has 2 ^ 64 of them or more.
    pub time: Option<Time>,
    /// The octets that were recorded: fewer, where the recording was limited.
    pub octets: &'a [u8],
}

/// What stands before the octets of a frame, beside how many they are.
#[derive(Clone, Copy)]
pub(crate) struct Stated {
    /// How many octets the frame had on the line.
    pub original: u32,
    /// When it was recorded.
    pub time: Option<Time>,
}

/// The packets of a capture file, in order, up to its end or its first fault.
#[derive(Drop)]
pub struct Capture<'a> {
    /// The packets before the end or the fault.
    pub packets: Vec<Packet<'a>>,
    /// Why the rest can't be read, or none where there is no rest.
    pub fault: Option<CaptureFault>,
}

/// The packet of the recorded octets at the front, and the octets behind it; `CutPacket` where there are fewer than it
/// has.
#[tactic(auto, unfolding(crate::specs::Captured::packet_front))]
pub(crate) fn packet_at_front<'a>(
    link: Link,
    endianness: Endianness,
    recorded: u32,
    stated: Stated,
    octets: &'a [u8],
) -> Result<(Packet<'a>, &'a [u8]), CaptureFault>
    ensures packet { IfOk result (λ found.
        packet_front link endianness recorded stated octets.now
        ≡ DueOk (captured found.0, found.1.now)) }
    ensures fault { IfErr result (λ fault.
        packet_front link endianness recorded stated octets.now ≡ DueErr fault) }
    ensures within { IfOk result (λ found. length found.1.now ≤ length octets.now) }
{
    let len = recorded as usize;
    if octets.len() < len {
        return Err(CaptureFault::CutPacket);
    }
    let (front, behind) = octets.split_at(len);
    let packet = Packet {
        link,
        endianness,
        original: stated.original,
        time: stated.time,
        octets: front,
    };
    Ok((packet, behind))
}
