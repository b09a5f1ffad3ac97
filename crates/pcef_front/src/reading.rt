//! The reader of fronts.

ghost use Rattle.std.specs.Prelude.{◌≡◌, ◌≢◌, ◌<◌, ◌≤◌, Err, drop, length, take};
ghost use Rattle.pcef_packet.specs.ExtensionHeaders.{Carried, IsCarried};
ghost use Rattle.pcef_packet.specs.HeaderOf.{first_kind, header_of, version};
ghost use Rattle.pcef_front.specs.Fronts.{IsSettledBy, as_front};
ghost use Rattle.pcef_front.specs.declared.fault.FrontFault.TheVariants.{TooFew};

use crate::cutting::first;
use crate::fault::FrontFault;
use crate::ipv4::read_v4;
use crate::ipv6::read_v6;
use pcef_packet::{Dir, Header, PacketFault, read_header};

/// The version, in the upper half of the first octet.
fn version_of(front: &[u8]) -> u8
    requires { 0 < length front.now }
    ensures { result ≡ version front.now }
{
    front[0] >> 4
}

/// The header of a packet that is whole at hand.
fn read_whole(dir: Dir, octets: &[u8]) -> Result<Header, FrontFault>
    ensures { result ≡ as_front (header_of dir octets.now) }
{
    match read_header(dir, octets) {
        Ok(header) => Ok(header),
        Err(fault) => Err(FrontFault::Packet(fault)),
    }
}

/// The header of a packet of `whole` octets that begins with those of `front`, or its first fault: what `read_header`
/// of `pcef_packet` returns for every such packet. `TooFew` where it returns different results for two of them. The
/// octets of `front` beyond `whole` are ignored. Takes no memory.
pub fn read_front(dir: Dir, front: &[u8], whole: usize) -> Result<Header, FrontFault>
    ensures reading { IsSettledBy (header_of dir) (take whole front.now) whole result }
    // A packet that is whole at hand is read as `read_header` reads it.
    ensures at_hand { whole ≤ length front.now → result ≡ as_front (header_of dir (take whole front.now)) }
    // Of version 4, 64 octets are enough; of version 6, all headers and four octets behind them.
    ensures enough_v4 { version front.now ≡ 4 → 64 ≤ length front.now → result ≢ Err TooFew }
    ensures enough_v6 { (carried : Carried) → version front.now ≡ 6 → 40 ≤ length front.now
        → IsCarried (first_kind front.now) (drop 40 front.now) carried → 4 ≤ length carried.payload → result ≢ Err TooFew }
{
    if whole <= front.len() {
        return read_whole(dir, first(front, whole));
    }
    if front.is_empty() {
        return Err(FrontFault::TooFew);
    }
    match version_of(front) {
        4 => read_v4(dir, front, whole),
        6 => read_v6(dir, front, whole),
        _ => Err(FrontFault::Packet(PacketFault::Version)),
    }
}
