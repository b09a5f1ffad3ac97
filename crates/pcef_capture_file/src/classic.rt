//! Capture files in libpcap's savefile format.

ghost use Rattle.std.specs.Prelude.{◌≡◌, ◌<◌, ◌≤◌, ◌⊎◌, IfErr, IfOk, Ok as DueOk, Err as DueErr, drop, length, map};
ghost use Rattle.pcef_capture_file.specs.declared.fault.CaptureFault.TheVariants.{NoMemory};
ghost use Rattle.pcef_capture_file.specs.Captured.{captured, Reads};
ghost use Rattle.pcef_capture_file.specs.Captures.{ReadsClassic};
ghost use Rattle.pcef_capture_file.specs.Classic.{file_header_of, header_behind, stated_in, magic_of, record_of, recorded_len};

use crate::endianness::Endianness;
use crate::fault::CaptureFault;
use crate::link::Link;
use crate::packet::{Capture, Packet, Stated, packet_at_front};
use crate::time::classic_time;
use std::alloc::{AllocError, Global};

/// The length of the header of a file, in octets.
pub(crate) const FILE_HEADER_LEN: usize = 24;

/// The length of the header of a record, in octets.
const RECORD_HEADER_LEN: usize = 16;

/// The most octets of a packet that are read.
const MAX_PACKET: u32 = 262_144;

/// The first four octets of a file whose times are in microseconds.
const MICROSECONDS: u32 = 0xa1b2_c3d4;

/// The first four octets of a file whose times are in nanoseconds.
const NANOSECONDS: u32 = 0xa1b2_3c4d;

/// The unit of the fractions of seconds.
#[derive(Clone, Copy, Debug, PartialEq, Eq)]
pub enum TimeScale {
    Microseconds,
    Nanoseconds,
}

/// What the header of a file says of all its records.
#[derive(Clone, Copy, Debug, PartialEq, Eq)]
pub struct FileHeader {
    /// The order of the numbers in the file.
    pub endianness: Endianness,
    /// The unit of the fractions of seconds.
    pub scale: TimeScale,
    /// The header that each frame begins with.
    pub link: Link,
}

/// The order and the scale that the first four octets state.
#[tactic(auto, unfolding(crate::specs::Classic::magic_of))]
fn magic(octets: &[u8]) -> Option<(Endianness, TimeScale)>
    ensures { result ≡ magic_of octets.now }
{
    if octets.len() < 4 {
        return None;
    }
    let big = Endianness::Big.number_in_4(octets, 0);
    let little = Endianness::Little.number_in_4(octets, 0);
    if big == MICROSECONDS {
        Some((Endianness::Big, TimeScale::Microseconds))
    } else if big == NANOSECONDS {
        Some((Endianness::Big, TimeScale::Nanoseconds))
    } else if little == MICROSECONDS {
        Some((Endianness::Little, TimeScale::Microseconds))
    } else if little == NANOSECONDS {
        Some((Endianness::Little, TimeScale::Nanoseconds))
    } else {
        None
    }
}

/// The header of a file whose first four octets are known.
#[tactic(auto, unfolding(crate::specs::Classic::header_behind, crate::specs::Classic::has_version, crate::specs::Classic::link_number))]
fn header_behind(
    endianness: Endianness,
    scale: TimeScale,
    octets: &[u8],
) -> Result<FileHeader, CaptureFault>
    ensures header { result ≡ header_behind endianness scale octets.now }
    ensures len { IfOk result (λ header. 24 ≤ length octets.now) }
{
    if octets.len() < FILE_HEADER_LEN {
        return Err(CaptureFault::CutHeader);
    }
    let major = endianness.number_in_2(octets, 4);
    let minor = endianness.number_in_2(octets, 6);
    if major != 2 || minor != 4 {
        return Err(CaptureFault::Version);
    }
    match Link::of_number(endianness.number_in_4(octets, 20) & 0xffff) {
        Some(link) => Ok(FileHeader {
            endianness,
            scale,
            link,
        }),
        None => Err(CaptureFault::LinkType),
    }
}

/// The header at the front of a file, which takes 24 octets, or its first fault in this order: `NotACapture`,
/// `CutHeader`, `Version` (2.4 alone is read) or `LinkType`. Only the lower 16 bits of the link type's number count.
/// Takes no memory.
#[tactic(auto, unfolding(crate::specs::Classic::file_header_of))]
pub fn read_file_header(octets: &[u8]) -> Result<FileHeader, CaptureFault>
    ensures header { result ≡ file_header_of octets.now }
    ensures len { IfOk result (λ header. 24 ≤ length octets.now) }
{
    match magic(octets) {
        Some((endianness, scale)) => header_behind(endianness, scale, octets),
        None => Err(CaptureFault::NotACapture),
    }
}

/// How many octets of a packet were recorded, by the header of its record.
#[tactic(auto, unfolding(crate::specs::Classic::recorded_len))]
fn recorded_len(endianness: Endianness, octets: &[u8]) -> u32
    requires { 16 ≤ length octets.now }
    ensures { result ≡ recorded_len endianness octets.now }
{
    endianness.number_in_4(octets, 8)
}

/// The time and the length on the line in the header of a record.
#[tactic(auto, unfolding(crate::specs::Classic::stated_in))]
fn stated_in(header: FileHeader, octets: &[u8]) -> Stated
    requires { 16 ≤ length octets.now }
    ensures { result ≡ stated_in header octets.now }
{
    let seconds = header.endianness.number_in_4(octets, 0);
    let fraction = header.endianness.number_in_4(octets, 4);
    Stated {
        original: header.endianness.number_in_4(octets, 12),
        time: Some(classic_time(header.scale, seconds, fraction)),
    }
}

/// The packet of the record at the front of the octets, and the octets behind the record. An `Err` is `CutRecord` where
/// there are fewer than 16 octets, `TooLong` where the packet has more than 262,144, or `CutPacket` where it goes on
/// beyond the octets. Takes no memory.
#[tactic(auto, unfolding(crate::specs::Classic::record_of))]
pub fn read_record<'a>(
    header: FileHeader,
    octets: &'a [u8],
) -> Result<(Packet<'a>, &'a [u8]), CaptureFault>
    ensures packet { IfOk result (λ found.
        record_of header octets.now ≡ DueOk (captured found.0, found.1.now)) }
    ensures fault { IfErr result (λ fault. record_of header octets.now ≡ DueErr fault) }
    ensures shorter { IfOk result (λ found. length found.1.now < length octets.now) }
{
    if octets.len() < RECORD_HEADER_LEN {
        return Err(CaptureFault::CutRecord);
    }
    let recorded = recorded_len(header.endianness, octets);
    if recorded > MAX_PACKET {
        return Err(CaptureFault::TooLong);
    }
    let behind = octets.split_at(RECORD_HEADER_LEN).1;
    let stated = stated_in(header, octets);
    packet_at_front(header.link, header.endianness, recorded, stated, behind)
}

/// The packets of all records.
fn records<'a>(
    alloc: Global,
    header: FileHeader,
    octets: &'a [u8],
) -> Result<Capture<'a>, AllocError>
    ensures { IfOk result (λ capture. Reads (record_of header) octets.now
        (map captured capture.packets.items) capture.fault) }
{
    let mut packets = Vec::new(alloc);
    let mut rest = octets;
    while !rest.is_empty() {
        match read_record(header, rest) {
            Ok((packet, others)) => {
                packets.push(packet)?;
                rest = others;
            }
            Err(fault) => {
                return Ok(Capture {
                    packets,
                    fault: Some(fault),
                });
            }
        }
    }
    Ok(Capture {
        packets,
        fault: None,
    })
}

/// The packets of all records behind the header of a file.
fn behind_header<'a>(
    alloc: Global,
    header: FileHeader,
    octets: &'a [u8],
) -> Result<Capture<'a>, CaptureFault>
    requires { 24 ≤ length octets.now }
    ensures packets { IfOk result (λ capture. Reads (record_of header) (drop 24 octets.now)
        (map captured capture.packets.items) capture.fault) }
    ensures fault { IfErr result (λ fault. fault ≡ NoMemory) }
{
    match records(alloc, header, octets.split_at(FILE_HEADER_LEN).1) {
        Ok(capture) => Ok(capture),
        Err(_) => Err(CaptureFault::NoMemory),
    }
}

/// The packets of a capture file: those of its records one after another, up to the end of the file or to the first
/// record at fault, which is returned beside them. The packets borrow the file's octets; the list of them takes memory.
/// An `Err` is the fault of the file's header, or `NoMemory`.
pub fn read_classic<'a>(alloc: Global, octets: &'a [u8]) -> Result<Capture<'a>, CaptureFault>
    ensures packets { IfOk result (λ capture.
        ReadsClassic octets.now (map captured capture.packets.items) capture.fault) }
    ensures fault { IfErr result (λ fault.
        (fault ≡ NoMemory) ⊎ (file_header_of octets.now ≡ DueErr fault)) }
{
    behind_header(alloc, read_file_header(octets)?, octets)
}
