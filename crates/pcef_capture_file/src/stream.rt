//! Captures whose octets come in parts.

ghost use Rattle.std.specs.Prelude.{◌≡◌, ◌<◌, ◌⊎◌, ◌≤◌, ◌++◌, IfErr, IfOk, List, ℕ, length, option_map};
ghost use Rattle.pcef_capture_file.specs.Captured.{captured};
ghost use Rattle.pcef_capture_file.specs.Places.{in_blocks, in_records};
ghost use Rattle.pcef_capture_file.specs.Sections.{standing};
ghost use Rattle.pcef_capture_file.specs.Pauses.{block_stop, content_stop, record_stop};
ghost use Rattle.pcef_capture_file.specs.Streams.{CaptureGoesOn, IsFileRefused, OpensCapture, StandsBehind, Stops};

use crate::blocks::{begins_section, read_block};
use crate::classic::{FILE_HEADER_LEN, FileHeader, read_file_header, read_record};
use crate::endianness::Endianness;
use crate::fault::CaptureFault;
use crate::packet::Packet;
use crate::pcapng::take_block;
use crate::section::Section;
use crate::stop::Stop;
use std::alloc::Global;
use std::marker::Model;

/// The format of a capture, and what is known of it so far.
#[derive(Drop)]
enum Format {
    /// The header of a classic file.
    Classic(FileHeader),
    /// The section of a pcapng file in which the next block stands.
    PcapNg(Section),
}

/// Reads a capture whose octets come in parts, in either format. The caller keeps the octets that weren't read yet: at
/// most 16,777,216 when the reader waits for more.
#[derive(Drop)]
pub struct CaptureStream {
    format: Format,
}

impl Model for CaptureStream {
    ghost use Rattle.pcef_capture_file.specs.Places.{Place};

    ghost Value = { Place };

    ghost use Rattle.pcef_capture_file.specs.Formats.{first_place};

    ghost view = { λ s. first_place s.format };
}

/// Why reading stops at the fault of a record, where more octets may follow.
fn record_stop(fault: CaptureFault) -> Stop
    ensures { result ≡ record_stop fault }
{
    match fault {
        CaptureFault::TooLong => Stop::Fault(CaptureFault::TooLong),
        cut => Stop::Waits(Some(cut)),
    }
}

/// Why reading stops at the fault of a block, where more octets may follow.
fn block_stop(fault: CaptureFault) -> Stop
    ensures { result ≡ block_stop fault }
{
    match fault {
        CaptureFault::CutBlock => Stop::Waits(Some(CaptureFault::CutBlock)),
        other => Stop::Fault(other),
    }
}

/// Why reading stops at the fault of a whole block, or when out of memory.
fn content_stop(fault: CaptureFault) -> Stop
    ensures { result ≡ content_stop fault }
{
    match fault {
        CaptureFault::NoMemory => Stop::NoMemory,
        other => Stop::Fault(other),
    }
}

/// The packet of the record at the front, and the octets behind the record.
fn next_record<'a>(header: FileHeader, octets: &'a [u8]) -> Result<(Packet<'a>, &'a [u8]), Stop>
    ensures goes_on { IfOk result (λ found. CaptureGoesOn (in_records header) octets.now
        (Some (captured found.0)) (in_records header) found.1.now) }
    ensures shorter { IfOk result (λ found. length found.1.now < length octets.now) }
    ensures behind { IfOk result (λ found. StandsBehind octets.now found.1.now) }
    ensures stops { IfErr result (λ stop.
        Stops (in_records header) octets.now stop (in_records header)) }
{
    if octets.is_empty() {
        return Err(Stop::Waits(None));
    }
    match read_record(header, octets) {
        Ok(found) => Ok(found),
        Err(fault) => Err(record_stop(fault)),
    }
}

/// The packet of the block at the front, if it has one, and the octets behind the block.
fn next_block<'a>(
    section: &mut Section,
    octets: &'a [u8],
) -> Result<(Option<Packet<'a>>, &'a [u8]), Stop>
    ensures goes_on { IfOk result (λ found. CaptureGoesOn (in_blocks (standing section.old)) octets.now
        (option_map captured found.0) (in_blocks (standing section.new)) found.1.now) }
    ensures shorter { IfOk result (λ found. length found.1.now < length octets.now) }
    ensures behind { IfOk result (λ found. StandsBehind octets.now found.1.now) }
    ensures stops { IfErr result (λ stop. Stops (in_blocks (standing section.old)) octets.now stop
        (in_blocks (standing section.new))) }
{
    if octets.is_empty() {
        return Err(Stop::Waits(None));
    }
    let (block, rest) = match read_block(section.endianness, octets) {
        Ok(found) => found,
        Err(fault) => return Err(block_stop(fault)),
    };
    match take_block(section, &block) {
        Ok(packet) => Ok((packet, rest)),
        Err(fault) => Err(content_stop(fault)),
    }
}

impl CaptureStream {
    /// Begins to read a capture by its first octets, and returns the octets behind its front. Its format is pcapng
    /// where it begins with a section header, else the classic one. An `Err` is the fault of a classic file's header.
    /// The caller passes 24 octets or more, or all that there are: with fewer, more octets may mend the fault. Takes no
    /// memory.
    pub fn open<'a>(
        alloc: Global,
        octets: &'a [u8],
    ) -> Result<(CaptureStream, &'a [u8]), CaptureFault>
        ensures opens { IfOk result (λ found. OpensCapture octets.now found.0 found.1.now) }
        ensures behind { IfOk result (λ found. StandsBehind octets.now found.1.now) }
        ensures refused { IfErr result (λ fault. IsFileRefused octets.now fault) }
        ensures lasting { IfErr result (λ fault. (more : List ℕ) → 24 ≤ length octets.now
            → IsFileRefused (octets.now ++ more) fault) }
    {
        if begins_section(octets) {
            let format = Format::PcapNg(Section {
                endianness: Endianness::Big,
                interfaces: Vec::new(alloc),
            });
            return Ok((CaptureStream { format }, octets));
        }
        match read_file_header(octets) {
            Ok(header) => {
                let format = Format::Classic(header);
                Ok((CaptureStream { format }, octets.split_at(FILE_HEADER_LEN).1))
            }
            Err(fault) => Err(fault),
        }
    }

    /// Reads the record or the block at the front of the octets at hand. Returns its packet, if it has one, and the
    /// octets behind it, or why nothing was read. Takes memory for the interfaces of a pcapng file.
    pub fn step<'a>(&mut self, octets: &'a [u8]) -> Result<(Option<Packet<'a>>, &'a [u8]), Stop>
        ensures goes_on { IfOk result (λ found.
            CaptureGoesOn self.old octets.now (option_map captured found.0) self.new found.1.now) }
        ensures shorter { IfOk result (λ found. length found.1.now < length octets.now) }
        ensures behind { IfOk result (λ found. StandsBehind octets.now found.1.now) }
        ensures stops { IfErr result (λ stop. Stops self.old octets.now stop self.new) }
    {
        match &mut self.format {
            Format::Classic(header) => {
                let (packet, rest) = next_record(*header, octets)?;
                Ok((Some(packet), rest))
            }
            Format::PcapNg(section) => next_block(section, octets),
        }
    }
}
