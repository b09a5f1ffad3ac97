//! Capture files in the format pcapng.

ghost use Rattle.std.specs.Prelude.{◌≡◌, ◌≢◌, ◌<◌, ◌⊎◌, ◌++◌, ◌∷◌, [], IfErr, IfOk, IsTrue, OnOk, Ok as DueOk, Err as DueErr, length, map, option_map};
ghost use Rattle.pcef_capture_file.specs.declared.fault.CaptureFault.TheVariants.{NoMemory, NotACapture};
ghost use Rattle.pcef_capture_file.specs.Blocks.{begins_section, framed};
ghost use Rattle.pcef_capture_file.specs.Captured.{captured};
ghost use Rattle.pcef_capture_file.specs.PcapNg.{packets_among, ReadsFile, step_of, taken_of};
ghost use Rattle.pcef_capture_file.specs.Sections.{standing};

use crate::block_packet::packet_of;
use crate::blocks::{Block, begins_section, read_block};
use crate::endianness::Endianness;
use crate::fault::CaptureFault;
use crate::packet::{Capture, Packet};
use crate::section::Section;
use std::alloc::{AllocError, Global};

/// Updates the section by a block, and returns the block's packet, if it has one. An `Err` is the block's fault, or
/// `NoMemory`.
#[tactic(auto, unfolding(crate::specs::PcapNg::taken_of))]
pub(crate) fn take_block<'a>(
    section: &mut Section,
    block: &Block<'a>,
) -> Result<Option<Packet<'a>>, CaptureFault>
    ensures ok { IfOk result (λ packet. taken_of (standing section.old) (framed block.now)
        ≡ DueOk (standing section.new, option_map captured packet)) }
    ensures fault { IfErr result (λ fault. (fault ≡ NoMemory)
        ⊎ (taken_of (standing section.old) (framed block.now) ≡ DueErr fault)) }
{
    let packet = packet_of(&section.interfaces, block);
    section.take_in(block)?;
    packet
}

/// Reads the block at the front, updates the section by it, and returns its packet, if it has one, and the octets
/// behind it. An `Err` is the block's fault, or `NoMemory`.
#[tactic(auto, unfolding(crate::specs::PcapNg::step_of))]
fn read_step<'a>(
    section: &mut Section,
    octets: &'a [u8],
) -> Result<(Option<Packet<'a>>, &'a [u8]), CaptureFault>
    ensures ok { IfOk result (λ found. step_of (standing section.old) octets.now
        ≡ DueOk (standing section.new, (option_map captured found.0, found.1.now))) }
    ensures fault { IfErr result (λ fault. (fault ≡ NoMemory)
        ⊎ (step_of (standing section.old) octets.now ≡ DueErr fault)) }
    ensures shorter { IfOk result (λ found. length found.1.now < length octets.now) }
{
    let (block, rest) = read_block(section.endianness, octets)?;
    let packet = take_block(section, &block)?;
    Ok((packet, rest))
}

/// Appends a packet, if there is one.
fn note<'a>(packets: &mut Vec<Packet<'a>>, packet: Option<Packet<'a>>) -> Result<(), AllocError>
    ensures { OnOk result (map captured packets.new.items
        ≡ map captured packets.old.items ++ packets_among (option_map captured packet.entry ∷ [])) }
{
    match packet {
        Some(packet) => Ok(packets.push(packet)?),
        None => Ok(()),
    }
}

/// The capture up to a block at fault; `NoMemory` where that is the fault.
fn capture_until<'a>(
    packets: Vec<Packet<'a>>,
    fault: CaptureFault,
) -> Result<Capture<'a>, CaptureFault>
    ensures packets { IfOk result (λ capture. capture.packets.items ≡ packets.entry.items) }
    ensures stop { IfOk result (λ capture. capture.fault ≡ Some fault) }
    ensures other { OnOk result (fault ≢ NoMemory) }
    ensures fault { IfErr result (λ e. e ≡ NoMemory) }
{
    match fault {
        CaptureFault::NoMemory => Err(CaptureFault::NoMemory),
        _ => Ok(Capture {
            packets,
            fault: Some(fault),
        }),
    }
}

/// The packets of all blocks. An `Err` is `NoMemory`.
fn read_blocks<'a>(alloc: Global, octets: &'a [u8]) -> Result<Capture<'a>, CaptureFault>
    ensures packets { IfOk result (λ capture.
        ReadsFile octets.now (map captured capture.packets.items) capture.fault) }
    ensures fault { IfErr result (λ fault. fault ≡ NoMemory) }
{
    let mut section = Section {
        endianness: Endianness::Big,
        interfaces: Vec::new(alloc),
    };
    let mut packets = Vec::new(alloc);
    let mut rest = octets;
    while !rest.is_empty() {
        match read_step(&mut section, rest) {
            Ok((packet, others)) => {
                let Ok(()) = note(&mut packets, packet) else {
                    return Err(CaptureFault::NoMemory);
                };
                rest = others;
            }
            Err(fault) => return capture_until(packets, fault),
        }
    }
    Ok(Capture {
        packets,
        fault: None,
    })
}

/// The packets of a pcapng file: those of its blocks one after another, up to the end of the file or to the first block
/// at fault, which is returned beside them. Sections may have either order. Blocks of other types are skipped. The
/// packets borrow the file's octets; the lists of packets and of interfaces take memory. An `Err` is `NotACapture`,
/// where the first four octets aren't those of a section header, or `NoMemory`.
pub fn read_pcapng<'a>(alloc: Global, octets: &'a [u8]) -> Result<Capture<'a>, CaptureFault>
    ensures packets { IfOk result (λ capture.
        ReadsFile octets.now (map captured capture.packets.items) capture.fault) }
    ensures section { OnOk result (IsTrue (begins_section octets.now)) }
    ensures fault { IfErr result (λ fault. (fault ≡ NoMemory)
        ⊎ ((fault ≡ NotACapture) × ¬ IsTrue (begins_section octets.now))) }
{
    if begins_section(octets) {
        read_blocks(alloc, octets)
    } else {
        Err(CaptureFault::NotACapture)
    }
}
