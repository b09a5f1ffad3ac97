//! The packets in the blocks of pcapng files.

ghost use Rattle.std.specs.Prelude.{◌≡◌, ◌+◌, ◌≤◌, IfErr, IfOk, Ok as DueOk, Err as DueErr, length, option_map};
ghost use Rattle.pcef_capture_file.specs.Blocks.{framed};
ghost use Rattle.pcef_capture_file.specs.BlockPackets.{behind_lengths, enhanced_in, interface_at, obsolete_in, packet_in, block_packet, simple_in, snapped, units_in};
ghost use Rattle.pcef_capture_file.specs.Captured.{captured};

use crate::blocks::Block;
use crate::fault::CaptureFault;
use crate::packet::{Packet, Stated, packet_at_front};
use crate::section::Interface;

/// The types of blocks with packets.
const OBSOLETE_PACKET: u32 = 2;

const SIMPLE_PACKET: u32 = 3;

const ENHANCED_PACKET: u32 = 6;

/// The interface of a number.
#[tactic(auto, unfolding(crate::specs::BlockPackets::interface_at))]
fn interface_at(interfaces: &[Interface], number: usize) -> Result<Interface, CaptureFault>
    ensures { result ≡ interface_at interfaces.now number }
{
    match interfaces.get(number) {
        Some(interface) => Ok(*interface),
        None => Err(CaptureFault::UnknownInterface),
    }
}

/// The packet in the body at a place.
#[tactic(auto, unfolding(crate::specs::BlockPackets::packet_in))]
fn packet_in<'a>(
    block: &Block<'a>,
    interface: Interface,
    recorded: u32,
    stated: Stated,
    place: usize,
) -> Result<Packet<'a>, CaptureFault>
    requires { place ≤ length block.now.body.now }
    ensures packet { IfOk result (λ packet.
        packet_in (framed block.now) interface recorded stated place ≡ DueOk (captured packet)) }
    ensures fault { IfErr result (λ fault.
        packet_in (framed block.now) interface recorded stated place ≡ DueErr fault) }
{
    let behind = block.body.split_at(place).1;
    let (packet, _) = packet_at_front(interface.link, block.endianness, recorded, stated, behind)?;
    Ok(packet)
}

/// The units of time in octets 4 to 11 of a block.
#[tactic(auto, unfolding(crate::specs::BlockPackets::units_in))]
fn units_in(block: &Block<'_>) -> u64
    requires { 20 ≤ length block.now.body.now }
    ensures { result ≡ units_in (framed block.now) }
{
    let high = block.endianness.number_in_4(block.body, 4);
    let low = block.endianness.number_in_4(block.body, 8);
    u64::from(high) * (1 << 32) + u64::from(low)
}

/// The packet behind the time and the lengths in octets 4 to 19 of a block, of the interface of this number.
#[tactic(auto, unfolding(crate::specs::BlockPackets::behind_lengths))]
fn behind_lengths<'a>(
    interfaces: &[Interface],
    block: &Block<'a>,
    number: usize,
) -> Result<Packet<'a>, CaptureFault>
    requires { 20 ≤ length block.now.body.now }
    ensures packet { IfOk result (λ packet.
        behind_lengths interfaces.now (framed block.now) number ≡ DueOk (captured packet)) }
    ensures fault { IfErr result (λ fault.
        behind_lengths interfaces.now (framed block.now) number ≡ DueErr fault) }
{
    let interface = interface_at(interfaces, number)?;
    let recorded = block.endianness.number_in_4(block.body, 12);
    let stated = Stated {
        original: block.endianness.number_in_4(block.body, 16),
        time: interface.clock.time_of(units_in(block)),
    };
    packet_in(block, interface, recorded, stated, 20)
}

/// The packet of an enhanced packet block.
#[tactic(auto, unfolding(crate::specs::BlockPackets::enhanced_in))]
fn enhanced_in<'a>(interfaces: &[Interface], block: &Block<'a>) -> Result<Packet<'a>, CaptureFault>
    ensures packet { IfOk result (λ packet.
        enhanced_in interfaces.now (framed block.now) ≡ DueOk (captured packet)) }
    ensures fault { IfErr result (λ fault.
        enhanced_in interfaces.now (framed block.now) ≡ DueErr fault) }
{
    if block.body.len() < 20 {
        return Err(CaptureFault::BlockLength);
    }
    let number = block.endianness.number_in_4(block.body, 0);
    behind_lengths(interfaces, block, number as usize)
}

/// The packet of an obsolete packet block.
#[tactic(auto, unfolding(crate::specs::BlockPackets::obsolete_in))]
fn obsolete_in<'a>(interfaces: &[Interface], block: &Block<'a>) -> Result<Packet<'a>, CaptureFault>
    ensures packet { IfOk result (λ packet.
        obsolete_in interfaces.now (framed block.now) ≡ DueOk (captured packet)) }
    ensures fault { IfErr result (λ fault.
        obsolete_in interfaces.now (framed block.now) ≡ DueErr fault) }
{
    if block.body.len() < 20 {
        return Err(CaptureFault::BlockLength);
    }
    let number = block.endianness.number_in_2(block.body, 0);
    behind_lengths(interfaces, block, usize::from(number))
}

/// The length that is recorded of a frame of `line` octets; a `snap_len` of 0 is no limit.
#[tactic(auto, unfolding(crate::specs::BlockPackets::snapped))]
fn snap(snap_len: u32, line: u32) -> u32
    ensures { result ≡ snapped snap_len line }
{
    if snap_len == 0 {
        line
    } else {
        snap_len.min(line)
    }
}

/// The packet of a simple packet block.
#[tactic(auto, unfolding(crate::specs::BlockPackets::simple_in))]
fn simple_in<'a>(interfaces: &[Interface], block: &Block<'a>) -> Result<Packet<'a>, CaptureFault>
    ensures packet { IfOk result (λ packet.
        simple_in interfaces.now (framed block.now) ≡ DueOk (captured packet)) }
    ensures fault { IfErr result (λ fault.
        simple_in interfaces.now (framed block.now) ≡ DueErr fault) }
{
    if block.body.len() < 4 {
        return Err(CaptureFault::BlockLength);
    }
    let interface = interface_at(interfaces, 0)?;
    let line = block.endianness.number_in_4(block.body, 0);
    let recorded = snap(interface.snap_len, line);
    let stated = Stated {
        original: line,
        time: None,
    };
    packet_in(block, interface, recorded, stated, 4)
}

/// The packet of a block, if its type is one of those with packets; else `BlockLength`,
/// `UnknownInterface` or `CutPacket`.
#[tactic(auto, unfolding(crate::specs::BlockPackets::block_packet))]
pub(crate) fn packet_of<'a>(
    interfaces: &[Interface],
    block: &Block<'a>,
) -> Result<Option<Packet<'a>>, CaptureFault>
    ensures packet { IfOk result (λ packet.
        block_packet interfaces.now (framed block.now) ≡ DueOk (option_map captured packet)) }
    ensures fault { IfErr result (λ fault.
        block_packet interfaces.now (framed block.now) ≡ DueErr fault) }
{
    let read = match block.kind {
        ENHANCED_PACKET => enhanced_in(interfaces, block),
        SIMPLE_PACKET => simple_in(interfaces, block),
        OBSOLETE_PACKET => obsolete_in(interfaces, block),
        _ => return Ok(None),
    };
    Ok(Some(read?))
}
