//! The blocks of pcapng files.

ghost use Rattle.std.specs.Prelude.{◌≡◌, ◌+◌, ◌<◌, ◌≤◌, IfErr, IfOk, Ok as DueOk, Err as DueErr, length};
ghost use Rattle.pcef_capture_file.specs.Blocks.{begins_section, block_front, block_in, block_of, framed, is_block_len, len_of, order_of, section_order};

use crate::endianness::Endianness;
use crate::fault::CaptureFault;

/// The type of a section header, which reads the same in both orders.
pub(crate) const SECTION_HEADER: u32 = 0x0a0d_0d0a;

/// The byte-order magic of a section header, which gives the order of the section's numbers.
const BYTE_ORDER: u32 = 0x1a2b_3c4d;

/// The most octets of a block that are read.
const MAX_BLOCK: u32 = 16_777_216;

/// How many octets a block has beside its body: type and length before it, and the length behind it.
const FRAME_LEN: usize = 12;

/// A block as it stands in a file.
#[derive(Clone, Copy)]
pub(crate) struct Block<'a> {
    /// The order of its numbers.
    pub endianness: Endianness,
    /// Its type.
    pub kind: u32,
    /// What stands between its two lengths.
    pub body: &'a [u8],
}

/// Whether a section header begins here.
#[tactic(auto, unfolding(crate::specs::Blocks::begins_section))]
pub(crate) fn begins_section(octets: &[u8]) -> bool
    ensures { result ≡ begins_section octets.now }
{
    4 <= octets.len() && Endianness::Big.number_in_4(octets, 0) == SECTION_HEADER
}

/// The order that a section header states.
#[tactic(auto, unfolding(crate::specs::Blocks::section_order))]
fn section_order(octets: &[u8]) -> Option<Endianness>
    requires { 12 ≤ length octets.now }
    ensures { result ≡ section_order octets.now }
{
    if Endianness::Big.number_in_4(octets, 8) == BYTE_ORDER {
        Some(Endianness::Big)
    } else if Endianness::Little.number_in_4(octets, 8) == BYTE_ORDER {
        Some(Endianness::Little)
    } else {
        None
    }
}

/// The order of a block in a section of this one.
#[tactic(auto, unfolding(crate::specs::Blocks::order_of))]
fn order_of(endianness: Endianness, octets: &[u8]) -> Result<Endianness, CaptureFault>
    requires { 12 ≤ length octets.now }
    ensures { result ≡ order_of endianness octets.now }
{
    if begins_section(octets) {
        section_order(octets).ok_or(CaptureFault::ByteOrder)
    } else {
        Ok(endianness)
    }
}

/// Whether a block may have `total` octets.
#[tactic(auto, unfolding(crate::specs::Blocks::is_block_len))]
fn is_block_len(total: u32) -> bool
    ensures { result ≡ is_block_len total }
{
    12 <= total && total % 4 == 0
}

/// The length of the block in octets, which both its ends must state.
#[tactic(auto, unfolding(crate::specs::Blocks::len_of, crate::specs::Blocks::total_of, crate::specs::Blocks::is_block_len))]
fn len_of(endianness: Endianness, octets: &[u8]) -> Result<usize, CaptureFault>
    requires { 12 ≤ length octets.now }
    ensures len { result ≡ len_of endianness octets.now }
    ensures least { IfOk result (λ len. 12 ≤ len) }
    ensures within { IfOk result (λ len. len ≤ length octets.now) }
{
    let total = endianness.number_in_4(octets, 4);
    if !is_block_len(total) {
        return Err(CaptureFault::BlockLength);
    }
    if total > MAX_BLOCK {
        return Err(CaptureFault::TooLong);
    }
    let len = total as usize;
    if octets.len() < len {
        return Err(CaptureFault::CutBlock);
    }
    if endianness.number_in_4(octets, len - 4) == total {
        Ok(len)
    } else {
        Err(CaptureFault::BlockLength)
    }
}

/// The block of `len` octets at the front, and the octets behind it.
#[tactic(auto, unfolding(crate::specs::Blocks::block_front))]
fn block_front<'a>(endianness: Endianness, octets: &'a [u8], len: usize) -> (Block<'a>, &'a [u8])
    requires least { 12 ≤ len }
    requires within { len ≤ length octets.now }
    ensures block { block_front endianness octets.now len ≡ (framed result.0, result.1.now) }
    ensures shorter { length result.1.now < length octets.now }
{
    let block = Block {
        endianness,
        kind: endianness.number_in_4(octets, 0),
        body: octets.split_at(8).1.split_at(len - FRAME_LEN).0,
    };
    (block, octets.split_at(len).1)
}

/// The block at the front, in this order.
#[tactic(auto, unfolding(crate::specs::Blocks::block_in))]
fn block_in<'a>(
    endianness: Endianness,
    octets: &'a [u8],
) -> Result<(Block<'a>, &'a [u8]), CaptureFault>
    requires { 12 ≤ length octets.now }
    ensures block { IfOk result (λ found.
        block_in endianness octets.now ≡ DueOk (framed found.0, found.1.now)) }
    ensures fault { IfErr result (λ fault. block_in endianness octets.now ≡ DueErr fault) }
    ensures shorter { IfOk result (λ found. length found.1.now < length octets.now) }
{
    let len = len_of(endianness, octets)?;
    Ok(block_front(endianness, octets, len))
}

/// The block at the front, in a section of this order, and the octets behind it; else `CutBlock` where
/// the octets end within it, `ByteOrder`, `BlockLength`, or `TooLong` beyond 16,777,216 octets.
#[tactic(auto, unfolding(crate::specs::Blocks::block_of))]
pub(crate) fn read_block<'a>(
    endianness: Endianness,
    octets: &'a [u8],
) -> Result<(Block<'a>, &'a [u8]), CaptureFault>
    ensures block { IfOk result (λ found.
        block_of endianness octets.now ≡ DueOk (framed found.0, found.1.now)) }
    ensures fault { IfErr result (λ fault. block_of endianness octets.now ≡ DueErr fault) }
    ensures shorter { IfOk result (λ found. length found.1.now < length octets.now) }
{
    if octets.len() < FRAME_LEN {
        return Err(CaptureFault::CutBlock);
    }
    block_in(order_of(endianness, octets)?, octets)
}
