//! Packets that were recorded in part.

ghost use Rattle.std.specs.Prelude.{◌≡◌, IfOk};
ghost use Rattle.pcef_capture_file.specs.Padding.{padded, stated_len};

use crate::endianness::Endianness;
use std::alloc::{AllocError, Global};

/// The length of a header of version 4 without options.
const IPV4_HEADER_LEN: usize = 20;

/// The length of the fixed header of version 6.
const IPV6_HEADER_LEN: usize = 40;

/// The length in octets that a packet's header states, or 0 where too little of its header was recorded.
#[tactic(auto, unfolding(crate::specs::Padding::stated_len, pcef_packet::specs::HeaderOf::total_len_v4, pcef_packet::specs::HeaderOf::volume_v6))]
fn stated_len(octets: &[u8]) -> usize
    ensures { result ≡ stated_len octets.now }
{
    if IPV4_HEADER_LEN <= octets.len() && octets[0] / 16 == 4 {
        usize::from(Endianness::Big.number_in_2(octets, 2))
    } else if IPV6_HEADER_LEN <= octets.len() && octets[0] / 16 == 6 {
        IPV6_HEADER_LEN + usize::from(Endianness::Big.number_in_2(octets, 4))
    } else {
        0
    }
}

/// The octets of a packet, with zeros behind them up to the length that its header states, at most 65,575 octets in
/// all. They stay as they are where they reach that length, or where fewer than 20 octets of version 4 or 40 of version
/// 6 were recorded.
#[tactic(auto, unfolding(crate::specs::Padding::padded))]
pub fn padded(alloc: Global, octets: &[u8]) -> Result<Vec<u8>, AllocError>
    ensures { IfOk result (λ whole. whole.items ≡ padded octets.now) }
{
    let missing = stated_len(octets).saturating_sub(octets.len());
    let mut whole = Vec::with_capacity(alloc, octets.len())?;
    whole.extend_from_slice(octets)?;
    whole.resize(octets.len() + missing, 0)?;
    Ok(whole)
}
