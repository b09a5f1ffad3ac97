//! Writing AVPs and headers.

ghost use Rattle.std.specs.Prelude.{◌≡◌, ◌<◌, ◌+◌, ◌≤◌, ◌^◌, ◌++◌, ◌∷◌, OnErr, OnOk, length, ◌*◌, vec_capacity};
ghost use Rattle.std.specs.List.{flat_map};
ghost use Rattle.pcef_diameter.specs.Avps.{shown};
ghost use Rattle.pcef_diameter.specs.Headers.{command_word, header_octets};
ghost use Rattle.pcef_diameter.specs.Numbers.{bit, octets_of};
ghost use Rattle.pcef_diameter.specs.Spellings.{avp_len, avp_octets, flags_word, vendor_word, zero_padding};

use crate::avp::{Avp, padded};
use crate::header::MessageHeader;
use std::alloc::AllocError;

/// The bit of a flag, where it is set.
fn bit(is_set: bool, place: u32) -> u32
    ensures exact { result ≡ bit is_set place }
    ensures most { result ≤ place }
{
    if is_set { place } else { 0 }
}

/// Writes numbers of four octets behind some octets, all or none.
#[tactic(auto, unfolding(crate::specs::Numbers::octets_of))]
fn put_words(out: &mut Vec<u8>, words: &[u32]) -> Result<(), AllocError>
    ensures written { OnOk result (out.new.items ≡ out.old.items ++ flat_map octets_of words.now) }
    ensures kept { OnErr result (out.new.items ≡ out.old.items) }
    ensures room { OnOk result (length out.new.items ≡ length out.old.items + 4 * length words.now) }
    ensures capacity { vec_capacity out.old ≤ vec_capacity out.new }
    ensures full { OnErr result (vec_capacity out.old < length out.old.items + 4 * length words.now) }
{
    let start = out.len();
    for word in words {
        if let Err(error) = out.extend_from_slice(&word.to_be_bytes()) {
            out.truncate(start);
            return Err(error);
        }
    }
    Ok(())
}

/// The AVP Flags and the AVP Length in one number.
#[tactic(auto, unfolding(crate::specs::Spellings::flags_word))]
fn flags_word(avp: &Avp) -> u32
    requires { avp_len (shown avp.now) < 2 ^ 24 }
    ensures { result ≡ flags_word (shown avp.now) }
{
    let flags = bit(avp.vendor.is_some(), 128) + bit(avp.mandatory, 64) + bit(avp.protected, 32);
    flags * 0x100_0000 + avp.len() as u32
}

/// Writes the header of an AVP, all or none.
fn put_avp_header(out: &mut Vec<u8>, avp: &Avp) -> Result<(), AllocError>
    requires { avp_len (shown avp.now) < 2 ^ 24 }
    ensures written { OnOk result (out.new.items ≡ out.old.items
        ++ flat_map octets_of (avp.now.code ∷ flags_word (shown avp.now) ∷ vendor_word avp.now.vendor)) }
    ensures kept { OnErr result (out.new.items ≡ out.old.items) }
    ensures room { OnOk result (length out.new.items ≤ length out.old.items + 12) }
    ensures capacity { vec_capacity out.old ≤ vec_capacity out.new }
    ensures full { OnErr result (vec_capacity out.old < length out.old.items + 12) }
{
    match avp.vendor {
        Some(vendor) => put_words(out, &[avp.code, flags_word(avp), vendor]),
        None => put_words(out, &[avp.code, flags_word(avp)]),
    }
}

/// Writes the data of an AVP and its padding, all or none.
#[tactic(auto, unfolding(crate::specs::Spellings::zero_padding))]
fn put_data(out: &mut Vec<u8>, avp: &Avp) -> Result<(), AllocError>
    requires { avp_len (shown avp.now) < 2 ^ 24 }
    ensures written { OnOk result (out.new.items ≡ out.old.items
        ++ (avp.now.octets.now ++ zero_padding (shown avp.now))) }
    ensures kept { OnErr result (out.new.items ≡ out.old.items) }
    ensures capacity { vec_capacity out.old ≤ vec_capacity out.new }
    ensures full { OnErr result (vec_capacity out.old < length out.old.items + length avp.now.octets.now + 3) }
{
    let start = out.len();
    out.extend_from_slice(avp.octets)?;
    if let Err(error) = out.resize(out.len() + (padded(avp.len()) - avp.len()), 0) {
        out.truncate(start);
        return Err(error);
    }
    Ok(())
}

/// Writes an AVP behind some octets, with zeros as its padding (RFC 6733, clause 4). Its `len` is at most 16,777,215.
/// This takes memory where there is no room for 15 octets beside the data; an `Err` is want of it, and leaves the octets
/// as they were.
pub fn put_avp(out: &mut Vec<u8>, avp: &Avp) -> Result<(), AllocError>
    requires { avp_len (shown avp.now) < 2 ^ 24 }
    ensures written { OnOk result (out.new.items ≡ out.old.items ++ avp_octets (shown avp.now)) }
    ensures kept { OnErr result (out.new.items ≡ out.old.items) }
    ensures capacity { vec_capacity out.old ≤ vec_capacity out.new }
    ensures full { OnErr result (vec_capacity out.old < length out.old.items + length avp.now.octets.now + 15) }
{
    let front = out.len();
    put_avp_header(out, avp)?;
    if let Err(error) = put_data(out, avp) {
        out.truncate(front);
        return Err(error);
    }
    Ok(())
}

/// The Command Flags and the Command Code in one number.
#[tactic(auto, unfolding(crate::specs::Headers::command_word))]
fn command_word(header: &MessageHeader) -> u32
    requires { header.now.command < 2 ^ 24 }
    ensures { result ≡ command_word header.now }
{
    let flags = bit(header.request, 128)
        + bit(header.proxiable, 64)
        + bit(header.error, 32)
        + bit(header.retransmitted, 16);
    flags * 0x100_0000 + header.command
}

/// Writes the header of a message behind some octets (RFC 6733, clause 3): 20 octets, the reserved bits unset. The
/// caller counts the octets of the message for its `len`, and writes the AVPs behind it. This takes memory where there is
/// no room for them; an `Err` is want of it, and leaves the octets as they were.
pub fn put_header(out: &mut Vec<u8>, header: &MessageHeader) -> Result<(), AllocError>
    requires len { header.now.len < 2 ^ 24 }
    requires command { header.now.command < 2 ^ 24 }
    ensures written { OnOk result (out.new.items ≡ out.old.items ++ header_octets header.now) }
    ensures kept { OnErr result (out.new.items ≡ out.old.items) }
    ensures capacity { vec_capacity out.old ≤ vec_capacity out.new }
    ensures full { OnErr result (vec_capacity out.old < length out.old.items + 20) }
{
    let first = header.version as u32 * 0x100_0000 + header.len;
    let words = [
        first,
        command_word(header),
        header.application,
        header.hop_by_hop,
        header.end_to_end,
    ];
    put_words(out, &words)
}
