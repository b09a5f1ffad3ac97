//! The extension headers of version 6 (RFC 8200, clause 4).

ghost use Rattle.std.specs.Prelude.{◌≡◌, ◌≤◌, MatchOption, None, Some, length};
ghost use Rattle.pcef_packet.specs.Carrying.{carried_in, past};
ghost use Rattle.pcef_packet.specs.ExtensionHeaders.{extension_len, is_extension, is_later};

use byteorder::{BigEndian, ByteOrder};
use std::marker::Model;

/// The kind of a fragment header.
const FRAGMENT: u8 = 44;

/// The length of the shortest extension header.
const LEAST_LEN: usize = 8;

/// What a packet carries behind its headers.
#[derive(Drop)]
pub(crate) struct Payload<'a> {
    /// The protocol.
    pub proto: u8,
    /// The octets up to the end of the packet.
    pub octets: &'a [u8],
    /// Whether these are the beginning of what is carried: they aren't in a later fragment.
    pub begins: bool,
}

impl<'a> Model for Payload<'a> {
    ghost use Rattle.pcef_packet.specs.ExtensionHeaders.{Carried};
    ghost use Rattle.pcef_packet.specs.Carrying.{carried_of};

    ghost Value = { Carried };

    ghost view = { λ p. carried_of p.proto p.octets.now p.begins };
}

/// Whether a header of this kind is passed over.
fn is_extension(kind: u8) -> bool
    ensures { result ≡ is_extension kind }
{
    matches!(kind, FRAGMENT | 0 | 43 | 60)
}

/// How many octets the header of this kind in front has.
#[tactic(auto, unfolding(crate::specs::ExtensionHeaders::extension_len))]
fn len_of(kind: u8, octets: &[u8]) -> usize
    requires { 8 ≤ length octets.now }
    ensures len { result ≡ extension_len kind octets.now }
    ensures least { 8 ≤ result }
{
    if kind == FRAGMENT {
        LEAST_LEN
    } else {
        8 + 8 * usize::from(octets[1])
    }
}

/// Whether the header of this kind in front is that of a fragment other than the first.
#[tactic(auto, unfolding(crate::specs::ExtensionHeaders::is_later))]
fn is_later(kind: u8, octets: &[u8]) -> bool
    requires { 8 ≤ length octets.now }
    ensures { result ≡ is_later kind octets.now }
{
    kind == FRAGMENT && BigEndian::read_u16(&octets[2..]) / 8 != 0
}

/// Reads the header of this kind in front: the kind that it names, what follows it, and whether it is that of a
/// fragment other than the first. None where the header isn't whole.
#[tactic(auto, unfolding(crate::specs::Carrying::past, crate::specs::ExtensionHeaders::extension_len))]
fn past(kind: u8, octets: &[u8]) -> Option<(u8, &[u8], bool)>
    ensures { MatchOption result (past kind octets.now ≡ None)
        (λ p. past kind octets.now ≡ Some (p.0, p.1.now, p.2)) }
{
    if octets.len() < LEAST_LEN {
        return None;
    }
    let len = len_of(kind, octets);
    if octets.len() < len {
        return None;
    }
    Some((octets[0], octets.split_at(len).1, is_later(kind, octets)))
}

/// What is carried behind the headers in front; the first of them has this kind. None where one of them isn't whole.
pub(crate) fn payload_behind(first: u8, octets: &[u8]) -> Option<Payload<'_>>
    ensures { result ≡ carried_in first octets.now }
{
    let mut kind = first;
    let mut left = octets;
    'headers: while is_extension(kind) {
        let Some((next, behind, later)) = past(kind, left) else {
            return None;
        };
        if later {
            return Some(Payload {
                proto: next,
                octets: behind,
                begins: false,
            });
        }
        kind = next;
        left = behind;
    }
    Some(Payload {
        proto: kind,
        octets: left,
        begins: true,
    })
}
