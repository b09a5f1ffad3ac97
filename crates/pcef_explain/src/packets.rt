//! What is wrong with the octets of a packet: how many there are, and how many its header states (RFC 791, clause 3.1;
//! RFC 8200, clauses 3 and 4).

ghost use Rattle.std.specs.Prelude.{◌<◌, ◌≤◌};

use crate::message::Message;
use pcef_packet::PacketFault;

/// The length of a header of version 4 without options.
const LEAST_V4: usize = 20;

/// The length of the fixed header of version 6.
const FIXED_V6: usize = 40;

/// The octet at a place, or 0 beyond the end.
fn octet_at(octets: &[u8], place: usize) -> usize
    ensures { result ≤ 255 }
{
    match octets.get(place) {
        Some(octet) => usize::from(*octet),
        None => 0,
    }
}

/// The number in two octets from a place on.
fn pair_at(octets: &[u8], place: usize) -> usize
    requires { place < 256 }
    ensures { result ≤ 65535 }
{
    256 * octet_at(octets, place) + octet_at(octets, place + 1)
}

/// Whether a packet is of version 6, by its first octet.
fn is_six(octets: &[u8]) -> bool {
    octet_at(octets, 0) / 16 == 6
}

/// Whether a packet seems to stand behind the 14 octets of an Ethernet header.
fn is_frame(octets: &[u8]) -> bool {
    match pair_at(octets, 12) {
        0x0800 => octet_at(octets, 14) / 16 == 4,
        0x86dd => octet_at(octets, 14) / 16 == 6,
        _ => false,
    }
}

/// The length of a header of version 4, by its second digit.
fn header_len(octets: &[u8]) -> usize
    ensures { result ≤ 60 }
{
    4 * (octet_at(octets, 0) % 16)
}

/// Writes how many octets a packet has.
fn write_count(message: &mut Message, count: usize) {
    message.text("has ");
    message.number(count);
    message.text(if count == 1 { " octet" } else { " octets" });
}

/// Writes how octets begin that are neither version 4 nor version 6.
fn write_version(message: &mut Message, octets: &[u8]) {
    if is_frame(octets) {
        message.text(
            "begins with an Ethernet header: leave out its 14 octets, since the packet begins behind it",
        );
        return;
    }
    message.text("begins with the hexadecimal digit ");
    message.digit(octet_at(octets, 0) / 16);
    message.text(": 4, for IPv4, or 6, for IPv6, is expected");
}

/// Writes that there are too few octets for a header.
fn write_short(message: &mut Message, octets: &[u8]) {
    write_count(message, octets.len());
    if is_six(octets) {
        message.text(": the header of IPv6 alone has ");
        message.number(FIXED_V6);
    } else {
        message.text(": the header of IPv4 alone has ");
        message.number(LEAST_V4);
    }
}

/// An extension header that ends beyond the packet.
struct Extension {
    /// Its number, as the header before it names it.
    kind: usize,
    /// The place at which it begins.
    place: usize,
    /// How many octets it has.
    len: usize,
}

/// The length of an extension header of this kind at a place, in units of eight octets behind the first eight.
fn units_at(octets: &[u8], volume: usize, kind: usize, place: usize) -> usize
    ensures { result ≤ 255 }
{
    if kind == 44 || volume < place.saturating_add(2) {
        0
    } else {
        octet_at(octets, place.saturating_add(1))
    }
}

/// The extension header at which a packet of version 6 with this volume ends too early.
fn cut_extension(octets: &[u8], volume: usize) -> Option<Extension> {
    let mut kind = octet_at(octets, 6);
    let mut place = FIXED_V6;
    for _ in 0..octets.len() {
        if !matches!(kind, 0 | 43 | 44 | 60) {
            return None;
        }
        let len = 8 + 8 * units_at(octets, volume, kind, place);
        if volume < place.saturating_add(len) {
            return Some(Extension { kind, place, len });
        }
        kind = octet_at(octets, place);
        place = place.saturating_add(len);
    }
    None
}

/// Writes which length a header of version 4 states, and which it may have.
fn write_header_len(message: &mut Message, octets: &[u8]) {
    let count = octets.len();
    message.text("has ");
    message.number(count);
    message.text(" octets, and its second digit asks for a header of ");
    message.number(header_len(octets));
    message.text(": one of ");
    message.number(LEAST_V4);
    message.text(" to ");
    message.number(count.min(60));
    message.text(" is expected");
}

/// Writes which extension header is cut.
fn write_cut(message: &mut Message, octets: &[u8]) {
    let volume = FIXED_V6 + pair_at(octets, 4);
    message.text("has ");
    message.number(volume);
    message.text(" octets by its header, and ");
    match cut_extension(octets, volume) {
        Some(Extension { kind, place, len }) => {
            message.text("the extension header ");
            message.number(kind);
            message.text(" at octet ");
            message.number(place.saturating_add(1));
            message.text(" asks for ");
            message.number(len);
            message.text(": ");
            message.number(volume.saturating_sub(place));
            message.text(" are left");
        }
        None => message.text("an extension header asks for more"),
    }
}

/// The total length that a packet's header states.
fn total_of(octets: &[u8]) -> usize {
    if is_six(octets) {
        FIXED_V6 + pair_at(octets, 4)
    } else {
        pair_at(octets, 2)
    }
}

/// Writes that a packet has fewer octets than its header states, or that its total length leaves none for its header.
fn write_total(message: &mut Message, octets: &[u8]) {
    let count = octets.len();
    let total = total_of(octets);
    message.text("has ");
    message.number(count);
    message.text(if is_six(octets) {
        " octets, and the payload length in octets 5 and 6 asks for "
    } else {
        " octets, and the total length in octets 3 and 4 asks for "
    });
    message.number(total);
    message.text(": ");
    let missing = total.saturating_sub(count);
    if missing == 0 {
        message.number(header_len(octets));
        message.text(" to ");
        message.number(count);
        message.text(" are expected");
    } else {
        message.number(missing);
        message.text(" are missing at its end");
    }
}

/// Writes why octets are no packet, behind the name of their field.
pub(crate) fn write_packet(message: &mut Message, octets: &[u8], fault: PacketFault) {
    match fault {
        PacketFault::Empty => message.text("is empty: the octets of an IP packet are expected"),
        PacketFault::Version => write_version(message, octets),
        PacketFault::ShortHeader => write_short(message, octets),
        PacketFault::BadHeaderLength if is_six(octets) => write_cut(message, octets),
        PacketFault::BadHeaderLength => write_header_len(message, octets),
        PacketFault::BadTotalLength => write_total(message, octets),
    }
}
