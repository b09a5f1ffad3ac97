//! The hints on the faults of a capture: what the octets are, or which number is unknown, and which are read.

ghost use Rattle.std.specs.Prelude.{◌≡◌, ◌≢◌, ◌<◌, IfOk, string_bytes};
ghost use Rattle.pcef_capture_file.specs.declared.fault.CaptureFault.TheVariants.{LinkType, NotACapture, Version};
ghost use Rattle.pcef_cli.specs.Hints.{advice_on, big_at, hinted_link, link_text, little_at, octet_at, pair_at, version_of, version_text, version_with};

use pcef_capture_file::CaptureFault;
use std::alloc::{AllocError, Global};

/// The formats other than captures that are known, by their first octets.
const OTHERS: [(&[u8], &str); 13] = [
    (
        b"\x1f\x8b",
        "gzip: unpack it first, as by gunzip -c FILE | pcef capture .. -",
    ),
    (
        b"BZh",
        "bzip2: unpack it first, as by bunzip2 -c FILE | pcef capture .. -",
    ),
    (
        b"\xfd7zXZ",
        "xz: unpack it first, as by unxz -c FILE | pcef capture .. -",
    ),
    (
        b"\x28\xb5\x2f\xfd",
        "zstd: unpack it first, as by unzstd -c FILE | pcef capture .. -",
    ),
    (
        b"\x04\x22\x4d\x18",
        "lz4: unpack it first, as by lz4 -dc FILE | pcef capture .. -",
    ),
    (b"PK\x03\x04", "zip: unpack it first"),
    (b"7z\xbc\xaf", "7z: unpack it first"),
    (
        b"snoop\0\0\0",
        "snoop's format: tshark -F pcap -r FILE -w NEW makes a capture of it",
    ),
    (
        b"\x34\xcd\xb2\xa1",
        "libpcap's modified format: tshark -F pcap -r FILE -w NEW makes a capture of it",
    ),
    (
        b"\xa1\xb2\xcd\x34",
        "libpcap's modified format: tshark -F pcap -r FILE -w NEW makes a capture of it",
    ),
    (
        b"\xef\xbb\xbf",
        "text, which begins with a byte order mark: a capture is expected, as tcpdump -w FILE writes it",
    ),
    (
        b"\xff\xfe",
        "text in UTF-16: a capture is expected, as tcpdump -w FILE writes it",
    ),
    (
        b"\xfe\xff",
        "text in UTF-16: a capture is expected, as tcpdump -w FILE writes it",
    ),
];

/// The hint on any other text.
const TEXT: &str =
    "text: a capture is expected, as tcpdump -w FILE writes it, or text2pcap of a dump in hexadecimal";

/// The hint on a capture of too many interfaces.
const FEWER: &str =
    "tshark -F pcap -r FILE -w NEW makes a capture of it without interfaces, if all have one link type";

/// The hint on a capture that ends too early, or has impossible numbers.
const ANEW: &str =
    "it is cut or damaged there: copy or capture it anew; the lines of the packets before that are written";

/// Whether an octet is one of ASCII text.
fn is_text(octet: u8) -> bool {
    matches!(octet, b'\t' | b'\n' | b'\r' | b' '..=b'~')
}

/// What octets that begin no capture are, if that is known.
fn other_format(octets: &[u8]) -> Option<&'static str> {
    for (magic, name) in &OTHERS {
        if octets.starts_with(*magic) {
            return Some(*name);
        }
    }
    if octets.is_empty() {
        Some("it is empty: tcpdump -w FILE writes a capture")
    } else if octets.iter().all(|octet| is_text(*octet)) {
        Some(TEXT)
    } else {
        None
    }
}

/// The octet at a place, or 0 beyond the end.
fn octet_at(octets: &[u8], place: usize) -> u8
    ensures { result ≡ octet_at octets.now place }
{
    match octets.get(place) {
        Some(octet) => *octet,
        None => 0,
    }
}

/// The number in two octets at a place, the lower one first.
fn little_at(octets: &[u8], place: usize) -> u16
    requires { place < 256 }
    ensures { result ≡ little_at octets.now place }
{
    let low = u16::from(octet_at(octets, place));
    let high = u16::from(octet_at(octets, place + 1));
    low + 256 * high
}

/// The number in two octets at a place, the higher one first.
fn big_at(octets: &[u8], place: usize) -> u16
    requires { place < 256 }
    ensures { result ≡ big_at octets.now place }
{
    let high = u16::from(octet_at(octets, place));
    let low = u16::from(octet_at(octets, place + 1));
    256 * high + low
}

/// The number of the unknown link type, from the header of a classic file or from an interface description.
fn link_number(octets: &[u8]) -> u16
    ensures { result ≡ hinted_link octets.now }
{
    match octet_at(octets, 0) {
        0xd4 | 0x4d => little_at(octets, 20),
        0xa1 => big_at(octets, 22),
        1 => little_at(octets, 8),
        _ => big_at(octets, 8),
    }
}

/// Two numbers of two octets each at a place. Their order is in the octet at `order`: 0xD4 or 0x4D where the lower
/// octets stand first.
fn pair_at(octets: &[u8], order: usize, place: usize) -> (u16, u16)
    requires { place < 16 }
    ensures { result ≡ pair_at octets.now order place }
{
    match octet_at(octets, order) {
        0xd4 | 0x4d => (little_at(octets, place), little_at(octets, place + 2)),
        _ => (big_at(octets, place), big_at(octets, place + 2)),
    }
}

/// The version of a section header, which begins with 0x0A, or of a classic file's header.
fn version_of(octets: &[u8]) -> (u16, u16)
    ensures { result ≡ version_of octets.now }
{
    if octet_at(octets, 0) == 0x0a {
        pair_at(octets, 8, 12)
    } else {
        pair_at(octets, 0, 4)
    }
}

/// Which versions of the octets' format are read.
fn versions_read(octets: &[u8]) -> &'static str
    ensures { version_text octets.now ≡ version_with (version_of octets.now) result.now }
{
    if octet_at(octets, 0) == 0x0a {
        ": of pcapng 1.0 and 1.2 are read"
    } else {
        ": of libpcap's format 2.4 is read"
    }
}

/// The hint on a version that isn't read.
fn version_line(alloc: Global, octets: &[u8]) -> Result<String, AllocError>
    ensures { IfOk result (λ text. string_bytes text ≡ version_text octets.now) }
{
    let (major, minor) = version_of(octets);
    let read = versions_read(octets);
    format!(in alloc; "its version is {major}.{minor}{read}")
}

/// The hint on an unknown link type.
fn link_line(alloc: Global, octets: &[u8]) -> Result<String, AllocError>
    ensures { IfOk result (λ text. string_bytes text ≡ link_text octets.now) }
{
    let number = link_number(octets);
    format!(in alloc;
        "its number is {number}: 0, 1, 12, 14, 101, 108, 113, 228, 229 and 276 are read"
    )
}

/// Writes an octet in hexadecimal behind a space.
fn push_octet(alloc: Global, line: &mut String, octet: u8) -> Result<(), AllocError> {
    let text = format!(in alloc; " {octet:02x}")?;
    line.push_str(text.as_str())
}

/// Writes the first octets, and how a capture begins.
fn push_octets(alloc: Global, line: &mut String, octets: &[u8]) -> Result<(), AllocError> {
    for octet in octets.iter().take(4) {
        push_octet(alloc, line, *octet)?;
    }
    line.push_str(
        ": a capture begins with d4 c3 b2 a1 or 4d 3c b2 a1, with these turned round, or with 0a 0d 0d 0a",
    )
}

/// The hint on octets that begin neither a capture nor another known format.
fn first_line(alloc: Global, octets: &[u8]) -> Result<String, AllocError> {
    let mut line = String::from_str(alloc, "it begins with")?;
    push_octets(alloc, &mut line, octets)?;
    Ok(line)
}

/// The hint on a fault, by the octets from the fault on. Of octets that begin no capture, what they are; of an unknown
/// link type or version, its number and those that are read; of another fault, what to do. Takes memory for it.
pub fn hint_of(alloc: Global, fault: CaptureFault, octets: &[u8]) -> Result<String, AllocError>
    ensures link { fault ≡ LinkType → IfOk result (λ hint. string_bytes hint ≡ link_text octets.now) }
    ensures version { fault ≡ Version → IfOk result (λ hint. string_bytes hint ≡ version_text octets.now) }
    ensures advised { fault ≢ LinkType → fault ≢ Version → fault ≢ NotACapture
        → IfOk result (λ hint. string_bytes hint ≡ advice_on fault) }
{
    match fault {
        CaptureFault::NotACapture => match other_format(octets) {
            Some(name) => String::from_str(alloc, name),
            None => first_line(alloc, octets),
        },
        CaptureFault::Version => version_line(alloc, octets),
        CaptureFault::LinkType => link_line(alloc, octets),
        CaptureFault::TooManyInterfaces => String::from_str(alloc, FEWER),
        _ => String::from_str(alloc, ANEW),
    }
}
