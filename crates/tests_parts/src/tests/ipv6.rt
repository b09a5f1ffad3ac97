//! Packets of version 6, whose fields were worked out by hand from RFC 8200, clauses 3 and 4.
use super::expect_equal;
use pcef_packet::{Addr, Dir, Header, PacketFault, Ports, read_header};
use std::alloc::{AllocError, Global};

/// A UDP packet of 48 octets from 2001:db8::7 port 53 to 2001:db8::2 port 5000, with DSCP 46.
const DNS_ANSWER: [u8; 48] = [
    0x6b, 0x80, 0x00, 0x00, 0x00, 0x08, 0x11, 0x40, 0x20, 0x01, 0x0d, 0xb8, 0x00, 0x00, 0x00, 0x00,
    0x00, 0x00, 0x00, 0x00, 0x00, 0x00, 0x00, 0x07, 0x20, 0x01, 0x0d, 0xb8, 0x00, 0x00, 0x00, 0x00,
    0x00, 0x00, 0x00, 0x00, 0x00, 0x00, 0x00, 0x02, 0x00, 0x35, 0x13, 0x88, 0x00, 0x08, 0x00, 0x00,
];

const DNS_HEADER: Header = Header {
    dir: Dir::Down,
    src: Addr::V6(0x2001_0db8_0000_0000_0000_0000_0000_0007),
    dst: Addr::V6(0x2001_0db8_0000_0000_0000_0000_0000_0002),
    proto: 17,
    ports: PORTS,
    octets: 48,
    dscp: 46,
};

const PORTS: Option<Ports> = Some(Ports { src: 53, dst: 5000 });

/// Whether this header is read of the packet in its direction.
fn is_read(header: &Header) -> bool {
    read_header(header.dir, &DNS_ANSWER) == Ok(*header)
}

#[test]
fn directions_of_a_packet(rt: HostRuntime) {
    let uplink = Header {
        dir: Dir::Up,
        ..DNS_HEADER
    };
    expect_equal(&rt, &[is_read(&DNS_HEADER), is_read(&uplink)], &[true; 2]);
}

/// The place of an octet that is changed, the octet, and the DSCP that is read then.
type Change = (usize, u8, u8);

/// The traffic class stands behind the four bits of the version, and the DSCP is its upper six bits. Flow label and hop
/// limit change nothing.
const CHANGES: [Change; 9] = [
    (0, 0x60, 2),
    (0, 0x6f, 62),
    (1, 0x00, 44),
    (1, 0x3f, 44),
    (1, 0x40, 45),
    (1, 0xff, 47),
    (2, 0xff, 46),
    (3, 0xff, 46),
    (7, 0x00, 46),
];

/// The packet with one octet changed.
fn changed(place: usize, octet: u8) -> [u8; 48] {
    let mut packet = DNS_ANSWER;
    if let Some(at) = packet.get_mut(place) {
        *at = octet;
    }
    packet
}

/// The first change after which the header isn't the one with this DSCP.
fn first_wrong_change(changes: &[Change]) -> Option<(usize, u8)> {
    for (place, octet, dscp) in changes {
        let expected = Header {
            dscp: *dscp,
            ..DNS_HEADER
        };
        if read_header(Dir::Down, &changed(*place, *octet)) != Ok(expected) {
            return Some((*place, *octet));
        }
    }
    None
}

#[test]
fn changed_packets(rt: HostRuntime) {
    expect_equal(&rt, &first_wrong_change(&CHANGES), &None);
}

/// The first octet that, read alone, has another fault than that of its version.
fn first_wrong_version() -> Option<u8> {
    for first in 0..=u8::MAX {
        let fault = match first >> 4 {
            4 | 6 => PacketFault::ShortHeader,
            _ => PacketFault::Version,
        };
        if read_header(Dir::Down, &[first]) != Err(fault) {
            return Some(first);
        }
    }
    None
}

#[test]
fn one_octet_of_each_version(rt: HostRuntime) {
    expect_equal(&rt, &first_wrong_version(), &None);
}

/// The protocol, the ports and the volume, or the fault.
type Read = Result<(u8, Option<Ports>, u32), PacketFault>;

fn read(octets: &[u8]) -> Read {
    let header = read_header(Dir::Down, octets)?;
    Ok((header.proto, header.ports, header.octets))
}

/// What a packet is an example of, the next header and the payload length of its fixed header, the headers behind that,
/// and what is read. A UDP header stands behind them.
type Row = (&'static str, u8, u16, &'static [u8], Read);

/// Puts an octet in its place, if there is such a place.
fn put(octets: &mut [u8], place: usize, octet: u8) {
    if let Some(at) = octets.get_mut(place) {
        *at = octet;
    }
}

/// Adds a fixed header with this next header and this payload length, these headers, and a UDP header.
fn write(octets: &mut Vec<u8>, next: u8, len: u16, headers: &[u8]) -> Result<(), AllocError> {
    let [high, low] = len.to_be_bytes();
    octets.extend_from_slice(&DNS_ANSWER[..40])?;
    put(octets, 4, high);
    put(octets, 5, low);
    put(octets, 6, next);
    octets.extend_from_slice(headers)?;
    octets.extend_from_slice(&DNS_ANSWER[40..])
}

/// What is read of a packet, where there is memory for it.
fn read_packet(alloc: Global, next: u8, len: u16, headers: &[u8]) -> Option<Read> {
    let mut octets = Vec::new(alloc);
    match write(&mut octets, next, len, headers) {
        Ok(()) => Some(read(&octets)),
        Err(_) => None,
    }
}

/// The first row of which something else is read.
fn first_wrong(alloc: Global, rows: &[Row]) -> Option<&'static str> {
    for (what, next, len, headers, expected) in rows {
        if read_packet(alloc, *next, *len, headers) != Some(*expected) {
            return Some(what);
        }
    }
    None
}

#[test]
fn what_stands_behind_the_fixed_header(rt: HostRuntime) {
    let wrong = [
        first_wrong(rt.alloc(), &PAYLOADS),
        first_wrong(rt.alloc(), &HEADERS),
        first_wrong(rt.alloc(), &FRAGMENTS),
        first_wrong(rt.alloc(), &LENGTHS),
    ];
    expect_equal(&rt, &wrong, &[None; 4]);
}

/// Protocols that have ports, and next headers at which the walk ends.
const PAYLOADS: [Row; 12] = [
    ("no payload", 17, 0, &[], Ok((17, None, 40))),
    ("three octets", 17, 3, &[], Ok((17, None, 43))),
    ("four octets", 17, 4, &[], Ok((17, PORTS, 44))),
    ("UDP", 17, 8, &[], Ok((17, PORTS, 48))),
    ("TCP", 6, 8, &[], Ok((6, PORTS, 48))),
    ("SCTP", 132, 8, &[], Ok((132, PORTS, 48))),
    ("ICMPv6", 58, 8, &[], Ok((58, None, 48))),
    ("no next header", 59, 8, &[], Ok((59, None, 48))),
    ("encrypted", 50, 8, &[], Ok((50, None, 48))),
    ("authenticated", 51, 8, &[], Ok((51, None, 48))),
    ("IPv4 within", 4, 8, &[], Ok((4, None, 48))),
    ("mobility", 135, 8, &[], Ok((135, None, 48))),
];

const HEADERS: [Row; 8] = [
    ("hop-by-hop options", 0, 16, OPTIONS, Ok((17, PORTS, 56))),
    ("routing", 43, 16, OPTIONS, Ok((17, PORTS, 56))),
    ("destination options", 60, 16, OPTIONS, Ok((17, PORTS, 56))),
    (
        "options of 16 octets",
        60,
        24,
        &[17, 1, 1, 12, 0, 0, 0, 0, 0, 0, 0, 0, 0, 0, 0, 0],
        Ok((17, PORTS, 64)),
    ),
    (
        "all four kinds, and TCP",
        0,
        40,
        &[
            43, 0, 1, 4, 0, 0, 0, 0, 44, 0, 0, 0, 0, 0, 0, 0, 60, 0, 0, 1, 0, 0, 0, 1, 6, 0, 1, 4,
            0, 0, 0, 0,
        ],
        Ok((6, PORTS, 80)),
    ),
    (
        "hop-by-hop options behind others",
        60,
        24,
        &[0, 0, 1, 4, 0, 0, 0, 0, 17, 0, 1, 4, 0, 0, 0, 0],
        Ok((17, PORTS, 64)),
    ),
    (
        "no next header behind options",
        0,
        16,
        &[59, 0, 1, 4, 0, 0, 0, 0],
        Ok((59, None, 56)),
    ),
    (
        "a payload of options alone",
        0,
        16,
        &[17, 1, 1, 12, 0, 0, 0, 0],
        Ok((17, None, 56)),
    ),
];

/// Options of 8 octets before UDP.
const OPTIONS: &[u8] = &[17, 0, 1, 4, 0, 0, 0, 0];

/// The upper 13 bits of octets 2 and 3 of a fragment header are the offset. It doesn't state its length.
const FRAGMENTS: [Row; 10] = [
    (
        "a later one",
        44,
        16,
        &[17, 0, 0, 8, 0, 0, 0, 1],
        Ok((17, None, 56)),
    ),
    ("the first one", 44, 16, FIRST, Ok((17, PORTS, 56))),
    (
        "reserved bits",
        44,
        16,
        &[17, 0, 0, 6, 0, 0, 0, 1],
        Ok((17, PORTS, 56)),
    ),
    (
        "a reserved octet",
        44,
        16,
        &[17, 255, 0, 1, 0, 0, 0, 1],
        Ok((17, PORTS, 56)),
    ),
    (
        "an offset of 32 units",
        44,
        16,
        &[17, 0, 1, 0, 0, 0, 0, 1],
        Ok((17, None, 56)),
    ),
    (
        "the last offset",
        44,
        16,
        &[17, 0, 255, 248, 0, 0, 0, 1],
        Ok((17, None, 56)),
    ),
    // What stands behind a later one is no header.
    (
        "no options",
        44,
        9,
        &[60, 0, 0, 8, 0, 0, 0, 1],
        Ok((60, None, 49)),
    ),
    (
        "no fragment",
        44,
        9,
        &[44, 0, 0, 8, 0, 0, 0, 1],
        Ok((44, None, 49)),
    ),
    (
        "a first one in a first one",
        44,
        24,
        &[44, 0, 0, 1, 0, 0, 0, 1, 17, 0, 0, 0, 0, 0, 0, 2],
        Ok((17, PORTS, 64)),
    ),
    (
        "a later one in a first one",
        44,
        24,
        &[44, 0, 0, 1, 0, 0, 0, 1, 17, 0, 0, 8, 0, 0, 0, 2],
        Ok((17, None, 64)),
    ),
];

/// The header of a first fragment of UDP, which others follow.
const FIRST: &[u8] = &[17, 0, 0, 1, 0, 0, 0, 1];

const BEYOND: Read = Err(PacketFault::BadHeaderLength);

/// Payload lengths beyond the octets, and headers beyond the payload length, though octets stand there.
const LENGTHS: [Row; 10] = [
    (
        "one octet too few",
        17,
        9,
        &[],
        Err(PacketFault::BadTotalLength),
    ),
    (
        "256 octets too few",
        17,
        264,
        &[],
        Err(PacketFault::BadTotalLength),
    ),
    // The header ends beyond the volume as well.
    (
        "both are wrong",
        0,
        9,
        &[],
        Err(PacketFault::BadTotalLength),
    ),
    ("an octet of options", 0, 1, OPTIONS, BEYOND),
    (
        "one unit too many",
        0,
        15,
        &[17, 1, 1, 12, 0, 0, 0, 0],
        BEYOND,
    ),
    (
        "two units too many",
        0,
        16,
        &[17, 2, 1, 4, 0, 0, 0, 0],
        BEYOND,
    ),
    (
        "the greatest length of options",
        60,
        16,
        &[17, 255, 1, 4, 0, 0, 0, 0],
        BEYOND,
    ),
    (
        "the greatest length of routing",
        43,
        16,
        &[17, 255, 0, 0, 0, 0, 0, 0],
        BEYOND,
    ),
    (
        "no room for a second header",
        60,
        8,
        &[0, 0, 1, 4, 0, 0, 0, 0],
        BEYOND,
    ),
    (
        "seven octets for a fragment header",
        0,
        15,
        &[44, 0, 1, 4, 0, 0, 0, 0],
        BEYOND,
    ),
];

/// What is due of the first octets of a packet: nothing but its last count gives a header.
fn fault_of_cut(count: usize) -> PacketFault {
    match count {
        0 => PacketFault::Empty,
        1..=39 => PacketFault::ShortHeader,
        _ => PacketFault::BadTotalLength,
    }
}

/// The first count of octets of a packet with which something else is read than their fault, or this of all.
fn first_wrong_cut(packet: &[u8], whole: Read) -> Option<usize> {
    for count in 0..packet.len() {
        if read(&packet[..count]) != Err(fault_of_cut(count)) {
            return Some(count);
        }
    }
    if read(packet) == whole {
        None
    } else {
        Some(packet.len())
    }
}

/// The same for a packet with options.
fn first_wrong_cut_with_options(alloc: Global) -> Option<usize> {
    let mut octets = Vec::new(alloc);
    match write(&mut octets, 0, 16, OPTIONS) {
        Ok(()) => first_wrong_cut(&octets, Ok((17, PORTS, 56))),
        Err(_) => Some(0),
    }
}

#[test]
fn cuts_at_every_length(rt: HostRuntime) {
    let wrong = [
        first_wrong_cut(&DNS_ANSWER, Ok((17, PORTS, 48))),
        first_wrong_cut_with_options(rt.alloc()),
    ];
    expect_equal(&rt, &wrong, &[None; 2]);
}

/// What is due of a payload of `len` octets, which begins with a header of eight octets.
fn due_of_payload(len: u16) -> Read {
    match len {
        0..=7 => BEYOND,
        8..=11 => Ok((17, None, 40 + u32::from(len))),
        _ => Ok((17, PORTS, 40 + u32::from(len))),
    }
}

/// What is read of a packet without the octets behind its payload, where there is memory for it.
fn read_alone(alloc: Global, next: u8, len: u16, headers: &[u8]) -> Option<Read> {
    let mut octets = Vec::new(alloc);
    match write(&mut octets, next, len, headers) {
        Ok(()) => Some(read(octets.get(..40 + usize::from(len))?)),
        Err(_) => None,
    }
}

/// The first payload length of a packet with a header of this kind with which something else is read than is due, with
/// octets behind the payload or without.
fn first_wrong_payload(alloc: Global, kind: u8, headers: &[u8]) -> Option<u16> {
    for len in 0..=16u16 {
        let due = Some(due_of_payload(len));
        let before_others = read_packet(alloc, kind, len, headers);
        let alone = read_alone(alloc, kind, len, headers);
        if before_others != due || alone != due {
            return Some(len);
        }
    }
    None
}

#[test]
fn payloads_of_every_length(rt: HostRuntime) {
    let wrong = [
        first_wrong_payload(rt.alloc(), 0, OPTIONS),
        first_wrong_payload(rt.alloc(), 43, OPTIONS),
        first_wrong_payload(rt.alloc(), 44, FIRST),
        first_wrong_payload(rt.alloc(), 60, OPTIONS),
    ];
    expect_equal(&rt, &wrong, &[None; 4]);
}

/// The kind of the headers in a chain, the octet of their length, how many there are, and what is read.
type Chain = (u8, u8, usize, Read);

/// All have the greatest payload length, 65,535 octets.
const CHAINS: [Chain; 9] = [
    (0, 0, 1_000, Ok((17, PORTS, 65_575))),
    // Seven octets are left behind them.
    (0, 0, 8_191, Ok((17, PORTS, 65_575))),
    (43, 0, 8_191, Ok((17, PORTS, 65_575))),
    (44, 0, 8_191, Ok((17, PORTS, 65_575))),
    (60, 0, 8_191, Ok((17, PORTS, 65_575))),
    (60, 0, 8_192, BEYOND),
    (44, 0, 8_192, BEYOND),
    // 31 headers of 2,048 octets leave 2,047.
    (60, 255, 31, Ok((17, PORTS, 65_575))),
    (60, 255, 32, BEYOND),
];

/// Puts a chain of headers behind the fixed header, and then ports. The last header names UDP.
fn put_chain(octets: &mut [u8], kind: u8, units: u8, count: usize) {
    let len = 8 + 8 * usize::from(units);
    let mut place = 40usize;
    for number in 1..=count {
        put(octets, place, if number == count { 17 } else { kind });
        put(octets, place.saturating_add(1), units);
        place = place.saturating_add(len);
    }
    put(octets, place.saturating_add(1), 53);
    put(octets, place.saturating_add(2), 0x13);
    put(octets, place.saturating_add(3), 0x88);
}

/// Adds a packet that is a chain of headers.
fn write_chain(octets: &mut Vec<u8>, kind: u8, units: u8, count: usize) -> Result<(), AllocError> {
    write(octets, kind, 65_535, &[])?;
    octets.truncate(40);
    octets.resize(40 + 65_535, 0)?;
    put_chain(octets, kind, units, count);
    Ok(())
}

/// What is read of a packet that is a chain of headers.
fn read_chain(alloc: Global, kind: u8, units: u8, count: usize) -> Option<Read> {
    let mut octets = Vec::new(alloc);
    match write_chain(&mut octets, kind, units, count) {
        Ok(()) => Some(read(&octets)),
        Err(_) => None,
    }
}

/// The kind and the count of the first chain of which something else is read.
fn first_wrong_chain(alloc: Global, chains: &[Chain]) -> Option<(u8, usize)> {
    for (kind, units, count, expected) in chains {
        if read_chain(alloc, *kind, *units, *count) != Some(*expected) {
            return Some((*kind, *count));
        }
    }
    None
}

#[test]
fn long_chains_of_headers(rt: HostRuntime) {
    expect_equal(&rt, &first_wrong_chain(rt.alloc(), &CHAINS), &None);
}
