//! Packets of version 4 whose fields were worked out by hand from RFC 791 and RFC 768, and addresses of both versions.
use super::expect_equal;
use pcef_packet::{Addr, Dir, Header, PacketFault, Ports, read_header};

/// A UDP packet of 28 octets from 198.51.100.7 port 53 to 10.0.0.2 port 5000.
const DNS_ANSWER: [u8; 28] = [
    0x45, 0x00, 0x00, 0x1c, 0x00, 0x00, 0x00, 0x00, 0x40, 0x11, 0x00, 0x00, 0xc6, 0x33, 0x64, 0x07,
    0x0a, 0x00, 0x00, 0x02, 0x00, 0x35, 0x13, 0x88, 0x00, 0x08, 0x00, 0x00,
];

/// The same packet with one octet changed.
fn changed(place: usize, octet: u8) -> [u8; 28] {
    let mut packet = DNS_ANSWER;
    if let Some(at) = packet.get_mut(place) {
        *at = octet;
    }
    packet
}

const DNS_HEADER: Header = Header {
    dir: Dir::Down,
    src: Addr::V4(0xc633_6407),
    dst: Addr::V4(0x0a00_0002),
    proto: 17,
    ports: Some(Ports { src: 53, dst: 5000 }),
    octets: 28,
    dscp: 0,
};

#[test]
fn octets_after_the_total_length_are_ignored(rt: HostRuntime) {
    let headers = [
        read_header(Dir::Down, &DNS_ANSWER),
        read_header(Dir::Down, &longer()),
    ];
    expect_equal(&rt, &headers, &[Ok(DNS_HEADER); 2]);
}

/// The packet with 18 octets after it.
fn longer() -> [u8; 46] {
    let mut longer = [0u8; 46];
    for (at, octet) in longer.iter_mut().zip(&DNS_ANSWER) {
        *at = *octet;
    }
    longer
}

/// A UDP packet of 32 octets whose header has four octets of options.
const WITH_OPTIONS: [u8; 32] = [
    0x46, 0x00, 0x00, 0x20, 0x00, 0x00, 0x00, 0x00, 0x40, 0x11, 0x00, 0x00, 0xc6, 0x33, 0x64, 0x07,
    0x0a, 0x00, 0x00, 0x02, 0x01, 0x01, 0x01, 0x01, 0x00, 0x35, 0x13, 0x88, 0x00, 0x08, 0x00, 0x00,
];

#[test]
fn ports_stand_after_the_options(rt: HostRuntime) {
    let expected = Header {
        octets: 32,
        ..DNS_HEADER
    };
    expect_equal(&rt, &read_header(Dir::Down, &WITH_OPTIONS), &Ok(expected));
}

/// The place of the octet that is changed, the octet, and what is read then.
type Change = (usize, u8, Result<Header, PacketFault>);

/// The first change with which something else is read, and what is read.
fn first_wrong(changes: &[Change]) -> Option<Change> {
    for (place, octet, expected) in changes {
        let read = read_header(Dir::Down, &changed(*place, *octet));
        if read != *expected {
            return Some((*place, *octet, read));
        }
    }
    None
}

#[test]
fn changed_packets(rt: HostRuntime) {
    expect_equal(
        &rt,
        &[first_wrong(&FIELDS), first_wrong(&FAULTS)],
        &[None; 2],
    );
}

const FIELDS: [Change; 7] = [
    // The DSCP is the upper six bits.
    (
        1,
        0xbb,
        Ok(Header {
            dscp: 46,
            ..DNS_HEADER
        }),
    ),
    // A later fragment has no ports, but the flags above the offset leave them.
    (
        7,
        0x01,
        Ok(Header {
            ports: None,
            ..DNS_HEADER
        }),
    ),
    (6, 0x20, Ok(DNS_HEADER)),
    // ICMP has no ports, but TCP and SCTP have.
    (
        9,
        1,
        Ok(Header {
            proto: 1,
            ports: None,
            ..DNS_HEADER
        }),
    ),
    (
        9,
        6,
        Ok(Header {
            proto: 6,
            ..DNS_HEADER
        }),
    ),
    (
        9,
        132,
        Ok(Header {
            proto: 132,
            ..DNS_HEADER
        }),
    ),
    // Three octets of payload are no ports.
    (
        3,
        23,
        Ok(Header {
            ports: None,
            octets: 23,
            ..DNS_HEADER
        }),
    ),
];

const FAULTS: [Change; 4] = [
    (0, 0x44, Err(PacketFault::BadHeaderLength)),
    (0, 0x48, Err(PacketFault::BadHeaderLength)),
    (3, 29, Err(PacketFault::BadTotalLength)),
    (3, 19, Err(PacketFault::BadTotalLength)),
];

#[test]
fn faults_come_in_their_order(rt: HostRuntime) {
    let faults = [
        read_header(Dir::Down, &[]),
        read_header(Dir::Down, &[0x25]),
        read_header(Dir::Down, &[0x44]),
    ];
    expect_equal(
        &rt,
        &faults,
        &[
            Err(PacketFault::Empty),
            Err(PacketFault::Version),
            Err(PacketFault::ShortHeader),
        ],
    );
}

#[test]
fn cuts_of_a_packet(rt: HostRuntime) {
    for len in 1..28usize {
        let fault = match len {
            1..=19 => PacketFault::ShortHeader,
            _ => PacketFault::BadTotalLength,
        };
        expect_equal(
            &rt,
            &(len, read_header(Dir::Down, &DNS_ANSWER[..len])),
            &(len, Err(fault)),
        );
    }
}

/// A count of bits, two addresses, and whether they agree in these bits.
type Agreeing = (u8, Addr, Addr, bool);

const AGREEING: [Agreeing; 17] = [
    (0, Addr::V4(0x0000_0000), Addr::V4(0xffff_ffff), true),
    (1, Addr::V4(0x7fff_ffff), Addr::V4(0x8000_0000), false),
    // 198.51.100.7 and 198.51.100.200.
    (24, Addr::V4(0xc633_6407), Addr::V4(0xc633_64c8), true),
    (25, Addr::V4(0xc633_6407), Addr::V4(0xc633_64c8), false),
    (31, Addr::V4(0xc633_6406), Addr::V4(0xc633_6407), true),
    (32, Addr::V4(0xc633_6406), Addr::V4(0xc633_6407), false),
    (32, Addr::V4(0xc633_6407), Addr::V4(0xc633_6407), true),
    (0, Addr::V6(0), Addr::V6(u128::MAX), true),
    (1, Addr::V6(u128::MAX >> 1), Addr::V6(1 << 127), false),
    // 2001:db8::7, and 2001:db9::, 2001:db8:0:1::, 2001:db8::ffff:0:0:0 and 2001:db8::6.
    (31, HOST, Addr::V6(0x2001_0db9 << 96), true),
    (32, HOST, Addr::V6(0x2001_0db9 << 96), false),
    (64, HOST, Addr::V6(0x2001_0db8_0000_0001 << 64), false),
    (64, HOST, Addr::V6(0x2001_0db8_0000_0000_ffff << 48), true),
    (127, HOST, Addr::V6(0x2001_0db8 << 96 | 6), true),
    (128, HOST, Addr::V6(0x2001_0db8 << 96 | 6), false),
    (128, HOST, HOST, true),
    // Addresses of two versions agree in no bits.
    (0, Addr::V4(7), Addr::V6(7), false),
];

/// 2001:db8::7.
const HOST: Addr = Addr::V6(0x2001_0db8_0000_0000_0000_0000_0000_0007);

/// The place of the first of these rows that is otherwise.
fn first_disagreeing(rows: &[Agreeing]) -> Option<usize> {
    for place in 0..rows.len() {
        let (bits, a, b, agree) = rows[place];
        if a.agrees_in(bits, b) != agree || b.agrees_in(bits, a) != agree {
            return Some(place);
        }
    }
    None
}

#[test]
fn addresses_agree_in_their_first_bits(rt: HostRuntime) {
    expect_equal(&rt, &first_disagreeing(&AGREEING), &None);
}

/// An address, that of a session, and whether the first is one of the session's.
type Assigned = (Addr, Addr, bool);

const ASSIGNED: [Assigned; 9] = [
    (Addr::V4(7), Addr::V4(7), true),
    (Addr::V4(7), Addr::V4(6), false),
    (HOST, HOST, true),
    // All hosts of 2001:db8::/64 are, and no others: one of the next network, and one that differs in the first bit.
    (Addr::V6(0x2001_0db8 << 96), HOST, true),
    (
        Addr::V6(0x2001_0db8_0000_0000_ffff_ffff_ffff_ffff),
        HOST,
        true,
    ),
    (
        Addr::V6(0x2001_0db8_0000_0001_0000_0000_0000_0007),
        HOST,
        false,
    ),
    (
        Addr::V6(0xa001_0db8_0000_0000_0000_0000_0000_0007),
        HOST,
        false,
    ),
    (Addr::V4(7), Addr::V6(7), false),
    (Addr::V6(7), Addr::V4(7), false),
];

/// The place of the first of these rows that is otherwise.
fn first_wrong_session(rows: &[Assigned]) -> Option<usize> {
    for place in 0..rows.len() {
        let (addr, ue, assigned) = rows[place];
        if addr.is_assigned(ue) != assigned {
            return Some(place);
        }
    }
    None
}

#[test]
fn addresses_of_a_session(rt: HostRuntime) {
    expect_equal(&rt, &first_wrong_session(&ASSIGNED), &None);
}

#[test]
fn side_of_the_user_equipment(rt: HostRuntime) {
    let uplink = Header {
        dir: Dir::Up,
        ..DNS_HEADER
    };
    let sides = [uplink.ue_side(), DNS_HEADER.ue_side()];
    expect_equal(&rt, &sides, &[Addr::V4(0xc633_6407), Addr::V4(0x0a00_0002)]);
}

/// Texts, and the addresses that they are.
const RIGHT_TEXTS: [(&str, Addr); 24] = [
    ("198.51.100.7", Addr::V4(0xc633_6407)),
    ("0.0.0.0", Addr::V4(0)),
    ("255.255.255.255", Addr::V4(0xffff_ffff)),
    // Leading zeros are no octal numbers.
    ("010.000.00.002", Addr::V4(0x0a00_0002)),
    ("::", Addr::V6(0)),
    ("::1", Addr::V6(1)),
    ("1::", Addr::V6(1 << 112)),
    ("2001:db8::2", Addr::V6(0x2001_0db8 << 96 | 2)),
    ("2001:DB8::2", Addr::V6(0x2001_0db8 << 96 | 2)),
    ("2001:dB8:0000::0002", Addr::V6(0x2001_0db8 << 96 | 2)),
    (
        "1:2:3:4:5:6:7:8",
        Addr::V6(0x0001_0002_0003_0004_0005_0006_0007_0008),
    ),
    ("0:0:0:0:0:0:0:0", Addr::V6(0)),
    (
        "0123:4567:89ab:cdef:FEDC:BA98:7654:3210",
        Addr::V6(0x0123_4567_89ab_cdef_fedc_ba98_7654_3210),
    ),
    (
        "ffff:ffff:ffff:ffff:ffff:ffff:ffff:ffff",
        Addr::V6(u128::MAX),
    ),
    // Two colons may stand for one group, at each place.
    (
        "::2:3:4:5:6:7:8",
        Addr::V6(0x0002_0003_0004_0005_0006_0007_0008),
    ),
    (
        "1::3:4:5:6:7:8",
        Addr::V6(0x0001_0000_0003_0004_0005_0006_0007_0008),
    ),
    (
        "1:2:3:4:5:6::8",
        Addr::V6(0x0001_0002_0003_0004_0005_0006_0000_0008),
    ),
    (
        "1:2:3:4:5:6:7::",
        Addr::V6(0x0001_0002_0003_0004_0005_0006_0007_0000),
    ),
    (
        "1:2::7:8",
        Addr::V6(0x0001_0002_0000_0000_0000_0000_0007_0008),
    ),
    ("::7:8", Addr::V6(0x0007_0008)),
    ("1:2::", Addr::V6(0x0001_0002 << 96)),
    ("::ffff", Addr::V6(0xffff)),
    // One `::` may stand beside groups of zero.
    ("0:0::0", Addr::V6(0)),
    ("0:1::", Addr::V6(1 << 96)),
];

/// Texts that are no addresses.
const WRONG_TEXTS: [&str; 48] = [
    "",
    "10.0.0",
    "10.0.0.2.",
    "10.0.0.2.1",
    "10..0.2",
    "10.0.0.256",
    "10.0.0.0002",
    "10.0.0.+2",
    " 10.0.0.2",
    "0x0a.0.0.2",
    // Eight groups and two colons, and more or fewer groups than eight.
    "1:2:3:4:5:6:7::8",
    "::1:2:3:4:5:6:7:8",
    "1:2:3:4:5:6:7:8::",
    "1:2:3:4:5:6:7:8:9",
    "1:2:3:4:5:6:7",
    "1:2::3:4:5:6:7:8:9",
    // Two colons twice, and three in turn.
    "::1::",
    "1::2::3",
    ":::",
    "2001:::7",
    "::::",
    // A lone colon at an end.
    ":",
    ":1",
    "1:",
    ":1::",
    "::1:",
    ":2:3:4:5:6:7:8",
    "1:2:3:4:5:6:7:",
    ":1:2:3:4:5:6:7:8",
    "1:2:3:4:5:6:7:8:",
    // No hexadecimal digits, or more than four.
    "::12345",
    "00001::",
    "::g",
    "::G",
    "::+1",
    "-1::",
    "0x1::",
    "::1.2.3.4",
    "1.2.3.4::",
    // No digits but those of ASCII.
    "::\u{661}",
    "2001",
    "dead",
    // Blanks, networks, zones and brackets.
    " ::1",
    "::1 ",
    ":: 1",
    "2001:db8::2/64",
    "fe80::1%0",
    "[::1]",
];

/// The first text that isn't this address.
fn first_wrong_text(texts: &[(&'static str, Addr)]) -> Option<&'static str> {
    for (text, addr) in texts {
        if Addr::from_text(text.as_bytes()) != Some(*addr) {
            return Some(text);
        }
    }
    None
}

/// The first text that is an address.
fn first_address(texts: &[&'static str]) -> Option<&'static str> {
    for text in texts {
        if Addr::from_text(text.as_bytes()).is_some() {
            return Some(text);
        }
    }
    None
}

#[test]
fn addresses_in_text(rt: HostRuntime) {
    let wrong = [first_wrong_text(&RIGHT_TEXTS), first_address(&WRONG_TEXTS)];
    expect_equal(&rt, &wrong, &[None; 2]);
}
