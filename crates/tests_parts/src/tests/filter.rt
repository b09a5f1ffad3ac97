//! Texts and packets whose meaning was worked out by hand from RFC 6733, clause 4.3.1.
use super::expect_equal;
use super::filter_v6::{ANSWER_V6, NETWORKS_V6, PACKETS_V6, PLACES_V6, UE_V6};
use pcef_filter::{Direction, Filter, FilterFault, Flow, Place, PortRange, read_filter};
use pcef_packet::{Addr, Dir, Header, Ports};

/// The address of the session, 10.0.0.2.
pub(super) const UE: Addr = Addr::V4(0x0a00_0002);

/// A UDP packet from 198.51.100.7 port 53 to 10.0.0.2 port 5000.
pub(super) const DNS_ANSWER: Header = Header {
    dir: Dir::Down,
    src: Addr::V4(0xc633_6407),
    dst: UE,
    proto: 17,
    ports: Some(Ports { src: 53, dst: 5000 }),
    octets: 28,
    dscp: 0,
};

/// The way back: the same packet with its sides exchanged.
pub(super) const DNS_QUESTION: Header = Header {
    dir: Dir::Up,
    src: UE,
    dst: Addr::V4(0xc633_6407),
    ports: Some(Ports { src: 5000, dst: 53 }),
    ..DNS_ANSWER
};

pub(super) const NO_PORTS: Header = Header {
    ports: None,
    ..DNS_ANSWER
};

#[test]
fn parts_of_a_filter(rt: HostRuntime) {
    expect_equal(
        &rt,
        &parts_and_copies("permit out 17 from any 53 to assigned"),
        &Some((
            (Direction::Out, None, Some(17), Place::Any, Place::Assigned),
            [true, true, true, true],
        )),
    );
}

/// The direction word, the flow word, the protocol, and the places of both sides.
type Parts = (Direction, Option<Flow>, Option<u8>, Place, Place);

/// The parts of the filter that a text is, and whether its ports and its copies are right.
fn parts_and_copies(text: &str) -> Option<(Parts, [bool; 4])> {
    let filter = read_filter(text, None).ok()?;
    Some((parts(&filter), is_right(&filter)))
}

fn parts(filter: &Filter) -> Parts {
    (
        filter.direction,
        filter.flow,
        filter.proto,
        filter.source.place,
        filter.target.place,
    )
}

/// Whether the source has the port 53 alone and the target none, and whether copies are equal.
fn is_right(filter: &Filter) -> [bool; 4] {
    let dns = [PortRange {
        first: 53,
        last: 53,
    }];
    [
        filter.source.ports.as_slice() == dns.as_slice(),
        filter.target.ports.is_empty(),
        filter.copy() == *filter,
        filter.source.copy() == filter.source,
    ]
}

/// A text without a flow word, and its fault.
pub(super) type Text = (&'static str, Option<FilterFault>);

/// The first text that has another fault than this, with the fault that it has.
fn first_wrong(texts: &[Text]) -> Option<Text> {
    for (text, fault) in texts {
        if fault_of(text) != *fault {
            return Some((text, fault_of(text)));
        }
    }
    None
}

fn fault_of(text: &str) -> Option<FilterFault> {
    read_filter(text, None).err()
}

#[test]
fn faults_of_texts(rt: HostRuntime) {
    let wrong = [
        first_wrong(&CUTS),
        first_wrong(&TOKENS),
        first_wrong(&BLANKS_AND_ZEROS),
        first_wrong(&PLACES),
        first_wrong(&PORT_LISTS),
        first_wrong(&PLACES_V6),
    ];
    expect_equal(&rt, &wrong, &[None; 6]);
}

/// Texts that end early.
const CUTS: [Text; 9] = [
    ("", Some(FilterFault::Action)),
    ("permit", Some(FilterFault::Direction)),
    ("permit out", Some(FilterFault::Proto)),
    ("permit out 17", Some(FilterFault::From)),
    ("permit out 17 from", Some(FilterFault::Source)),
    ("permit out 17 from any", Some(FilterFault::To)),
    ("permit out 17 from any 53", Some(FilterFault::To)),
    ("permit out 17 from any 53 to", Some(FilterFault::Target)),
    ("permit out 17 from any 53 to assigned", None),
];

/// Tokens that do not fit.
const TOKENS: [Text; 11] = [
    ("deny out ip from any to any", Some(FilterFault::Action)),
    (
        "permit inout ip from any to any",
        Some(FilterFault::Direction),
    ),
    ("permit out 256 from any to any", Some(FilterFault::Proto)),
    ("permit out ip for any to any", Some(FilterFault::From)),
    ("permit out ip from all to any", Some(FilterFault::Source)),
    (
        "permit out ip from any 65536 to any",
        Some(FilterFault::SourcePorts),
    ),
    ("permit out ip from any 53 54 to any", Some(FilterFault::To)),
    ("permit out ip from any to all", Some(FilterFault::Target)),
    (
        "permit out ip from any to any 1x",
        Some(FilterFault::TargetPorts),
    ),
    (
        "permit out ip from any to any frag",
        Some(FilterFault::Rest),
    ),
    ("permit out ip from any to any 1 2", Some(FilterFault::Rest)),
];

#[test]
fn flow_words_are_judged_last(rt: HostRuntime) {
    let uplink = "permit in ip from any to any";
    let faults = [
        fault_of(uplink),
        fault_for_downlink(uplink),
        fault_for_downlink("permit in"),
        fault_for_downlink("permit out ip from any to any"),
    ];
    expect_equal(
        &rt,
        &faults,
        &[
            None,
            Some(FilterFault::Flow),
            Some(FilterFault::Proto),
            None,
        ],
    );
}

fn fault_for_downlink(text: &str) -> Option<FilterFault> {
    read_filter(text, Some(Flow::Downlink)).err()
}

/// Too many leading zeros, and a line break that is no blank.
const BLANKS_AND_ZEROS: [Text; 3] = [
    (
        "permit out 000017 from any to any",
        Some(FilterFault::Proto),
    ),
    (
        "permit out 17 from any 000053 to any",
        Some(FilterFault::SourcePorts),
    ),
    ("permit\nout ip from any to any", Some(FilterFault::Action)),
];

/// Places that are none.
const PLACES: [Text; 9] = [
    (
        "permit out ip from 198.51.100 to any",
        Some(FilterFault::Source),
    ),
    (
        "permit out ip from 198.51.100.7.1 to any",
        Some(FilterFault::Source),
    ),
    (
        "permit out ip from 198.51.100.256 to any",
        Some(FilterFault::Source),
    ),
    (
        "permit out ip from 198.51.100.0007 to any",
        Some(FilterFault::Source),
    ),
    (
        "permit out ip from 198.51..7 to any",
        Some(FilterFault::Source),
    ),
    (
        "permit out ip from 198.51.100.7/33 to any",
        Some(FilterFault::Source),
    ),
    (
        "permit out ip from 198.51.100.7/ to any",
        Some(FilterFault::Source),
    ),
    (
        "permit out ip from 198.51.100.7/24/24 to any",
        Some(FilterFault::Source),
    ),
    (
        "permit out ip from 198.51.100.7/000024 to any",
        Some(FilterFault::Source),
    ),
];

/// Port lists: at most eight ranges, each with its lower port first, and none cut off.
const PORT_LISTS: [Text; 7] = [
    ("permit out 17 from any 1,2,3-4,5,6,7,8,53 to any", None),
    (
        "permit out 17 from any 1,2,3,4,5,6,7,8,9 to any",
        Some(FilterFault::SourcePorts),
    ),
    (
        "permit out 6 from any 90-80 to any",
        Some(FilterFault::SourcePorts),
    ),
    ("permit out 17 from any to any 80-90", None),
    (
        "permit out 17 from any to any 90-80",
        Some(FilterFault::TargetPorts),
    ),
    (
        "permit out 17 from any to any 80-",
        Some(FilterFault::TargetPorts),
    ),
    (
        "permit out 17 from any to any 80,",
        Some(FilterFault::TargetPorts),
    ),
];

/// A text with a flow word or none, a header, and whether the filter matches packets of this header.
pub(super) type Match = (&'static str, Option<Flow>, Header, bool);

/// The text of the first match that is otherwise in a session of this address.
fn first_wrong_match(ue: Addr, matching: &[Match]) -> Option<&'static str> {
    for (text, flow, header, expected) in matching {
        if matches(ue, text, *flow, header) != Some(*expected) {
            return Some(text);
        }
    }
    None
}

/// Whether the filter that a text and a flow word are matches a packet of this header; nothing where they are none.
fn matches(ue: Addr, text: &str, flow: Option<Flow>, header: &Header) -> Option<bool> {
    let filter = read_filter(text, flow).ok()?;
    Some(filter.matches(ue, header))
}

#[test]
fn packets_and_filters(rt: HostRuntime) {
    let wrong = [
        first_wrong_match(UE, &PACKETS),
        first_wrong_match(UE, &NETWORKS),
        first_wrong_match(UE, &FLOW_WORDS),
        first_wrong_match(UE, &OTHER_VERSION),
        first_wrong_match(UE_V6, &PACKETS_V6),
        first_wrong_match(UE_V6, &NETWORKS_V6),
    ];
    expect_equal(&rt, &wrong, &[None; 6]);
}

pub(super) const DNS: &str = "permit out 17 from any 53 to assigned";

/// Protocols, ports and sides.
const PACKETS: [Match; 9] = [
    // Blanks and leading zeros.
    (
        "\t permit  out\t017 from 198.051.100.007/00024 \t00053 to assigned 05000 ",
        None,
        DNS_ANSWER,
        true,
    ),
    (DNS, None, DNS_ANSWER, true),
    (DNS, None, DNS_QUESTION, false),
    (DNS, None, NO_PORTS, false),
    ("permit out ip from any to any", None, NO_PORTS, true),
    (
        "permit out 6 from any 53 to assigned",
        None,
        DNS_ANSWER,
        false,
    ),
    (
        "permit out 17 from any 1,50-53 to assigned",
        None,
        DNS_ANSWER,
        true,
    ),
    (
        "permit out 17 from any 1-52,54 to assigned",
        None,
        DNS_ANSWER,
        false,
    ),
    (
        "permit out 17 from assigned to any",
        None,
        DNS_ANSWER,
        false,
    ),
];

/// Addresses and networks.
const NETWORKS: [Match; 5] = [
    (
        "permit out ip from 198.51.100.7 to 10.0.0.2/32",
        None,
        DNS_ANSWER,
        true,
    ),
    (
        "permit out ip from 198.51.100.6 to any",
        None,
        DNS_ANSWER,
        false,
    ),
    // Bits below the mask don't count, and of 25 bits the last is another.
    (
        "permit out ip from 198.51.100.250/24 to any",
        None,
        DNS_ANSWER,
        true,
    ),
    (
        "permit out ip from 198.51.100.250/25 to any",
        None,
        DNS_ANSWER,
        false,
    ),
    (
        "permit out ip from 255.255.255.255/0 to any",
        None,
        DNS_ANSWER,
        true,
    ),
];

/// Flow words, and the direction `in`.
const FLOW_WORDS: [Match; 8] = [
    (DNS, Some(Flow::Downlink), DNS_ANSWER, true),
    (DNS, Some(Flow::Downlink), DNS_QUESTION, false),
    (DNS, Some(Flow::Uplink), DNS_ANSWER, false),
    (DNS, Some(Flow::Uplink), DNS_QUESTION, true),
    (DNS, Some(Flow::Bidirectional), DNS_ANSWER, true),
    (DNS, Some(Flow::Bidirectional), DNS_QUESTION, true),
    (
        "permit in 17 from assigned to any 53",
        None,
        DNS_QUESTION,
        true,
    ),
    ("permit in ip from any to any", None, DNS_ANSWER, false),
];

/// Packets of version 6 in a session of version 4.
const OTHER_VERSION: [Match; 4] = [
    (DNS, None, ANSWER_V6, false),
    ("permit out ip from any to any", None, ANSWER_V6, true),
    (
        "permit out ip from 0.0.0.0/0 to any",
        None,
        ANSWER_V6,
        false,
    ),
    ("permit out ip from ::/0 to any", None, ANSWER_V6, true),
];
