//! Texts and packets of version 6, whose meaning was worked out by hand from RFC 6733, clause 4.3.1.
use super::filter::{DNS, DNS_ANSWER, DNS_QUESTION, Match, Text};
use pcef_filter::{FilterFault, Flow};
use pcef_packet::{Addr, Header};

/// The address of the session of version 6, 2001:db8::2, which has the network 2001:db8::/64.
pub(super) const UE_V6: Addr = Addr::V6(0x2001_0db8 << 96 | 2);

/// The packet between 2001:db8::7 and 2001:db8::2.
pub(super) const ANSWER_V6: Header = Header {
    src: Addr::V6(0x2001_0db8 << 96 | 7),
    dst: UE_V6,
    ..DNS_ANSWER
};

const QUESTION_V6: Header = Header {
    src: UE_V6,
    dst: Addr::V6(0x2001_0db8 << 96 | 7),
    ..DNS_QUESTION
};

/// The answer to 2001:db8::3, another host of the session's network.
const TO_ANOTHER_HOST: Header = Header {
    dst: Addr::V6(0x2001_0db8 << 96 | 3),
    ..ANSWER_V6
};

/// The answer to 2001:db8:0:1::2, a host of the next network.
const TO_THE_NEXT_NETWORK: Header = Header {
    dst: Addr::V6(0x2001_0db8_0000_0001 << 64 | 2),
    ..ANSWER_V6
};

const NO_PORTS_V6: Header = Header {
    ports: None,
    ..ANSWER_V6
};

/// Places of version 6. A token behind the source that begins with a digit is a port list, and any other one has to be
/// `to`.
pub(super) const PLACES_V6: [Text; 19] = [
    ("permit out ip from ::/0 to 2001:DB8::2/128", None),
    ("permit out ip from ::1/00064 to 10.0.0.0/8", None),
    ("permit out ip from 2001:db8:: 7 to any", None),
    (
        "permit out ip from 2001:db8::7/129 to any",
        Some(FilterFault::Source),
    ),
    (
        "permit out ip from 2001:db8::7/ to any",
        Some(FilterFault::Source),
    ),
    (
        "permit out ip from ::/64/64 to any",
        Some(FilterFault::Source),
    ),
    (
        "permit out ip from ::/000000 to any",
        Some(FilterFault::Source),
    ),
    (
        "permit out ip from 2001:::7 to any",
        Some(FilterFault::Source),
    ),
    ("permit out ip from ::g to any", Some(FilterFault::Source)),
    (
        "permit out ip from ::1.2.3.4 to any",
        Some(FilterFault::Source),
    ),
    (
        "permit out ip from 2001:db8 ::7 to any",
        Some(FilterFault::Source),
    ),
    ("permit out ip from : to any", Some(FilterFault::Source)),
    (
        "permit out ip from any 2001:db8::1 to any",
        Some(FilterFault::SourcePorts),
    ),
    ("permit out ip from any ::1 to any", Some(FilterFault::To)),
    (
        "permit out ip from any abcd::1 to any",
        Some(FilterFault::To),
    ),
    (
        "permit out ip from any to 2001:db8::7/129",
        Some(FilterFault::Target),
    ),
    (
        "permit out ip from any to 1:2:3:4:5:6:7::8",
        Some(FilterFault::Target),
    ),
    (
        "permit out ip from any to any 2001:db8::1",
        Some(FilterFault::TargetPorts),
    ),
    ("permit out ip from any to any ::1", Some(FilterFault::Rest)),
];

/// Sides, ports and flow words in a session of version 6, which has all addresses of its network.
pub(super) const PACKETS_V6: [Match; 17] = [
    (DNS, None, ANSWER_V6, true),
    (DNS, None, TO_ANOTHER_HOST, true),
    (DNS, None, TO_THE_NEXT_NETWORK, false),
    (DNS, None, DNS_ANSWER, false),
    (DNS, None, NO_PORTS_V6, false),
    ("permit out ip from any to any", None, NO_PORTS_V6, true),
    (
        "permit out 17 from 2001:db8::/32 53 to assigned",
        None,
        ANSWER_V6,
        true,
    ),
    (
        "permit out 17 from 2001:db8::/32 53 to assigned",
        None,
        TO_ANOTHER_HOST,
        true,
    ),
    (
        "permit out 17 from 2001:db8::/32 53 to assigned",
        None,
        TO_THE_NEXT_NETWORK,
        false,
    ),
    (
        "permit out 17 from 2001:DB8::7 1,50-53 to 2001:db8::2/128 5000",
        None,
        ANSWER_V6,
        true,
    ),
    (
        "permit out 17 from 2001:db8::7 1-52,54 to 2001:db8::2",
        None,
        ANSWER_V6,
        false,
    ),
    (
        "permit out 17 from 2001:db8::7 to 2001:db8::2 5001",
        None,
        ANSWER_V6,
        false,
    ),
    (
        "permit out 6 from 2001:db8::7 to any",
        None,
        ANSWER_V6,
        false,
    ),
    // The network is the session's, but a host in a filter is that host alone.
    (
        "permit out ip from any to 2001:db8::2",
        None,
        TO_ANOTHER_HOST,
        false,
    ),
    (
        "permit out 17 from 2001:db8::7 53 to assigned",
        Some(Flow::Uplink),
        QUESTION_V6,
        true,
    ),
    (
        "permit out 17 from 2001:db8::7 53 to assigned",
        Some(Flow::Bidirectional),
        ANSWER_V6,
        true,
    ),
    (
        "permit in 17 from assigned 5000 to 2001:db8::7 53",
        None,
        QUESTION_V6,
        true,
    ),
];

/// Networks and hosts around 2001:db8::7.
pub(super) const NETWORKS_V6: [Match; 17] = [
    (
        "permit out ip from 0.0.0.0/0 to any",
        None,
        ANSWER_V6,
        false,
    ),
    (
        "permit out ip from any to 0.0.0.0/0",
        None,
        ANSWER_V6,
        false,
    ),
    ("permit out ip from ::/0 to any", None, DNS_ANSWER, false),
    ("permit out ip from ::/0 to ::/0", None, ANSWER_V6, true),
    // Bits below the mask don't count.
    ("permit out ip from ffff::/0 to any", None, ANSWER_V6, true),
    ("permit out ip from 7fff::/1 to any", None, ANSWER_V6, true),
    ("permit out ip from a001::/1 to any", None, ANSWER_V6, false),
    (
        "permit out ip from 2001:db9::/31 to any",
        None,
        ANSWER_V6,
        true,
    ),
    (
        "permit out ip from 2001:db9::/32 to any",
        None,
        ANSWER_V6,
        false,
    ),
    (
        "permit out ip from 2001:db8:0:1::/63 to any",
        None,
        ANSWER_V6,
        true,
    ),
    (
        "permit out ip from 2001:db8:0:1::/64 to any",
        None,
        ANSWER_V6,
        false,
    ),
    (
        "permit out ip from 2001:db8::ffff:ffff:ffff:ffff/64 to any",
        None,
        ANSWER_V6,
        true,
    ),
    (
        "permit out ip from 2001:db8::8000:0:0:0/65 to any",
        None,
        ANSWER_V6,
        false,
    ),
    (
        "permit out ip from 2001:db8::6/127 to any",
        None,
        ANSWER_V6,
        true,
    ),
    (
        "permit out ip from 2001:db8::6/128 to any",
        None,
        ANSWER_V6,
        false,
    ),
    (
        "permit out ip from 2001:db8::6 to any",
        None,
        ANSWER_V6,
        false,
    ),
    (
        "permit out ip from 2001:db8::7/00128 to any",
        None,
        ANSWER_V6,
        true,
    ),
];
