//! Small catalogs and shapes, whose answers were worked out by hand.
ghost use Rattle.std.specs.Prelude.{◌≡◌, [], ◌∷◌};
ghost use Rattle.pcef_catalog.specs.Shapes.{test_holds};
ghost use Rattle.pcef_catalog.specs.declared.shape.Test.TheVariants.{Dscp};

use super::expect_equal;
use arrayvec::ArrayVec;
use pcef_catalog::{Alternative, Catalog, Detect, Detects, Predefined, Shape, Test};
use pcef_filter::Net;
use pcef_packet::{Addr, Dir, Header, Ports};
use pcef_rule::{Arp, Gate, Properties, Qci, Qos, RuleName};
use std::alloc::Global;
use std::sync::Arc;
use std::sync::atomic::{AtomicU64, Ordering};

/// A UDP packet of 28 octets from 198.51.100.7 port 53 to 10.0.0.2 port 5000.
const DNS_ANSWER: Header = Header {
    dir: Dir::Down,
    src: Addr::V4(0xc633_6407),
    dst: Addr::V4(0x0a00_0002),
    proto: 17,
    ports: Some(Ports { src: 53, dst: 5000 }),
    octets: 28,
    dscp: 46,
};

/// What the answer answers.
const DNS_QUERY: Header = Header {
    dir: Dir::Up,
    src: Addr::V4(0x0a00_0002),
    dst: Addr::V4(0xc633_6407),
    ports: Some(Ports { src: 5000, dst: 53 }),
    ..DNS_ANSWER
};

const PORTLESS_ANSWER: Header = Header {
    ports: None,
    ..DNS_ANSWER
};

const PLAIN_ANSWER: Header = Header {
    dscp: 0,
    ..DNS_ANSWER
};

const PLAIN_QUERY: Header = Header {
    dscp: 0,
    ..DNS_QUERY
};

/// The network 198.51.100.0/24.
const REMOTE: Net = Net {
    addr: Addr::V4(0xc633_6400),
    bits: 24,
};

/// The network 10.0.0.0/8.
const LOCAL: Net = Net {
    addr: Addr::V4(0x0a00_0000),
    bits: 8,
};

/// A shape of one test.
pub(crate) fn one(test: Test) -> Shape
    ensures { result ≡ (test ∷ []) ∷ [] }
{
    let mut tests = ArrayVec::new();
    tests.push(test);
    let mut alternatives = ArrayVec::new();
    alternatives.push(Alternative { tests });
    Shape::new(alternatives)
}

pub(crate) fn named(name: RuleName) -> Properties {
    Properties {
        name,
        precedence: 50,
        qos: Qos {
            qci: Qci(9),
            arp: Arp::known(8, false, true),
        },
        rates: None,
        gate: Gate::Enabled,
        key: None,
    }
}

#[test]
fn the_closure_is_called(rt: HostRuntime) {
    expect_equal(
        &rt,
        &answers_and_calls(rt.alloc()),
        &Some((
            (true, 1),
            1,
            [
                (true, 2),
                (false, 3),
                // No rule stands at the next place.
                (false, 3),
            ],
        )),
    );
}

/// Whether a rule detects a packet, and how many calls of its closure there were then; how many when a catalog has the
/// rule; and the answers of the catalog, each with how many calls there were then.
type Answers = ((bool, u64), u64, [(bool, u64); 3]);

fn answers_and_calls(alloc: Global) -> Option<Answers> {
    let calls = Arc::new(alloc, AtomicU64::new(0)).ok()?;
    let theirs = Arc::try_clone(&calls).ok()?;
    let detect: Detect = Box::new(
        alloc,
        move |h: &Header| -> bool
            ensures { result ≡ test_holds h.now (Dscp 46) }
        {
            theirs.fetch_add(1, Ordering::SeqCst);
            h.dscp == 46
        },
    )
    .ok()?;
    let rule = Predefined::new(named(RuleName::known("voice")), one(Test::Dscp(46)), detect);
    of_rule_and_catalog(alloc, rule, &calls)
}

/// The same of a rule whose closure counts its calls there.
fn of_rule_and_catalog(alloc: Global, rule: Predefined, calls: &AtomicU64) -> Option<Answers> {
    let by_rule = (rule.detects(&DNS_ANSWER), calls.load(Ordering::SeqCst));
    let mut rules = Vec::new(alloc);
    rules.push(rule).ok()?;
    let catalog = Catalog::new(alloc, rules).ok()?;
    let held = calls.load(Ordering::SeqCst);
    Some((by_rule, held, by_catalog(&catalog, calls)))
}

fn by_catalog(catalog: &Catalog, calls: &AtomicU64) -> [(bool, u64); 3] {
    [
        asked(catalog, calls, 0, &DNS_ANSWER),
        asked(catalog, calls, 0, &PLAIN_ANSWER),
        asked(catalog, calls, 1, &DNS_ANSWER),
    ]
}

fn asked(catalog: &Catalog, calls: &AtomicU64, index: u8, header: &Header) -> (bool, u64) {
    (catalog.detects(index, header), calls.load(Ordering::SeqCst))
}

/// Tests, and whether each is true of the answer, of the query, and of the answer without ports.
const TESTS: [(Test, [bool; 3]); 16] = [
    (Test::Proto(17), [true, true, true]),
    (Test::Proto(6), [false, false, false]),
    (Test::Dscp(46), [true, true, true]),
    (Test::Dscp(0), [false, false, false]),
    (Test::RemotePort(53, 53), [true, true, false]),
    (Test::RemotePort(0, 52), [false, false, false]),
    (Test::RemotePort(54, 65535), [false, false, false]),
    (Test::LocalPort(5000, 5001), [true, true, false]),
    (Test::LocalPort(4999, 5000), [true, true, false]),
    (Test::LocalPort(53, 53), [false, false, false]),
    (Test::RemoteIn(REMOTE), [true, true, true]),
    (Test::RemoteIn(LOCAL), [false, false, false]),
    (Test::OctetsAtMost(28), [true, true, true]),
    (Test::OctetsAtMost(27), [false, false, false]),
    (Test::Going(Dir::Down), [true, false, true]),
    (Test::Going(Dir::Up), [false, true, false]),
];

#[test]
fn tests_of_a_header(rt: HostRuntime) {
    for (test, wanted) in &TESTS {
        expect_equal(&rt, &(test, answers(*test)), &(test, *wanted));
    }
}

/// The answer and the query between 2001:db8::7 and 2001:db8::2.
const ANSWER_V6: Header = Header {
    src: Addr::V6(0x2001_0db8 << 96 | 7),
    dst: Addr::V6(0x2001_0db8 << 96 | 2),
    ..DNS_ANSWER
};

const QUERY_V6: Header = Header {
    src: Addr::V6(0x2001_0db8 << 96 | 2),
    dst: Addr::V6(0x2001_0db8 << 96 | 7),
    ..DNS_QUERY
};

/// Networks, and whether the remote side of the packets of version 6 is in each, and that of the packets of version 4.
const REMOTES: [(Addr, u8, [bool; 2]); 11] = [
    (Addr::V6(u128::MAX), 0, [true, false]),
    (Addr::V4(0), 0, [false, true]),
    (
        Addr::V6(0x2001_0db8_0000_0000_ffff << 48),
        64,
        [true, false],
    ),
    (Addr::V6(0x2001_0db8_0000_0001 << 64), 64, [false; 2]),
    (Addr::V6(0x2001_0db8_0000_0001 << 64), 63, [true, false]),
    (Addr::V6(0x2001_0db8 << 96 | 7), 128, [true, false]),
    (Addr::V6(0x2001_0db8 << 96 | 6), 128, [false; 2]),
    (Addr::V6(0x2001_0db8 << 96 | 6), 127, [true, false]),
    // The user equipment's own address isn't the remote one.
    (Addr::V6(0x2001_0db8 << 96 | 2), 128, [false; 2]),
    (Addr::V4(0xc633_6407), 32, [false, true]),
    // 2001:db8::c633:6407 ends in the octets of the address of version 4.
    (Addr::V6(0x2001_0db8 << 96 | 0xc633_6407), 96, [true, false]),
];

/// The first network that the remote sides are otherwise in.
fn first_wrong_remote(remotes: &[(Addr, u8, [bool; 2])]) -> Option<(Addr, u8)> {
    for (addr, bits, [six, four]) in remotes {
        let test = Test::RemoteIn(Net {
            addr: *addr,
            bits: *bits,
        });
        if are_remote(test) != [*six, *six, *four, *four] {
            return Some((*addr, *bits));
        }
    }
    None
}

fn are_remote(test: Test) -> [bool; 4] {
    [
        test.holds(&ANSWER_V6),
        test.holds(&QUERY_V6),
        test.holds(&DNS_ANSWER),
        test.holds(&DNS_QUERY),
    ]
}

#[test]
fn remote_networks_of_both_versions(rt: HostRuntime) {
    expect_equal(&rt, &first_wrong_remote(&REMOTES), &None);
}

/// The answers of a test to the three packets.
fn answers(test: Test) -> [bool; 3] {
    [
        test.holds(&DNS_ANSWER),
        test.holds(&DNS_QUERY),
        test.holds(&PORTLESS_ANSWER),
    ]
}

/// An alternative without tests is true of every packet, and a shape without alternatives of none.
#[test]
fn no_tests_and_no_alternatives(rt: HostRuntime) {
    let mut alternatives = ArrayVec::new();
    alternatives.push(Alternative::default());
    let answers = [
        Shape::new(alternatives).holds(&DNS_ANSWER),
        Shape::new(ArrayVec::new()).holds(&DNS_ANSWER),
    ];
    expect_equal(&rt, &answers, &[true, false]);
}

/// All tests of an alternative are to be true, and one alternative is enough.
#[test]
fn alternatives_and_their_tests(rt: HostRuntime) {
    let shape = downlink_or_plain();
    let answers = [
        shape.holds(&DNS_ANSWER),
        shape.holds(&DNS_QUERY),
        shape.holds(&PLAIN_QUERY),
    ];
    expect_equal(&rt, &answers, &[true, false, true]);
}

/// UDP that goes down, or a DSCP of 0.
fn downlink_or_plain() -> Shape {
    let mut downlink = Alternative::default();
    downlink.tests.push(Test::Proto(17));
    downlink.tests.push(Test::Going(Dir::Down));
    let mut plain = Alternative::default();
    plain.tests.push(Test::Dscp(0));
    let mut alternatives = ArrayVec::new();
    alternatives.push(downlink);
    alternatives.push(plain);
    Shape::new(alternatives)
}
