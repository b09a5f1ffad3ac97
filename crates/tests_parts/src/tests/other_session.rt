//! An index is made for its session's address, and judges the packets of any other one as well.

use crate::tests::expect_equal;
use crate::tests::tables::{ALL, DNS_ANSWER, UE, empty_catalog, padded, passed, table_of};
use pcef_index::Indexed;
use pcef_model::Verdict;
use pcef_packet::{Addr, Header};
use pcef_rule::Gate;
use std::alloc::Global;

/// The address of another session.
const OTHER: Addr = Addr::V4(0x0a00_0003);

/// What the packets of that session match alone.
const FOR_OTHER: &str = "permit out ip from any to 10.0.0.3";

/// The packet of the tests, to that session.
const ANSWER_TO_OTHER: Header = Header {
    dst: OTHER,
    ..DNS_ANSWER
};

/// What a table for a session decides of a packet to it, and of one to another session.
fn verdicts(alloc: Global) -> Option<[Verdict; 2]> {
    let catalog = empty_catalog(alloc)?;
    let variants = [
        ("a", 10, Gate::Enabled, 5, ALL),
        ("b", 5, Gate::Enabled, 6, FOR_OTHER),
    ];
    let few = table_of(alloc, &catalog, &variants)?;
    let table = padded(alloc, &catalog, &few)?;
    let indexed = Indexed::new(alloc, table, &catalog, UE).ok()?;
    Some([
        indexed.classify(&catalog, UE, &DNS_ANSWER),
        indexed.classify(&catalog, OTHER, &ANSWER_TO_OTHER),
    ])
}

/// What is expected of them.
fn expected() -> Option<[Verdict; 2]> {
    Some([passed("a", 5)?, passed("b", 6)?])
}

#[test]
fn a_packet_of_another_session_meets_the_filter_that_was_left_out(rt: HostRuntime) {
    expect_equal(&rt, &verdicts(rt.alloc()), &expected());
}
