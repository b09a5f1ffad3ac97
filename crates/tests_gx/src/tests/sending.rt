//! Messages that are sent, as octets worked by another program and dissected by tshark (RFC 6733, clauses 3 and 4.1).

use super::expect_equal;
use super::hexadecimal::{is_hexadecimal_of, octets};
use pcef_diameter::{Avp, MessageHeader};
use pcef_gx::{GxFault, NameOf, Problem, RuleFailure, RuleReport, RuleStatus};
use pcef_gx_messages::{
    AnswerRoom, GX, Identity, Outcome, RequestKind, RequestMark, refuse, request,
};
use std::alloc::Global;

/// The header of a RAR that may be proxied.
static RAR: MessageHeader = MessageHeader {
    version: 1,
    len: 200,
    request: true,
    proxiable: true,
    error: false,
    retransmitted: true,
    command: 258,
    application: GX,
    hop_by_hop: 7,
    end_to_end: 9,
};

/// The same that came again with another Hop-by-Hop Identifier.
static RAR_AGAIN: MessageHeader = MessageHeader {
    version: 1,
    len: 200,
    request: true,
    proxiable: true,
    error: false,
    retransmitted: true,
    command: 258,
    application: GX,
    hop_by_hop: 0x1234_5678,
    end_to_end: 9,
};

/// A RAA with DIAMETER_SUCCESS.
const DONE: &str = "\
    0100005c40000102010000160000000700000009000001074000001667772e6578616d706c653b313b3200000000010c\
    4000000c000007d1000001084000001267772e6578616d706c650000000001284000000f6578616d706c6500";

/// The same to a request that came again with another Hop-by-Hop Identifier.
const DONE_AGAIN: &str = "\
    0100005c40000102010000161234567800000009000001074000001667772e6578616d706c653b313b3200000000010c\
    4000000c000007d1000001084000001267772e6578616d706c650000000001284000000f6578616d706c6500";

/// A RAA with DIAMETER_PCC_RULE_EVENT, and the report of a rule.
const RULES_FAILED: &str = "\
    010000b040000102010000160000000700000009000001074000001667772e6578616d706c653b313b32000000000129\
    400000200000010a4000000c000028af0000012a4000000c00001416000001084000001267772e6578616d706c650000\
    000001284000000f6578616d706c6500000003fac0000040000028af000003edc0000011000028af766f696365000000\
    000003fbc0000010000028af0000000100000407c0000010000028af0000000b";

/// A RAA with DIAMETER_INVALID_AVP_BITS, whose Failed-AVP has an empty Destination-Realm.
const AT_FAULT: &str = "\
    0100006c60000102010000160000000700000009000001074000001667772e6578616d706c653b313b3200000000010c\
    4000000c00000bc1000001084000001267772e6578616d706c650000000001284000000f6578616d706c650000000117\
    400000100000011b40000008";

/// The same to a request that came again, with the E bit too.
const AT_FAULT_AGAIN: &str = "\
    0100006c60000102010000161234567800000009000001074000001667772e6578616d706c653b313b3200000000010c\
    4000000c00000bc1000001084000001267772e6578616d706c650000000001284000000f6578616d706c650000000117\
    400000100000011b40000008";

/// A CCR-U that comes again, with the usage of a key.
const UPDATE: &str = "\
    010000ccd0000110010000160000000700000009000001074000001667772e6578616d706c653b313b32000000000102\
    4000000c01000016000001084000001267772e6578616d706c650000000001284000000f6578616d706c65000000011b\
    40000014706372662e6578616d706c65000001a04000000c000000020000019f4000000c00000004000003eec0000010\
    000028af000000210000042b80000034000028af0000042a8000000f000028af76696400000001be40000018000001a5\
    40000010000000012a05f200";

/// What the CCR-U reports.
const USAGE: &str = "\
    000003eec0000010000028af000000210000042b80000034000028af0000042a8000000f000028af76696400000001be\
    40000018000001a540000010000000012a05f200";

/// The report in the second message.
static REPORTS: [RuleReport; 1] = [RuleReport {
    name: b"voice",
    of: NameOf::Rule,
    status: RuleStatus::Inactive,
    failure: RuleFailure::UnsuccessfulQosValidation,
}];

/// The fault of a reserved bit in a Destination-Realm.
static BITS: Outcome = Outcome::Fault(GxFault {
    problem: Problem::InvalidAvpBits,
    failed: Avp {
        code: 283,
        vendor: None,
        mandatory: true,
        protected: false,
        octets: &[],
    },
});

fn identity<'a>() -> Option<Identity<'a>> {
    Identity::new(
        b"gw.example;1;2",
        b"gw.example",
        b"example",
        b"pcrf.example",
    )
}

/// Whether the answer with the report of a rule is as due.
fn is_told(alloc: Global, identity: &Identity) -> bool {
    match AnswerRoom::new(alloc, 73) {
        Ok(room) => {
            let answer = room.answer(identity, &RAR, &Outcome::RulesFailed, &REPORTS, &[]);
            is_hexadecimal_of(answer.octets(), RULES_FAILED)
        }
        Err(_) => false,
    }
}

/// Whether an answer without reports is as due, and then again for a RAR that came again.
fn is_answered(alloc: Global, identity: &Identity, outcome: &Outcome, due: [&str; 2]) -> bool {
    match refuse(alloc, identity, &RAR, outcome, &[]) {
        Ok(mut answer) => {
            let is_due = is_hexadecimal_of(answer.octets(), due[0]);
            answer.repeat(&RAR_AGAIN);
            is_due && is_hexadecimal_of(answer.octets(), due[1])
        }
        Err(_) => false,
    }
}

/// Whether a CCR-U that comes again is as due.
fn is_updated(alloc: Global, identity: &Identity, usage: &[u8]) -> bool {
    let mark = RequestMark {
        hop_by_hop: 7,
        end_to_end: 9,
        retransmitted: true,
    };
    if usage.len() > 1000 {
        return false;
    }
    match request(alloc, identity, mark, RequestKind::Update, 4, usage) {
        Ok(message) => is_hexadecimal_of(&message, UPDATE),
        Err(_) => false,
    }
}

/// Which messages are as due.
fn found(alloc: Global) -> [bool; 4] {
    match identity() {
        Some(identity) => [
            is_answered(alloc, &identity, &Outcome::Success, [DONE, DONE_AGAIN]),
            is_told(alloc, &identity),
            is_answered(alloc, &identity, &BITS, [AT_FAULT, AT_FAULT_AGAIN]),
            is_updated(alloc, &identity, &octets(alloc, USAGE)),
        ],
        None => [false; 4],
    }
}

#[test]
fn messages_are_written_as_octets(rt: HostRuntime) {
    expect_equal(&rt, &found(rt.alloc()), &[true; 4]);
}

/// 1,024 octets and 1,025.
static MOST: [u8; 1024] = [b'x'; 1024];

static TOO_MANY: [u8; 1025] = [b'x'; 1025];

fn is_identity(session_id: &[u8], origin_host: &[u8], destination_realm: &[u8]) -> bool {
    Identity::new(session_id, origin_host, b"example", destination_realm).is_some()
}

#[test]
fn an_identity_has_short_parts(rt: HostRuntime) {
    let found = [
        is_identity(&MOST, &MOST, &MOST),
        is_identity(&TOO_MANY, b"", b""),
        is_identity(b"", &TOO_MANY, b""),
        is_identity(b"", b"", &TOO_MANY),
    ];
    expect_equal(&rt, &found, &[true, false, false, false]);
}
