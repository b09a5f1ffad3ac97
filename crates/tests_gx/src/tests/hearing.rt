//! What CCAs say to the CCR that is out.

use super::asking::{put_fault, put_orders};
use super::cca_octets::{
    A_REQUEST, ANOTHER_APPLICATION, ANOTHER_COMMAND, NO_RESULT, SHORT_TRIGGER, TWO_RESULTS,
};
use super::hexadecimal::{octets, put, put_number};
use super::playing::{ccr_out, identity};
use super::worked_messages::{
    A_FAILED_ANSWER, A_REPORT_AND_A_GRANT, AN_ANSWER_WITH_A_DEFAULT_QOS, FILTERS_AT_FAULT,
    ONE_TRIGGER,
};
use super::{Case, expect_equal, first_wrong};
use pcef_diameter::read_message_header;
use pcef_gx_dialogue::{CcaDrop, Ccrs, Says, read_answer};
use pcef_gx_messages::RequestKind;
use std::alloc::Global;

/// The Session-Ids that freeDiameter wrote into CCAs.
const OF_ONE_TRIGGER: &[u8] = b"pcef.example.net;1854408398;48";

const OF_DEFAULT_QOS: &[u8] = b"pcef.example.net;1828040555;92";

const OF_FILTERS: &[u8] = b"pcef.example.net;3074706052;67";

const OF_FAILED: &[u8] = b"pcef.example.net;4935568;22";

const OF_REPORT: &[u8] = b"pcef.example.net;1296641064;89";

/// A CCA, and what it says to the CCR that is out.
struct Heard {
    /// The Session-Id, the kind and the number of that CCR.
    session_id: &'static [u8],
    kind: RequestKind,
    number: u32,
    /// Whether it is still out.
    is_out: bool,
    message: &'static str,
    /// What is said, in words.
    words: &'static str,
}

static HEARD: [Heard; 16] = [
    Heard {
        session_id: OF_ONE_TRIGGER,
        kind: RequestKind::Initial,
        number: 0,
        is_out: true,
        message: ONE_TRIGGER,
        words: "triggers; other 22; ",
    },
    Heard {
        session_id: OF_DEFAULT_QOS,
        kind: RequestKind::Update,
        number: 20,
        is_out: true,
        message: AN_ANSWER_WITH_A_DEFAULT_QOS,
        words: "install r86 filters 0 qci 5 level 10 false true gate EnabledUplink; triggers; other 18; \
                default qci 9 level 12 true false; ",
    },
    Heard {
        session_id: OF_FILTERS,
        kind: RequestKind::Initial,
        number: 0,
        is_out: true,
        message: FILTERS_AT_FAULT,
        words: "remove web; unable Rule 100 110 115 code 12; triggers USER_LOCATION_CHANGE; \
                monitor all 9223372036854775808 rule; ",
    },
    Heard {
        session_id: OF_FAILED,
        kind: RequestKind::Update,
        number: 23,
        is_out: true,
        message: A_FAILED_ANSWER,
        words: "failed 5030",
    },
    Heard {
        session_id: OF_ONE_TRIGGER,
        kind: RequestKind::Initial,
        number: 0,
        is_out: true,
        message: NO_RESULT,
        words: "failed",
    },
    // Another session, another kind, another number; then a number that is none yet.
    Heard {
        session_id: OF_FAILED,
        kind: RequestKind::Initial,
        number: 0,
        is_out: true,
        message: ONE_TRIGGER,
        words: "not ours",
    },
    Heard {
        session_id: OF_ONE_TRIGGER,
        kind: RequestKind::Update,
        number: 0,
        is_out: true,
        message: ONE_TRIGGER,
        words: "not ours",
    },
    Heard {
        session_id: OF_ONE_TRIGGER,
        kind: RequestKind::Initial,
        number: 1,
        is_out: true,
        message: ONE_TRIGGER,
        words: "not ours",
    },
    Heard {
        session_id: OF_FAILED,
        kind: RequestKind::Update,
        number: 22,
        is_out: true,
        message: A_FAILED_ANSWER,
        words: "not ours",
    },
    // At fault.
    Heard {
        session_id: OF_ONE_TRIGGER,
        kind: RequestKind::Initial,
        number: 0,
        is_out: true,
        message: SHORT_TRIGGER,
        words: "fault 5014 at 1006 of 10415",
    },
    Heard {
        session_id: OF_ONE_TRIGGER,
        kind: RequestKind::Initial,
        number: 0,
        is_out: true,
        message: TWO_RESULTS,
        words: "fault 5009 at 268 of 0",
    },
    // No CCA of Gx.
    Heard {
        session_id: OF_ONE_TRIGGER,
        kind: RequestKind::Initial,
        number: 0,
        is_out: true,
        message: A_REQUEST,
        words: "not ours",
    },
    Heard {
        session_id: OF_ONE_TRIGGER,
        kind: RequestKind::Initial,
        number: 0,
        is_out: true,
        message: ANOTHER_APPLICATION,
        words: "not ours",
    },
    Heard {
        session_id: OF_ONE_TRIGGER,
        kind: RequestKind::Initial,
        number: 0,
        is_out: true,
        message: ANOTHER_COMMAND,
        words: "not ours",
    },
    Heard {
        session_id: OF_REPORT,
        kind: RequestKind::Initial,
        number: 0,
        is_out: true,
        message: A_REPORT_AND_A_GRANT,
        words: "not ours",
    },
    // No CCR is out any more.
    Heard {
        session_id: OF_ONE_TRIGGER,
        kind: RequestKind::Initial,
        number: 0,
        is_out: false,
        message: ONE_TRIGGER,
        words: "not ours",
    },
];

/// Writes what a CCA says, in words.
fn put_said(text: &mut String, said: &Result<Says, CcaDrop>) {
    match said {
        Ok(Says::Granted(orders)) => put_orders(text, orders),
        Ok(Says::Failed(Some(code))) => put_number(text, "failed ", u64::from(*code)),
        Ok(Says::Failed(None)) => put(text, "failed"),
        Err(CcaDrop::NotOurs) => put(text, "not ours"),
        Err(CcaDrop::Fault(fault)) => put_fault(text, fault),
        Err(CcaDrop::NoMemory) => put(text, "no memory"),
    }
}

/// Writes what a message says to the CCR that is out, in words.
fn put_heard(alloc: Global, text: &mut String, session_id: &[u8], ccrs: &Ccrs, message: &[u8]) {
    match (identity(session_id), read_message_header(message)) {
        (Some(identity), Some(header)) => put_said(
            text,
            &read_answer(alloc, &identity, ccrs, &header, message),
        ),
        _ => put(text, "no header"),
    }
}

impl Case for Heard {
    fn is_due(&self, alloc: Global) -> bool {
        let mut text = String::new(alloc);
        let mut ccrs = ccr_out(alloc, self.kind, self.number);
        if !self.is_out {
            ccrs.give_up();
        }
        let message = octets(alloc, self.message);
        put_heard(alloc, &mut text, self.session_id, &ccrs, &message);
        text.as_str() == self.words
    }
}

#[test]
fn ccas_say_what_is_meant(rt: HostRuntime) {
    expect_equal(&rt, &first_wrong(rt.alloc(), &HEARD), &None);
}
