//! What is written, beside what freeDiameter wrote.
use super::changed_messages::{A_GRANT_OF_TIME, TWO_SESSION_IDS};
use super::hexadecimal::octets;
use super::worked_messages::{A_FAILED_ANSWER, A_REPORT_AND_A_GRANT, ONE_TRIGGER};
use super::{Case, expect_equal, first_wrong};
use pcef_diameter::{
    Avp, HEADER_LEN, MessageHeader, put_avp, put_header, read_avps, read_message_header,
};
use std::alloc::Global;

/// A message that has no padding but zeros.
struct Whole(&'static str);

static MESSAGES: [Whole; 5] = [
    Whole(A_REPORT_AND_A_GRANT),
    Whole(ONE_TRIGGER),
    Whole(A_FAILED_ANSWER),
    Whole(TWO_SESSION_IDS),
    Whole(A_GRANT_OF_TIME),
];

/// Whether a header could be written.
fn is_header_put(out: &mut Vec<u8>, header: &MessageHeader) -> bool {
    header.len < 1000 && header.command < 1000 && put_header(out, header).is_ok()
}

/// Whether AVPs could be written.
fn are_avps_put(out: &mut Vec<u8>, avps: &[Avp]) -> bool {
    for avp in avps {
        if avp.len() > 1000 || put_avp(out, avp).is_err() {
            return false;
        }
    }
    true
}

/// Whether a header and AVPs are written as these octets.
fn is_written(alloc: Global, header: &MessageHeader, avps: &[Avp], due: &[u8]) -> bool {
    let mut out = Vec::new(alloc);
    is_header_put(&mut out, header) && are_avps_put(&mut out, avps) && out.as_slice() == due
}

impl Case for Whole {
    fn is_due(&self, alloc: Global) -> bool {
        let message = octets(alloc, self.0);
        let behind = message.get(HEADER_LEN..).unwrap_or(&[]);
        match (read_message_header(&message), read_avps(alloc, behind)) {
            (Some(header), Ok(read)) => is_written(alloc, &header, &read.avps, &message),
            _ => false,
        }
    }
}

#[test]
fn a_message_is_written_as_it_was_read(rt: HostRuntime) {
    expect_equal(&rt, &first_wrong(rt.alloc(), &MESSAGES), &None);
}
