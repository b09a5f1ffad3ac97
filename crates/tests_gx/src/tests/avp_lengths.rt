//! AVPs whose lengths are off by one to four: what a reader in another language, by RFC 6733, clause 4.1, makes of
//! them.
use super::hexadecimal::{octets, set};
use super::worked_messages::ONE_TRIGGER;
use super::{Case, expect_equal, first_wrong};
use pcef_diameter::{AvpFault, HEADER_LEN, read_avps};
use std::alloc::Global;

/// Where an AVP has the last octet of its length, and what is read with 4, 3, 2 and 1 less there, and with 1, 2, 3
/// and 4 more: ten times how many AVPs, and what follows them: 0 the end, 1 a header that is cut, 2 a reserved bit, 3
/// a length that can't be.
struct Off {
    place: usize,
    due: [u8; 8],
}

static OFF: [Off; 8] = [
    Off {
        place: 27,
        due: [13, 13, 13, 80, 80, 80, 12, 12],
    },
    Off {
        place: 67,
        due: [23, 80, 80, 80, 22, 22, 22, 22],
    },
    Off {
        place: 79,
        due: [33, 80, 80, 80, 32, 32, 32, 32],
    },
    Off {
        place: 103,
        due: [43, 43, 80, 80, 80, 43, 43, 43],
    },
    Off {
        place: 123,
        due: [53, 80, 80, 80, 53, 53, 53, 53],
    },
    Off {
        place: 135,
        due: [63, 80, 80, 80, 63, 63, 63, 63],
    },
    Off {
        place: 147,
        due: [73, 80, 80, 80, 73, 73, 73, 73],
    },
    Off {
        place: 159,
        due: [81, 80, 80, 80, 73, 73, 73, 73],
    },
];

/// What is added to a length.
static STEPS: [u8; 8] = [0xfc, 0xfd, 0xfe, 0xff, 1, 2, 3, 4];

fn fault_number(fault: Option<AvpFault>) -> u8 {
    match fault {
        None => 0,
        Some(AvpFault::Cut) => 1,
        Some(AvpFault::Bits) => 2,
        Some(AvpFault::Length) => 3,
    }
}

/// What is read of AVPs, as [`Off`] has it; 99 for want of memory.
fn read(alloc: Global, avps: &[u8]) -> u8 {
    match read_avps(alloc, avps) {
        Ok(read) => {
            let count = read.avps.len().min(9) as u8;
            count
                .saturating_mul(10)
                .saturating_add(fault_number(read.fault))
        }
        Err(_) => 99,
    }
}

/// Whether this is read of a message with the octet at a place off by each step.
fn is_read(alloc: Global, message: &mut Vec<u8>, off: &Off) -> bool {
    let stood = message.get(off.place).copied().unwrap_or(0);
    for (step, due) in STEPS.iter().zip(&off.due) {
        set(message, off.place, stood.wrapping_add(*step));
        if read(alloc, message.get(HEADER_LEN..).unwrap_or(&[])) != *due {
            return false;
        }
    }
    true
}

impl Case for Off {
    fn is_due(&self, alloc: Global) -> bool {
        is_read(alloc, &mut octets(alloc, ONE_TRIGGER), self)
    }
}

#[test]
fn a_length_that_is_off_ends_the_reading_or_changes_the_padding(rt: HostRuntime) {
    expect_equal(&rt, &first_wrong(rt.alloc(), &OFF), &None);
}
