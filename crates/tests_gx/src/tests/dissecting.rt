//! What is read of messages, beside what tshark says of them.
use super::changed_messages::A_NUMBER_OF_SIX_OCTETS;
use super::dissected::{MESSAGES, Message, REQUEST};
use super::hexadecimal::octets;
use super::worked_messages::{A_FAILED_ANSWER, ONE_TRIGGER};
use super::{Case, expect_equal, first_wrong};
use pcef_diameter::{
    AvpFault, HEADER_LEN, MessageFault, MessageHeader, read_avp, read_message_header,
    read_unsigned32, read_unsigned64,
};
use std::alloc::Global;

/// The codes of groups: Granted-Service-Unit, Charging-Rule-Install and -Remove, Usage-Monitoring-Information.
const GROUPED: [u32; 4] = [431, 1001, 1002, 1067];

/// The code and the length of the first AVP, and the octets behind it; those behind its header, where it is a group.
fn first_avp(octets: &[u8]) -> Result<(u32, usize, &[u8]), AvpFault> {
    match read_avp(octets) {
        Ok((avp, _)) if GROUPED.contains(&avp.code) => {
            let header = avp.len() - avp.octets.len();
            Ok((avp.code, avp.len(), octets.get(header..).unwrap_or(&[])))
        }
        Ok((avp, behind)) => Ok((avp.code, avp.len(), behind)),
        Err(fault) => Err(fault),
    }
}

/// Whether octets are these AVPs, those of a group behind their group, and then this fault or the end.
fn are_avps(octets: &[u8], avps: &[(u32, usize)], fault: Option<AvpFault>) -> bool {
    let mut rest = octets;
    for due in avps {
        match first_avp(rest) {
            Ok((code, len, behind)) if (code, len) == *due => rest = behind,
            _ => return false,
        }
    }
    match fault {
        Some(fault) => first_avp(rest).err() == Some(fault),
        None => rest.is_empty(),
    }
}

impl Case for Message {
    fn is_due(&self, alloc: Global) -> bool {
        let octets = octets(alloc, self.octets);
        let behind = octets.get(HEADER_LEN..).unwrap_or(&[]);
        read_message_header(&octets) == Some(self.header)
            && self.header.fault(octets.len()).is_none()
            && are_avps(behind, self.avps, self.fault)
    }
}

/// A header, how many octets there are, and the first fault.
struct Faulty {
    header: MessageHeader,
    count: usize,
    fault: Option<MessageFault>,
}

impl Case for Faulty {
    fn is_due(&self, _alloc: Global) -> bool {
        self.header.fault(self.count) == self.fault
    }
}

/// The header of a message of 24 octets.
const LONG: MessageHeader = MessageHeader { len: 24, ..REQUEST };

/// The same with the E bit.
const FAILED: MessageHeader = MessageHeader {
    error: true,
    ..LONG
};

/// The same of another version.
const SECOND: MessageHeader = MessageHeader {
    version: 2,
    ..FAILED
};

static FAULTS: [Faulty; 8] = [
    Faulty {
        header: LONG,
        count: 24,
        fault: None,
    },
    Faulty {
        header: LONG,
        count: 28,
        fault: Some(MessageFault::Length),
    },
    Faulty {
        header: MessageHeader { len: 22, ..LONG },
        count: 22,
        fault: Some(MessageFault::Length),
    },
    Faulty {
        header: MessageHeader { len: 16, ..LONG },
        count: 16,
        fault: Some(MessageFault::Length),
    },
    Faulty {
        header: FAILED,
        count: 24,
        fault: Some(MessageFault::Bits),
    },
    Faulty {
        header: FAILED,
        count: 20,
        fault: Some(MessageFault::Length),
    },
    Faulty {
        header: SECOND,
        count: 20,
        fault: Some(MessageFault::Version),
    },
    Faulty {
        header: MessageHeader {
            request: false,
            ..FAILED
        },
        count: 24,
        fault: None,
    },
];

/// A message, from where to where it has a number, and that number as one of four octets and of eight.
struct Number {
    message: &'static str,
    from: usize,
    to: usize,
    four: Option<u32>,
    eight: Option<u64>,
}

impl Case for Number {
    fn is_due(&self, alloc: Global) -> bool {
        let octets = octets(alloc, self.message);
        let data = octets.get(self.from..self.to).unwrap_or(&[]);
        read_unsigned32(data) == self.four && read_unsigned64(data) == self.eight
    }
}

static NUMBERS: [Number; 4] = [
    Number {
        message: A_FAILED_ANSWER,
        from: 120,
        to: 124,
        four: Some(5030),
        eight: None,
    },
    Number {
        message: ONE_TRIGGER,
        from: 164,
        to: 168,
        four: Some(22),
        eight: None,
    },
    Number {
        message: A_FAILED_ANSWER,
        from: 272,
        to: 280,
        four: None,
        eight: Some(1),
    },
    Number {
        message: A_NUMBER_OF_SIX_OCTETS,
        from: 212,
        to: 218,
        four: None,
        eight: None,
    },
];

#[test]
fn messages_are_read_as_dissected(rt: HostRuntime) {
    let alloc = rt.alloc();
    let wrong = [
        first_wrong(alloc, &MESSAGES),
        first_wrong(alloc, &FAULTS),
        first_wrong(alloc, &NUMBERS),
    ];
    expect_equal(&rt, &wrong, &[None; 3]);
}
