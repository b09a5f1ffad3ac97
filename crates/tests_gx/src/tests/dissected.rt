//! What tshark says of messages: headers, and the codes and lengths of AVPs.

use super::changed_messages::{
    A_GRANT_OF_TIME, A_LENGTH_BEYOND_THE_MESSAGE, A_NUMBER_OF_SIX_OCTETS, A_RESERVED_BIT,
    TWO_SESSION_IDS,
};
use super::worked_messages::{A_FAILED_ANSWER, A_REPORT_AND_A_GRANT, ONE_TRIGGER};
use pcef_diameter::{AvpFault, MessageHeader};

/// A message, and what is read of it.
pub(super) struct Message {
    /// In hexadecimal.
    pub octets: &'static str,
    pub header: MessageHeader,
    /// Each AVP's code and length, those of a group behind their group.
    pub avps: &'static [(u32, usize)],
    pub fault: Option<AvpFault>,
}

/// The header of a Re-Auth-Request of Gx.
pub(super) const REQUEST: MessageHeader = MessageHeader {
    version: 1,
    len: 0,
    request: true,
    proxiable: true,
    error: false,
    retransmitted: false,
    command: 258,
    application: 16_777_238,
    hop_by_hop: 1,
    end_to_end: 1,
};

/// The header of a Credit-Control-Answer of Gx.
const ANSWER: MessageHeader = MessageHeader {
    request: false,
    command: 272,
    ..REQUEST
};

pub(super) static MESSAGES: [Message; 8] = [
    Message {
        octets: A_REPORT_AND_A_GRANT,
        header: MessageHeader {
            len: 316,
            hop_by_hop: 4012695208,
            end_to_end: 4206591253,
            ..REQUEST
        },
        avps: &[
            (263, 38),
            (258, 12),
            (264, 24),
            (296, 19),
            (283, 19),
            (293, 24),
            (285, 12),
            (1067, 44),
            (1066, 15),
            (1069, 16),
            (1002, 32),
            (1005, 19),
            (1067, 68),
            (1066, 16),
            (431, 24),
            (421, 16),
            (1068, 16),
        ],
        fault: None,
    },
    Message {
        octets: ONE_TRIGGER,
        header: MessageHeader {
            len: 168,
            hop_by_hop: 3048156906,
            end_to_end: 2241915760,
            ..ANSWER
        },
        avps: &[
            (263, 38),
            (258, 12),
            (264, 24),
            (296, 19),
            (268, 12),
            (416, 12),
            (415, 12),
            (1006, 16),
        ],
        fault: None,
    },
    Message {
        octets: A_FAILED_ANSWER,
        header: MessageHeader {
            len: 280,
            hop_by_hop: 314677599,
            end_to_end: 2835207412,
            ..ANSWER
        },
        avps: &[
            (263, 35),
            (258, 12),
            (264, 24),
            (296, 19),
            (268, 12),
            (416, 12),
            (415, 12),
            (1067, 72),
            (1066, 17),
            (431, 24),
            (421, 16),
            (1068, 16),
            (1067, 60),
            (1066, 23),
            (431, 24),
            (421, 16),
        ],
        fault: None,
    },
    Message {
        octets: A_LENGTH_BEYOND_THE_MESSAGE,
        header: MessageHeader {
            len: 340,
            hop_by_hop: 817346912,
            end_to_end: 2546228788,
            ..REQUEST
        },
        avps: &[
            (263, 37),
            (258, 12),
            (264, 24),
            (296, 19),
            (283, 19),
            (293, 24),
            (285, 12),
        ],
        fault: Some(AvpFault::Length),
    },
    Message {
        octets: A_RESERVED_BIT,
        header: MessageHeader {
            len: 280,
            hop_by_hop: 2018227576,
            end_to_end: 3831269724,
            ..REQUEST
        },
        avps: &[(263, 38), (258, 12), (264, 24), (296, 19)],
        fault: Some(AvpFault::Bits),
    },
    Message {
        octets: TWO_SESSION_IDS,
        header: MessageHeader {
            len: 256,
            hop_by_hop: 1827710047,
            end_to_end: 1057656053,
            ..REQUEST
        },
        avps: &[
            (263, 38),
            (263, 38),
            (258, 12),
            (264, 24),
            (296, 19),
            (283, 19),
            (293, 24),
            (285, 12),
            (1002, 28),
            (1005, 15),
            (1006, 16),
        ],
        fault: None,
    },
    Message {
        octets: A_NUMBER_OF_SIX_OCTETS,
        header: MessageHeader {
            len: 340,
            hop_by_hop: 1090407362,
            end_to_end: 36590898,
            ..REQUEST
        },
        avps: &[
            (263, 36),
            (258, 12),
            (264, 24),
            (296, 19),
            (283, 19),
            (293, 24),
            (285, 12),
            (1067, 52),
            (1066, 15),
            (431, 24),
            (421, 14),
            (1067, 68),
            (1066, 16),
            (431, 24),
            (421, 16),
            (1068, 16),
            (1001, 52),
            (1005, 18),
            (1005, 19),
        ],
        fault: None,
    },
    Message {
        octets: A_GRANT_OF_TIME,
        header: MessageHeader {
            len: 256,
            ..REQUEST
        },
        avps: &[
            (263, 38),
            (258, 12),
            (264, 24),
            (296, 19),
            (283, 19),
            (293, 24),
            (285, 12),
            (1067, 84),
            (1066, 15),
            (431, 40),
            (412, 16),
            (414, 16),
            (1068, 16),
        ],
        fault: None,
    },
];
