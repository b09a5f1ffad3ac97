//! What a Diameter node does for itself, with messages as octets worked by another program and dissected by tshark (RFC
//! 6733, clauses 3, 4.1, 5 and 7.2).
use super::hexadecimal::{is_hexadecimal_of, octets, octets_of_both};
use super::{Case, expect_equal, first_wrong};
use pcef_diameter::{HEADER_LEN, MessageHeader, read_message_header};
use pcef_gx_messages::{CREDIT_CONTROL, GX};
use pcef_gx_peer::{
    BASE, CAPABILITIES_EXCHANGE, DEVICE_WATCHDOG, DISCONNECT_PEER, Exchange, Front, Identifiers,
    MessageKind, Node, ProtocolError, RE_AUTH, capabilities_request, error_answer, front_of,
    kind_of, read_capabilities_answer, success_answer,
};
use pcef_packet::Addr;
use std::alloc::Global;

/// A CER from 192.0.2.7.
const CER_V4: &str = "\
    0100009880000101000000000000000700000009000001084000001667772e6578616d706c652e6e6574000000000128\
    400000136578616d706c652e6e657400000001014000000e0001c000020700000000010a4000000c000000000000010d\
    00000010436970616c6c7461000001094000000c000028af00000104400000200000010a4000000c000028af00000102\
    4000000c01000016";

/// A CER from 2001:db8::7.
const CER_V6: &str = "\
    010000a4800001010000000001020304fffefdfc000001084000001667772e6578616d706c652e6e6574000000000128\
    400000136578616d706c652e6e657400000001014000001a000220010db800000000000000000000000700000000010a\
    4000000c000000000000010d00000010436970616c6c7461000001094000000c000028af00000104400000200000010a\
    4000000c000028af000001024000000c01000016";

/// A DWR, and the DWA.
const DWR: &str = "\
    01000040800001180000000011223344556677880000010840000018706372662e6578616d706c652e6e657400000128\
    400000136578616d706c652e6e657400";

const DWA: &str = "\
    0100004c000001180000000011223344556677880000010c4000000c000007d1000001084000001667772e6578616d70\
    6c652e6e6574000000000128400000136578616d706c652e6e657400";

/// A DPR with REBOOTING, and the DPA.
const DPR: &str = "\
    0100004c8000011a000000000a0b0c0df0e0d0c00000010840000018706372662e6578616d706c652e6e657400000128\
    400000136578616d706c652e6e657400000001114000000c00000000";

const DPA: &str = "\
    0100004c0000011a000000000a0b0c0df0e0d0c00000010c4000000c000007d1000001084000001667772e6578616d70\
    6c652e6e6574000000000128400000136578616d706c652e6e657400";

/// An ASR of Gx that came through two proxies, and its refusal by 3001.
const ASR: &str = "\
    010000f4c0000112010000160000000300000004000001074000001a67772e6578616d706c652e6e65743b313b320000\
    000001024000000c010000160000011c40000030000001184000001972656c61792e6578616d706c652e6e6574000000\
    000000214000000b010203000000010840000018706372662e6578616d706c652e6e657400000128400000136578616d\
    706c652e6e6574000000011b400000136578616d706c652e6e657400000001254000001667772e6578616d706c652e6e\
    657400000000011c4000003000000118400000196f746865722e6578616d706c652e6e65740000000000002140000009\
    78000000";

const ASR_REFUSED: &str = "\
    010000c860000112010000160000000300000004000001074000001a67772e6578616d706c652e6e65743b313b320000\
    0000010c4000000c00000bb9000001084000001667772e6578616d706c652e6e6574000000000128400000136578616d\
    706c652e6e6574000000011c40000030000001184000001972656c61792e6578616d706c652e6e657400000000000021\
    4000000b010203000000011c4000003000000118400000196f746865722e6578616d706c652e6e657400000000000021\
    4000000978000000";

/// An ACR of accounting without a session, and its refusal by 3007.
const ACR: &str = "\
    010000408000010f0000000300000005000000060000010840000018706372662e6578616d706c652e6e657400000128\
    400000136578616d706c652e6e657400";

const ACR_REFUSED: &str = "\
    0100004c2000010f0000000300000005000000060000010c4000000c00000bbf000001084000001667772e6578616d70\
    6c652e6e6574000000000128400000136578616d706c652e6e657400";

/// A CEA with DIAMETER_SUCCESS, as freeDiameter answers the first of these.
const CEA: &str = "\
    010000d8000001010000000000000007000000090000010c4000000c000007d10000010840000018706372662e657861\
    6d706c652e6e657400000128400000136578616d706c652e6e657400000001164000000c6b0bcfa8000001014000000e\
    0001c000020200000000010a4000000c000000000000010d00000014667265654469616d657465720000010b0000000c\
    000027d90000010440000020000001024000000c010000160000010a4000000c000028af000001024000000cffffffff\
    000001094000000c0000159f000001094000000c000028af";

/// A CEA with DIAMETER_UNKNOWN_PEER, as freeDiameter answers a host that it doesn't know.
const CEA_REFUSED: &str = "\
    01000078200001010000000000000007000000090000010c4000000c00000bc2000001190000001d4449414d45544552\
    5f554e4b4e4f574e5f504545520000000000010840000018706372662e6578616d706c652e6e65740000012840000013\
    6578616d706c652e6e657400000001164000000c6b0bd085";

/// The node that all of these are of.
fn node<'a>() -> Option<Node<'a>> {
    Node::new(b"gw.example.net", b"example.net")
}

/// An address, identifiers, and the CER.
struct Capabilities {
    address: Addr,
    identifiers: Identifiers,
    due: &'static str,
}

static CERS: [Capabilities; 2] = [
    Capabilities {
        address: Addr::V4(0xc000_0207),
        identifiers: Identifiers {
            hop_by_hop: 7,
            end_to_end: 9,
        },
        due: CER_V4,
    },
    Capabilities {
        address: Addr::V6(0x2001_0db8_0000_0000_0000_0000_0000_0007),
        identifiers: Identifiers {
            hop_by_hop: 0x0102_0304,
            end_to_end: 0xfffe_fdfc,
        },
        due: CER_V6,
    },
];

/// Whether a CER is as due.
fn is_cer(alloc: Global, node: &Node, cer: &Capabilities) -> bool {
    match capabilities_request(alloc, node, cer.address, cer.identifiers) {
        Ok(found) => is_hexadecimal_of(&found, cer.due),
        Err(_) => false,
    }
}

impl Case for Capabilities {
    fn is_due(&self, alloc: Global) -> bool {
        match node() {
            Some(node) => is_cer(alloc, &node, self),
            None => false,
        }
    }
}

/// A message, and what a node answers.
struct Answered(&'static str, &'static str);

static ANSWERS: [Answered; 4] = [
    Answered(DWR, DWA),
    Answered(DPR, DPA),
    Answered(ASR, ASR_REFUSED),
    Answered(ACR, ACR_REFUSED),
];

/// The answer of a node to a message; none for want of memory, or where it isn't for itself.
#[tactic(auto, using(pcef_gx_peer::proofs::Commands::command_fits))]
fn answer(alloc: Global, message: &[u8]) -> Option<Vec<u8>> {
    let node = node()?;
    let header = read_message_header(message)?;
    let behind = message.get(HEADER_LEN..)?;
    if behind.len() > 65_536 {
        return None;
    }
    match kind_of(&header) {
        MessageKind::WatchdogRequest | MessageKind::DisconnectRequest => {
            success_answer(alloc, &node, &header).ok()
        }
        MessageKind::Refused(error) => error_answer(alloc, &node, &header, error, behind).ok(),
        _ => None,
    }
}

impl Case for Answered {
    fn is_due(&self, alloc: Global) -> bool {
        let message = octets(alloc, self.0);
        match answer(alloc, &message) {
            Some(answer) => is_hexadecimal_of(&answer, self.1),
            None => false,
        }
    }
}

#[test]
fn a_node_asks_and_answers_for_itself(rt: HostRuntime) {
    let wrong = [
        first_wrong(rt.alloc(), &CERS),
        first_wrong(rt.alloc(), &ANSWERS),
    ];
    expect_equal(&rt, &wrong, &[None, None]);
}

/// The first cut at which a stream that begins with a message of this length has another front.
fn first_wrong_cut(octets: &[u8], len: usize) -> Option<usize> {
    for count in 0..octets.len() {
        let due = if count < len {
            Front::More
        } else {
            Front::Whole(len)
        };
        if front_of(octets.split_at(count).0) != due {
            return Some(count);
        }
    }
    None
}

/// A message, one behind it, and the length of the first.
struct Stream(&'static str, &'static str, usize);

static STREAMS: [Stream; 2] = [Stream(CER_V4, DWA, 152), Stream(DWA, "", 76)];

impl Case for Stream {
    fn is_due(&self, alloc: Global) -> bool {
        first_wrong_cut(&octets_of_both(alloc, self.0, self.1), self.2).is_none()
    }
}

/// The front of a stream.
struct FrontDue(&'static [u8], Front);

/// Of another version, of each length that can't be, and of the shortest and the longest message.
static FRONTS: [FrontDue; 10] = [
    FrontDue(&[], Front::More),
    FrontDue(&[2], Front::Lost),
    FrontDue(&[0, 0, 0, 20], Front::Lost),
    FrontDue(&[1, 0xff, 0xff], Front::More),
    FrontDue(&[1, 0, 0, 16], Front::Lost),
    FrontDue(&[1, 0, 0, 20], Front::More),
    FrontDue(&[1, 0, 0, 22], Front::Lost),
    FrontDue(&[1, 1, 0, 0], Front::More),
    FrontDue(&[1, 1, 0, 4], Front::Lost),
    FrontDue(
        &[
            1, 0, 0, 20, 0, 0, 0, 0, 0, 0, 0, 0, 0, 0, 0, 0, 0, 0, 0, 0, 9,
        ],
        Front::Whole(20),
    ),
];

impl Case for FrontDue {
    fn is_due(&self, _alloc: Global) -> bool {
        front_of(self.0) == self.1
    }
}

#[test]
fn messages_are_found_in_a_stream_however_it_is_cut(rt: HostRuntime) {
    let wrong = [
        first_wrong(rt.alloc(), &STREAMS),
        first_wrong(rt.alloc(), &FRONTS),
    ];
    expect_equal(&rt, &wrong, &[None, None]);
}

/// Whether a message is a request, its E bit, its application, its command, and the kind.
struct KindDue(bool, bool, u32, u32, MessageKind);

static KINDS: [KindDue; 17] = [
    KindDue(
        false,
        false,
        BASE,
        CAPABILITIES_EXCHANGE,
        MessageKind::CapabilitiesAnswer,
    ),
    KindDue(
        false,
        true,
        BASE,
        CAPABILITIES_EXCHANGE,
        MessageKind::CapabilitiesAnswer,
    ),
    KindDue(true, false, BASE, CAPABILITIES_EXCHANGE, UNKNOWN),
    KindDue(
        true,
        false,
        BASE,
        DEVICE_WATCHDOG,
        MessageKind::WatchdogRequest,
    ),
    KindDue(
        false,
        false,
        BASE,
        DEVICE_WATCHDOG,
        MessageKind::WatchdogAnswer,
    ),
    KindDue(
        true,
        false,
        BASE,
        DISCONNECT_PEER,
        MessageKind::DisconnectRequest,
    ),
    KindDue(
        false,
        false,
        BASE,
        DISCONNECT_PEER,
        MessageKind::UnknownAnswer,
    ),
    KindDue(true, false, GX, RE_AUTH, MessageKind::ReAuthRequest),
    KindDue(true, false, BASE, RE_AUTH, UNKNOWN),
    KindDue(false, false, GX, RE_AUTH, MessageKind::UnknownAnswer),
    KindDue(
        false,
        false,
        GX,
        CREDIT_CONTROL,
        MessageKind::CreditControlAnswer,
    ),
    KindDue(
        false,
        true,
        GX,
        CREDIT_CONTROL,
        MessageKind::CreditControlAnswer,
    ),
    KindDue(false, false, 4, CREDIT_CONTROL, MessageKind::UnknownAnswer),
    KindDue(true, false, GX, CREDIT_CONTROL, UNKNOWN),
    KindDue(true, false, GX, DEVICE_WATCHDOG, UNKNOWN),
    KindDue(true, false, 4, CREDIT_CONTROL, OTHER),
    KindDue(true, true, GX, RE_AUTH, AT_FAULT),
];

/// What is refused by 3001, by 3007 and by 3008.
const UNKNOWN: MessageKind = MessageKind::Refused(ProtocolError::CommandUnsupported);

const OTHER: MessageKind = MessageKind::Refused(ProtocolError::ApplicationUnsupported);

const AT_FAULT: MessageKind = MessageKind::Refused(ProtocolError::InvalidHeaderBits);

fn header(request: bool, error: bool, application: u32, command: u32) -> MessageHeader {
    MessageHeader {
        version: 1,
        len: 20,
        request,
        proxiable: false,
        error,
        retransmitted: false,
        command,
        application,
        hop_by_hop: 0,
        end_to_end: 0,
    }
}

impl Case for KindDue {
    fn is_due(&self, _alloc: Global) -> bool {
        kind_of(&header(self.0, self.1, self.2, self.3)) == self.4
    }
}

/// A CEA, octets behind it, and what both say.
struct Exchanged(&'static str, &'static str, Exchange);

static CEAS: [Exchanged; 5] = [
    Exchanged(CEA, "", Exchange::Agreed),
    Exchanged(CEA_REFUSED, "", Exchange::Refused(Some(3010))),
    // A second Result-Code, none, and an AVP at fault.
    Exchanged(CEA, "0000010c4000000c00001392", Exchange::Refused(None)),
    Exchanged(DWR, "", Exchange::Refused(None)),
    Exchanged(CEA, "0000010c", Exchange::Refused(None)),
];

impl Case for Exchanged {
    fn is_due(&self, alloc: Global) -> bool {
        let octets = octets_of_both(alloc, self.0, self.1);
        match read_capabilities_answer(alloc, octets.get(HEADER_LEN..).unwrap_or(&[])) {
            Ok(found) => found == self.2,
            Err(_) => false,
        }
    }
}

#[test]
fn kinds_of_messages_and_exchanges_are_told(rt: HostRuntime) {
    let wrong = [
        first_wrong(rt.alloc(), &KINDS),
        first_wrong(rt.alloc(), &CEAS),
    ];
    expect_equal(&rt, &wrong, &[None, None]);
}
