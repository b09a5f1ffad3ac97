//! What kind of message came.

ghost use Rattle.std.specs.Prelude.{◌≡◌};
ghost use Rattle.pcef_gx_peer.specs.Kinds.{answer_kind, error_number, kind_of, request_kind};

use pcef_diameter::MessageHeader;
use pcef_gx_messages::{CREDIT_CONTROL, GX};

/// The Application-ID of the base protocol (RFC 6733, clause 2.4).
pub const BASE: u32 = 0;

/// The Command Code of a Capabilities-Exchange (RFC 6733, clause 3.1).
pub const CAPABILITIES_EXCHANGE: u32 = 257;

/// The Command Code of a Re-Auth (RFC 6733, clause 3.1).
pub const RE_AUTH: u32 = 258;

/// The Command Code of a Device-Watchdog (RFC 6733, clause 3.1).
pub const DEVICE_WATCHDOG: u32 = 280;

/// The Command Code of a Disconnect-Peer (RFC 6733, clause 3.1).
pub const DISCONNECT_PEER: u32 = 282;

/// Why a request is refused before its AVPs are looked at. The answer has the E bit (RFC 6733, clause 7.1.3).
#[derive(Clone, Copy, Debug, PartialEq, Eq)]
pub enum ProtocolError {
    /// The command isn't known: DIAMETER_COMMAND_UNSUPPORTED.
    CommandUnsupported,
    /// The application isn't Gx: DIAMETER_APPLICATION_UNSUPPORTED.
    ApplicationUnsupported,
    /// It has the E bit, which only answers have: DIAMETER_INVALID_HDR_BITS.
    InvalidHeaderBits,
}

impl ProtocolError {
    /// The Result-Code. Takes no memory.
    pub fn result_code(self) -> u32
        ensures { result ≡ error_number self }
    {
        match self {
            ProtocolError::CommandUnsupported => 3001,
            ProtocolError::ApplicationUnsupported => 3007,
            ProtocolError::InvalidHeaderBits => 3008,
        }
    }
}

/// What kind of message came to a PCEF from its PCRF.
#[derive(Clone, Copy, Debug, PartialEq, Eq)]
pub enum MessageKind {
    /// A CEA: whether the peers may speak.
    CapabilitiesAnswer,
    /// A DWR: is answered at once.
    WatchdogRequest,
    /// A DWA: is passed over.
    WatchdogAnswer,
    /// A DPR: is answered, and the stream ends.
    DisconnectRequest,
    /// A RAR of Gx, of a session.
    ReAuthRequest,
    /// A CCA of Gx, of a session.
    CreditControlAnswer,
    /// A request that is answered by an error.
    Refused(ProtocolError),
    /// An answer that nothing asked for: is dropped.
    UnknownAnswer,
}

/// What kind of request it is.
fn request_kind(application: u32, command: u32) -> MessageKind
    ensures { result ≡ request_kind application command }
{
    match (application, command) {
        (BASE, DEVICE_WATCHDOG) => MessageKind::WatchdogRequest,
        (BASE, DISCONNECT_PEER) => MessageKind::DisconnectRequest,
        (GX, RE_AUTH) => MessageKind::ReAuthRequest,
        (BASE | GX, _) => MessageKind::Refused(ProtocolError::CommandUnsupported),
        _ => MessageKind::Refused(ProtocolError::ApplicationUnsupported),
    }
}

/// What kind of answer it is.
fn answer_kind(application: u32, command: u32) -> MessageKind
    ensures { result ≡ answer_kind application command }
{
    match (application, command) {
        (BASE, CAPABILITIES_EXCHANGE) => MessageKind::CapabilitiesAnswer,
        (BASE, DEVICE_WATCHDOG) => MessageKind::WatchdogAnswer,
        (GX, CREDIT_CONTROL) => MessageKind::CreditControlAnswer,
        _ => MessageKind::UnknownAnswer,
    }
}

/// What kind of message this is the header of. Takes no memory.
#[tactic(auto, unfolding(crate::specs::Kinds::kind_of))]
pub fn kind_of(header: &MessageHeader) -> MessageKind
    ensures { result ≡ kind_of header.now }
{
    if !header.request {
        return answer_kind(header.application, header.command);
    }
    if header.error {
        return MessageKind::Refused(ProtocolError::InvalidHeaderBits);
    }
    request_kind(header.application, header.command)
}
