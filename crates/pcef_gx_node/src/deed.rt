//! What is done with a message.

ghost use Rattle.std.specs.Prelude.{◌≡◌};
ghost use Rattle.pcef_gx_node.specs.Deeds.{deed_of, deed_while_speaking};

use pcef_gx_peer::{MessageKind, ProtocolError};

/// Where a connection stands.
#[derive(Clone, Copy, Debug, PartialEq, Eq)]
pub enum Phase {
    /// The CER went out, and the CEA hasn't come.
    Exchanging,
    /// The peers speak.
    Speaking,
    /// The DPR went out, and the DPA hasn't come.
    Leaving,
}

/// What is done with a message.
#[derive(Clone, Copy, Debug, PartialEq, Eq)]
pub enum Deed {
    /// The CEA is read: it says whether the peers may speak.
    ReadCapabilities,
    /// A DWR is answered by DIAMETER_SUCCESS.
    AnswerWatchdog,
    /// A DPR is answered by DIAMETER_SUCCESS, and the connection ends.
    AnswerDisconnect,
    /// A request is refused, by an answer with the E bit.
    Refuse(ProtocolError),
    /// A message of a session is handed to it.
    Hear,
    /// Nothing.
    Drop,
    /// The connection ends, for the peer speaks before it has said what it can.
    Close,
    /// The connection ends: the peer took leave, too.
    Leave,
}

/// What is done with a request, or with an answer that only comes unasked, once the peers speak.
fn deed_while_speaking(kind: MessageKind) -> Deed
    ensures { result ≡ deed_while_speaking kind }
{
    match kind {
        MessageKind::WatchdogRequest => Deed::AnswerWatchdog,
        MessageKind::DisconnectRequest => Deed::AnswerDisconnect,
        MessageKind::Refused(error) => Deed::Refuse(error),
        MessageKind::ReAuthRequest | MessageKind::CreditControlAnswer => Deed::Hear,
        MessageKind::CapabilitiesAnswer
        | MessageKind::WatchdogAnswer
        | MessageKind::UnknownAnswer => Deed::Drop,
    }
}

/// What is done with a message of this kind; `is_farewell` says whether it is a DPA. Takes no memory.
pub fn deed_of(phase: Phase, kind: MessageKind, is_farewell: bool) -> Deed
    ensures { result ≡ deed_of phase kind is_farewell }
{
    match (phase, kind) {
        (Phase::Exchanging, MessageKind::CapabilitiesAnswer) => Deed::ReadCapabilities,
        (Phase::Exchanging, _) => Deed::Close,
        (Phase::Leaving, _) if is_farewell => Deed::Leave,
        _ => deed_while_speaking(kind),
    }
}
