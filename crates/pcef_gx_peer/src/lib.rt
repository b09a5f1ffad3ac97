//! What a Diameter node does for itself beside Gx (RFC 6733): it finds messages in a stream, exchanges capabilities,
//! tells what kind of message came, and answers watchdogs, a disconnection, and what it doesn't support.
//!
//! Its contracts say: whether a whole message stands at the front of a stream; the octets of each message of the node;
//! what a CEA says; the kind of each message.
//!
//! In the order of reading: `front`, `kind`, `node`, `sending`, `exchange`, `answering`, `laws`.
#![tactic(auto)]

mod answering;
mod exchange;
mod front;
mod kind;
mod laws;
mod node;
mod sending;

pub use answering::{error_answer, success_answer};
pub use exchange::{Exchange, Identifiers, capabilities_request, read_capabilities_answer};
pub use front::{Front, MAX_LEN, front_of};
pub use kind::{
    BASE, CAPABILITIES_EXCHANGE, DEVICE_WATCHDOG, DISCONNECT_PEER, MessageKind, ProtocolError,
    RE_AUTH, kind_of,
};
pub use laws::{a_front_stays, what_is_written_is_whole};
pub use node::Node;
