//! What a PCEF that speaks of Gx over one connection decides for itself (RFC 6733): what is done with each message, how
//! its requests are numbered, what its first CCR tells beside the session, and how it takes leave.
//!
//! Its contracts say: what is done with each kind of message, and the octets that are written.
//!
//! In the order of reading: `deed`, `numbering`, `access`, `farewell`.
#![tactic(auto)]

mod access;
mod deed;
mod farewell;
mod numbering;

pub use access::Access;
pub use deed::{Deed, Phase, deed_of};
pub use farewell::{disconnect_request, is_disconnect_answer};
pub use numbering::Numbering;
