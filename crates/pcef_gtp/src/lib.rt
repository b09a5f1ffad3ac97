//! The packets that GTP-U tunnels carry (3GPP TS 29.281): `tunneled_of` finds the one that an IP packet has in it.
//!
//! Its contracts say: which octets of an IP packet are the packet of a tunnel, and of which tunnel; or why there are
//! none.
//!
//! In the order of reading: `refusal`, `outer`, `message`, `extensions`, `tunneled`.
#![tactic(auto)]

mod extensions;
mod message;
mod outer;
mod refusal;
mod tunneled;

pub use refusal::NotTunneled;
pub use tunneled::{Tunneled, tunneled_of};
