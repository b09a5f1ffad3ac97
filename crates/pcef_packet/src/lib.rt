//! The IP header of a user packet, as far as rules, verdicts and volumes look at it: `Header` and its parts, the
//! readers of headers and of addresses in text, both of either version, and `PackedHeader`.
//!
//! Its contracts say: the header at the front of some octets, or its first fault; the address that a text writes;
//! which addresses are a session's.
//!
//! In the order of reading: `header`, `packed`, `ports`, `ipv4`, `extensions`, `ipv6`, `reading`, `cutting`,
//! `colon_hex`, `dotted_decimal`, `address_text`.
#![tactic(auto)]

mod address_text;
mod colon_hex;
mod cutting;
mod dotted_decimal;
mod extensions;
mod header;
mod ipv4;
mod ipv6;
mod packed;
mod ports;
mod reading;

pub use header::{Addr, Dir, Header, PacketFault, Ports};
pub use packed::PackedHeader;
pub use reading::read_header;
