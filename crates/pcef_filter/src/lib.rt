//! Service data flow filters (RFC 6733, clause 4.3.1, in this project's profile): `Filter`, the reader of filter texts,
//! and `matches`.
//!
//! Its contracts say: the filter that a text spells, or its fault; which headers match.
//!
//! In the order of reading: `filter`, `laws`, `matching`, `tokens`, `decimal`, `classes`, `pieces`, `places`, `ports`,
//! `reading`.
#![tactic(auto)]

mod classes;
mod decimal;
mod filter;
mod laws;
mod matching;
mod pieces;
mod places;
mod ports;
mod reading;
mod tokens;

pub use filter::{Direction, Endpoint, Filter, FilterFault, Flow, Net, Place, PortRange};
pub use laws::one_fault;
pub use matching::any_matches;
pub use reading::read_filter;
