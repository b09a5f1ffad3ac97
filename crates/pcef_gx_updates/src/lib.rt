//! What a CCR tells of the reports of a session (TS 29.212, clauses 4.5.3, 4.5.12 and 4.5.16).
//!
//! Its contracts say: which reports a CCR tells, and the AVPs that tell them, octet for octet. A law says that the usage
//! of CCRs that follow one another adds up to the session's reported octets, key by key.
//!
//! In the order of reading: `telling`, `triggers`, `update`, `laws`.
#![tactic(auto)]

mod laws;
mod telling;
mod triggers;
mod update;

pub use laws::usage_adds_up;
pub use update::{MAX_REPORTS, Update, next_update, update_octets};
